/// The greatest nesting in a script.
pub const MAX_NESTING: usize = 128;
