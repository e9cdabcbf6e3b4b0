/// The greatest Integer, and so the greatest number of a script.
pub const MAX_INTEGER: u64 = 9_223_372_036_854_775_807;

/// The greatest number of bytes of a script.
pub const MAX_SCRIPT: usize = 1_048_576;
