/// The greatest nesting of elements in a model file, the root having nesting 1.
pub const MAX_XMI_NESTING: usize = 256;
