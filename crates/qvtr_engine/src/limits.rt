/// The greatest number of bytes of a file that is read or put.
pub const MAX_FILE: usize = 16_777_216;
