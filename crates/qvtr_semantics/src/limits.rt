/// The greatest number of calls in a chain of calls between relations.
pub const MAX_CALLS: usize = 128;

/// The greatest number of characters or elements of the result of an operation in an expression.
pub const MAX_RESULT: usize = 1_000_000;
