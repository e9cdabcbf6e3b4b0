/// The greatest number of metamodels, of models, of variables and of queries: each of these has a number of 32 bits.
pub const MAX_NUMBERED: usize = 4294967295;
