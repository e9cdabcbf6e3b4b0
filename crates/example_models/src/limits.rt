/// The greatest number of classes of a source.
pub const MAX_SOURCE_CLASSES: u32 = 50_000;

/// Seeds are below this number.
pub const SEEDS: u32 = 1_000_000_000;
