/// The greatest number of classes of a metamodel.
pub const MAX_CLASSES: usize = 4_096;

/// The greatest number of enumerations of a metamodel.
pub const MAX_ENUMS: usize = 4_096;

/// The greatest number of properties of a metamodel, those of all its classes together.
pub const MAX_PROPS: usize = 65_536;

/// The greatest number of literals of a metamodel, those of all its enumerations together.
pub const MAX_LITERALS: usize = 65_536;
