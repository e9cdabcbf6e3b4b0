use mof_metamodel::{ClassId, EnumId};

/// A class or an enumeration, with the number of its metamodel.
#[derive(Clone, Copy)]
pub enum Classifier {
    Class(u32, ClassId),
    Enum(u32, EnumId),
}

/// What was found so far of what a name may name.
#[derive(Clone, Copy)]
pub(crate) enum Found {
    Nothing,
    One(Classifier),
    Several,
}

/// Which classifiers a name may name.
#[derive(Clone, Copy)]
pub enum Wanted {
    Types,
    Classes,
    Enums,
}
