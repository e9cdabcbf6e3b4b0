use mof_metamodel::NoMemory;
use object_tables::AddFault;
use std::alloc::AllocFailed;

/// Why an edit is not made. All but the last two are conditions of the call that would make it.
#[derive(Clone, Copy)]
pub enum Refusal {
    NoCommand,
    NoClass,
    NoObject,
    NoProperty,
    BadIdentifier,
    WrongType,
    WrongValues,
    Linked,
    NotLinked,
    Contained,
    WrongOrder,
    Fault(AddFault),
    NoMemory,
}

impl Refusal {
    /// The word that tests print.
    pub fn word(self) -> &'static str {
        match self {
            Refusal::NoCommand => "NoCommand",
            Refusal::NoClass => "NoClass",
            Refusal::NoObject => "NoObject",
            Refusal::NoProperty => "NoProperty",
            Refusal::BadIdentifier => "BadIdentifier",
            Refusal::WrongType => "WrongType",
            Refusal::WrongValues => "WrongValues",
            Refusal::Linked => "Linked",
            Refusal::NotLinked => "NotLinked",
            Refusal::Contained => "Contained",
            Refusal::WrongOrder => "WrongOrder",
            Refusal::Fault(fault) => fault.word(),
            Refusal::NoMemory => "NoMemory",
        }
    }
}

impl From<NoMemory> for Refusal {
    fn from(_error: NoMemory) -> Refusal {
        Refusal::NoMemory
    }
}

impl<T: Drop> From<AllocFailed<T>> for Refusal {
    fn from(_error: AllocFailed<T>) -> Refusal {
        Refusal::NoMemory
    }
}
