ghost use Rattle.std.specs.Prelude.{◌≡◌};
ghost use Rattle.mof_metamodel.specs.declared.fault.MetaError.TheVariants.{NoMemory as OutOfMemory};

use crate::memory::NoMemory;
use crate::text::Text;
use std::alloc::{AllocError, AllocFailed};

/// Why a description is no metamodel.
#[derive(Debug, Drop)]
pub enum MetaError {
    Fault(MetaFault),
    NoMemory,
}

/// The first fault of a description, and the name at which it stands: that of a class or an enumeration, `Class.property`
/// or `Enumeration.literal`. At `Limit` it is empty, and for a wrong name of the metamodel it is that name.
#[derive(Debug, Drop)]
pub struct MetaFault {
    pub kind: MetaKind,
    pub name: Text,
}

/// The kinds of faults of a description.
#[derive(Clone, Copy, Debug)]
pub enum MetaKind {
    DuplicateName,
    UnknownType,
    SuperCycle,
    BadBounds,
    BadOpposite,
    TwoContainers,
    Limit,
    BadName,
}

impl MetaKind {
    ghost use Rattle.mof_metamodel.specs.MetaFaults.{kind_word};

    /// The word by which a fault of the kind is printed.
    pub fn word(self) -> &'static str
        ensures { result.now ≡ kind_word self }
    {
        match self {
            MetaKind::DuplicateName => "DuplicateName",
            MetaKind::UnknownType => "UnknownType",
            MetaKind::SuperCycle => "SuperCycle",
            MetaKind::BadBounds => "BadBounds",
            MetaKind::BadOpposite => "BadOpposite",
            MetaKind::TwoContainers => "TwoContainers",
            MetaKind::Limit => "Limit",
            MetaKind::BadName => "BadName",
        }
    }
}

impl From<NoMemory> for MetaError {
    ghost from_gives = { λ _ e. e ≡ OutOfMemory };

    fn from(_error: NoMemory) -> MetaError {
        MetaError::NoMemory
    }
}

impl From<AllocError> for MetaError {
    ghost from_gives = { λ _ e. e ≡ OutOfMemory };

    fn from(_error: AllocError) -> MetaError {
        MetaError::NoMemory
    }
}

impl<T: Drop> From<AllocFailed<T>> for MetaError {
    ghost from_gives = { λ _ e. e ≡ OutOfMemory };

    fn from(_error: AllocFailed<T>) -> MetaError {
        MetaError::NoMemory
    }
}
