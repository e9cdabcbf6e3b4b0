ghost use Rattle.std.specs.Prelude.{◌≡◌};
ghost use Rattle.ocl_environments.specs.FaultWords.{fault_word};

use mof_metamodel::{NoMemory, Text};
use thiserror::Error;

/// A fault of a script that its types show.
#[derive(Debug, Drop)]
pub enum TypeFault {
    /// A name that names nothing of the kind that its place asks for.
    UnknownName(Text),
    /// A type in the place of another.
    WrongType { wanted: Text, found: Text },
    /// A call with a wrong number of arguments.
    WrongCount(Text),
    /// Objects of two models, or of a model that isn't determined.
    ModelMix(Text),
    /// A query that lies on a cycle of calls.
    QueryCycle(Text),
    /// A name that is there already.
    DuplicateName(Text),
    /// A variable that nothing binds.
    Unbound(Text),
    /// A relation that lies on a cycle of calls in when.
    WhenCycle(Text),
    /// A call of a relation in a wrong place.
    CallShape(Text),
    /// A key that names no class or property, or one twice.
    KeyShape(Text),
    /// A target that is no model of the script.
    UnknownModel(Text),
}

impl TypeFault {
    /// The word that a fault is printed with.
    pub fn word(&self) -> &'static str
        ensures { result.now ≡ fault_word self.now }
    {
        match self {
            TypeFault::UnknownName(_) => "UnknownName",
            TypeFault::WrongType { .. } => "WrongType",
            TypeFault::WrongCount(_) => "WrongCount",
            TypeFault::ModelMix(_) => "ModelMix",
            TypeFault::QueryCycle(_) => "QueryCycle",
            TypeFault::DuplicateName(_) => "DuplicateName",
            TypeFault::Unbound(_) => "Unbound",
            TypeFault::WhenCycle(_) => "WhenCycle",
            TypeFault::CallShape(_) => "CallShape",
            TypeFault::KeyShape(_) => "KeyShape",
            TypeFault::UnknownModel(_) => "UnknownModel",
        }
    }
}

/// Why a script, or an expression, has no types.
#[derive(Debug, Drop, Error)]
pub enum TypeError {
    #[error("the script has a fault of types")]
    Fault(TypeFault),
    #[error("no memory")]
    NoMemory,
}

impl From<NoMemory> for TypeError {
    ghost use Rattle.ocl_environments.specs.declared.fault.TypeError.TheVariants as errors;

    ghost from_gives = { λ _ e. e ≡ errors.NoMemory };

    fn from(_error: NoMemory) -> TypeError {
        TypeError::NoMemory
    }
}
