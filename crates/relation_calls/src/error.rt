ghost use Rattle.std.specs.Prelude.{◌≡◌};

use crate::name::CallName;
use mof_metamodel::{NoMemory as OutOfMemory, Seq};

/// Why a call has no answer. A chain is a list of calls in where clauses, each made by the one before it.
#[derive(Drop)]
pub enum CallError {
    /// The last call is one of the earlier ones, which are distinct.
    Cycle(Seq<CallName>),
    /// A chain without a repeat has one call more than `MAX_CALLS`.
    Deep(Seq<CallName>),
    NoMemory,
}

impl From<OutOfMemory> for CallError {
    ghost use Rattle.relation_calls.specs.declared.error.CallError.TheVariants.{NoMemory};

    ghost from_gives = { λ _ e. e ≡ NoMemory };

    fn from(_error: OutOfMemory) -> CallError {
        CallError::NoMemory
    }
}
