ghost use Rattle.std.specs.Prelude.{◌≡◌};

use mof_metamodel::{NoMemory as OutOfMemory, Seq};
use repair_semantics::{Clash, Entry, EntryName, Place};

/// Why there are no demands that a target could meet.
#[derive(Drop)]
pub enum DemandError {
    /// A chain of calls in where clauses between entries that comes back to one of its calls.
    Cycle(Seq<EntryName>),
    /// A chain with one call more than it may have.
    Deep(Seq<EntryName>),
    /// An entry that can't be fulfilled, and the first place where.
    Unmet { entry: Entry, place: Place },
    /// Two demands that no model meets.
    Conflict(Clash),
    NoMemory,
}

impl From<OutOfMemory> for DemandError {
    ghost use Rattle.demand_set.specs.declared.demand_error.DemandError.TheVariants.{NoMemory};

    ghost from_gives = { λ _ e. e ≡ NoMemory };

    fn from(_error: OutOfMemory) -> DemandError {
        DemandError::NoMemory
    }
}
