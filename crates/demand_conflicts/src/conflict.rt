ghost use Rattle.std.specs.Prelude.{◌≡◌, ◌<◌, List, length, All, Some, IfOk, MatchOption, slice_get};
ghost use Rattle.repair_semantics.specs.declared.term.Term.{Term};
ghost use Rattle.repair_semantics.specs.Conflicts.{AreAtPeace};
ghost use Rattle.term_table.specs.TermTables.{AreDistinct};
ghost use Rattle.demand_conflicts.specs.declared.demand.NumberedDemand.{NumberedDemand};
ghost use Rattle.demand_conflicts.specs.NumberedClaims.{spot_by};
ghost use Rattle.demand_conflicts.specs.NumberedDemands.{demands_in, IsDemandWithin, IsDemandOf, IsFound};
ghost use Rattle.demand_conflicts.specs.NumberedConflicts.{AreAgreed, IsNumberedPlace, IsNumberedConflict};

use crate::claims::NumberedSpot;
use crate::demand::NumberedDemand;
use crate::told::{Opposed, Told};
use mof_metamodel::{MetaModel, NoMemory, PropId};
use std::alloc::Global;

/// Two demands of a list in conflict, by their places in it, the earlier one first, and the place that gets two values: of a container
/// the object that would have two, with the property of the first demand.
#[derive(Clone, Copy)]
pub struct FoundConflict {
    pub first: usize,
    pub second: usize,
    /// By its number in the table of terms.
    pub owner: usize,
    pub prop: PropId,
}

/// A conflict between two demands of a list, if there is one. Their numbers are those of a table in which no two terms are equal.
pub fn conflict_among(
    alloc: Global,
    meta: &MetaModel,
    demands: &[NumberedDemand],
) -> Result<Option<FoundConflict>, NoMemory>
    requires { All (IsDemandOf meta.now) demands.now }
    ensures { IfOk result (λ found. (terms : List Term) → AreDistinct terms → All (IsDemandWithin terms) demands.now → MatchOption found (AreAtPeace meta.now (demands_in terms demands.now)) (IsFound meta.now terms demands.now)) }
{
    numbered_conflict(alloc, meta, demands)
}

/// The same, told by numbers.
fn numbered_conflict(
    alloc: Global,
    meta: &MetaModel,
    demands: &[NumberedDemand],
) -> Result<Option<FoundConflict>, NoMemory>
    requires { All (IsDemandOf meta.now) demands.now }
    ensures { IfOk result (λ found. MatchOption found (AreAgreed meta.now demands.now) (IsNumberedConflict meta.now demands.now)) }
{
    let _ = meta.class_count(); // says that no fault stands in the metamodel
    let mut told = Told::new(alloc);
    for (place, demand) in demands.iter().enumerate() {
        if let Some(opposed) = told.hear_demand(alloc, meta, demand, place)? {
            return Ok(Some(found_at(demands, place, opposed)));
        }
    }
    Ok(None)
}

/// The conflict of the demand at a place with an earlier one.
fn found_at(demands: &[NumberedDemand], second: usize, opposed: Opposed) -> FoundConflict
    requires { opposed.first < length demands.now }
    ensures first { result.first ≡ opposed.first }
    ensures second { result.second ≡ second }
    ensures place { (d : NumberedDemand) → slice_get demands.now opposed.first ≡ Some d → IsNumberedPlace (spot_by opposed.spot) d result }
{
    let first = opposed.first;
    match opposed.spot {
        NumberedSpot::Slot(owner, prop) => FoundConflict {
            first,
            second,
            owner,
            prop: PropId(prop),
        },
        NumberedSpot::Container(owner) => FoundConflict {
            first,
            second,
            owner,
            prop: demands[first].prop,
        },
    }
}
