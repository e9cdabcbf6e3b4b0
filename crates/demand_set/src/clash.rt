ghost use Rattle.std.specs.Prelude.{◌≡◌, ◌<◌, map, length, Some, All, IfOk, slice_get};
ghost use Rattle.mof_metamodel.specs.declared.desc.MetaDesc.{MetaDesc};
ghost use Rattle.repair_semantics.specs.Conflicts.{IsClash};
ghost use Rattle.term_table.specs.TermTables.{value_in};
ghost use Rattle.demand_conflicts.specs.declared.demand.NumberedDemand.{NumberedDemand};
ghost use Rattle.demand_conflicts.specs.NumberedDemands.{demands_in, IsDemandWithin, IsFound};
ghost use Rattle.demand_set.specs.Listings.{listed_in, IsListedWithin};

use crate::listing::ListedEntry;
use crate::trees::entry_tree;
use demand_conflicts::{FoundConflict, NumberedDemand};
use mof_metamodel::{NoMemory, PropId};
use repair_semantics::{Clash, Entry, TermValue};
use std::alloc::Global;
use term_table::TermTable;

/// One of two demands in conflict, with its entry.
#[derive(Drop)]
struct Side {
    entry: Entry,
    item: PropId,
    value: TermValue,
}

/// A demand with its entry.
fn side_of(
    alloc: Global,
    table: &TermTable,
    entries: &[ListedEntry],
    demand: &NumberedDemand,
) -> Result<Side, NoMemory>
    requires placed { demand.now.entry < length entries.now }
    requires entries { All (IsListedWithin table.now) entries.now }
    requires within { IsDemandWithin table.now demand.now }
    ensures entry { IfOk result (λ s. slice_get (map (listed_in table.now) entries.now) demand.now.entry ≡ Some s.entry) }
    ensures item { IfOk result (λ s. s.item ≡ demand.now.prop) }
    ensures value { IfOk result (λ s. s.value ≡ value_in table.now demand.now.value) }
{
    let entry = entry_tree(alloc, table, &entries[demand.entry])?;
    let value = table.value(alloc, &demand.value)?;
    Ok(Side {
        entry,
        item: demand.prop,
        value,
    })
}

/// A conflict that was found, with trees for numbers.
pub(crate) fn clash_of(
    alloc: Global,
    table: &TermTable,
    entries: &[ListedEntry],
    demands: &[NumberedDemand],
    found: FoundConflict,
) -> Result<Clash, NoMemory>
    requires entries { All (IsListedWithin table.now) entries.now }
    requires within { All (IsDemandWithin table.now) demands.now }
    requires placed { All (λ (d : NumberedDemand). d.entry < length entries.now) demands.now }
    requires first { found.first < length demands.now }
    requires second { found.second < length demands.now }
    requires owner { found.owner < length table.now }
    ensures { IfOk result (λ clash. (meta : MetaDesc) → IsFound meta table.now demands.now found → IsClash meta (map (listed_in table.now) entries.now) (demands_in table.now demands.now) clash) }
{
    let first = side_of(alloc, table, entries, &demands[found.first])?;
    let second = side_of(alloc, table, entries, &demands[found.second])?;
    let owner = table.term(alloc, found.owner)?;
    let Side {
        entry: first_entry,
        item: first_item,
        value: first_value,
    } = first;
    let Side {
        entry: second_entry,
        item: second_item,
        value: second_value,
    } = second;
    Ok(Clash {
        owner,
        prop: found.prop,
        first: first_entry,
        first_item,
        first_value,
        second: second_entry,
        second_item,
        second_value,
    })
}
