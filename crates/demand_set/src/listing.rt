ghost use Rattle.std.specs.Prelude.{◌≡◌, ◌++◌, ◌∷◌, [], map, length, IfOk, OnOk};
ghost use Rattle.demand_set.specs.Listings.{listed_of, numbered_demand, listed_from};

use demand_conflicts::NumberedDemand;
use entry_finding::NumberedEntry;
use entry_making::ItemDemand;
use mof_metamodel::{NoMemory, Seq};
use std::alloc::Global;
use term_table::NumberedValue;

/// An entry by number, apart from its demands.
#[derive(Drop)]
pub(crate) struct ListedEntry {
    pub(crate) rel: u32,
    pub(crate) called: bool,
    pub(crate) values: Seq<Option<NumberedValue>>,
    pub(crate) made: Seq<Option<NumberedValue>>,
}

/// Entries, and the demands of all of them, each with the place of its entry.
#[derive(Drop)]
pub(crate) struct Listing {
    pub(crate) entries: Seq<ListedEntry>,
    pub(crate) demands: Seq<NumberedDemand>,
}

/// Puts the demands of the entry at a place behind the others.
fn list_demands(
    listed: &mut Seq<NumberedDemand>,
    entry: usize,
    demands: Seq<ItemDemand>,
) -> Result<(), NoMemory>
    ensures { OnOk result (listed.new ≡ listed.old ++ map (numbered_demand entry) demands) }
{
    for demand in demands.into_vec() {
        let ItemDemand { owner, prop, value } = demand;
        listed.push(NumberedDemand {
            entry,
            owner,
            prop,
            value,
        })?;
    }
    Ok(())
}

/// Puts an entry behind the others, and its demands behind theirs.
fn list_entry(
    entries: &mut Seq<ListedEntry>,
    demands: &mut Seq<NumberedDemand>,
    entry: NumberedEntry,
) -> Result<(), NoMemory>
    ensures entries { OnOk result (entries.new ≡ entries.old ++ listed_of entry ∷ []) }
    ensures demands { OnOk result (demands.new ≡ demands.old ++ map (numbered_demand (length entries.old)) entry.demands) }
{
    let place = entries.len();
    let NumberedEntry {
        rel,
        called,
        values,
        made,
        demands: items,
    } = entry;
    list_demands(demands, place, items)?;
    entries.push(ListedEntry {
        rel,
        called,
        values,
        made,
    })
}

/// The entries in their order, and their demands.
pub(crate) fn listing_of(alloc: Global, found: Seq<NumberedEntry>) -> Result<Listing, NoMemory>
    ensures entries { IfOk result (λ l. l.entries ≡ map listed_of found) }
    ensures demands { IfOk result (λ l. l.demands ≡ listed_from 0 found) }
{
    let mut entries = Seq::new(alloc);
    let mut demands = Seq::new(alloc);
    for entry in found.into_vec() {
        list_entry(&mut entries, &mut demands, entry)?;
    }
    Ok(Listing { entries, demands })
}
