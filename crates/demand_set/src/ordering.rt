ghost use Rattle.std.specs.Prelude.{◌≡◌};
ghost use Rattle.std.specs.List.Sorted.{IsPermutation, IsSorted};
ghost use Rattle.repair_semantics.specs.EntryOrder.{entry_order};
ghost use Rattle.entry_finding.specs.Found.{entry_in};
ghost use Rattle.demand_set.specs.Orders.{numbered_order};

use entry_finding::NumberedEntry;
use mof_metamodel::Seq;
use std::cmp::Ordering;
use term_table::TermTable;

/// How two entries stand: by relation, then by their values; of equal ones the one that isn't called comes first.
fn entry_order(table: &TermTable, one: &NumberedEntry, other: &NumberedEntry) -> Ordering
    ensures { result ≡ entry_order (entry_in table.now one.now) (entry_in table.now other.now) }
{
    let values = table.values_order(one.values.as_slice(), other.values.as_slice());
    let called = one.called.cmp(&other.called);
    one.rel.cmp(&other.rel).then(values.then(called))
}

/// The entries in their order. It takes no memory.
pub(crate) fn in_order(table: &TermTable, entries: Seq<NumberedEntry>) -> Seq<NumberedEntry>
    ensures same { IsPermutation entries result }
    ensures sorted { IsSorted (numbered_order table.now) result }
{
    let mut entries = entries.into_vec();
    entries.sort_unstable_by(|one, other| entry_order(table, one, other));
    Seq::from_vec(entries)
}
