ghost use Rattle.std.specs.Prelude.{◌≡◌, ◌<◌, map, length, All, IfOk};
ghost use Rattle.std.specs.Option.{option_map};
ghost use Rattle.term_table.specs.TermTables.{term_at, value_in, values_in, IsWithin};
ghost use Rattle.demand_conflicts.specs.NumberedDemands.{demand_in, demands_in, IsDemandWithin};
ghost use Rattle.entry_making.specs.Numbered.{IsValueWithin};
ghost use Rattle.entry_making.specs.CallNumbers.{call_of};
ghost use Rattle.entry_finding.specs.Found.{entry_in, IsEntryWithin, IsCallWithin};
ghost use Rattle.demand_set.specs.Listings.{listed_in, IsListedWithin};

use crate::listing::ListedEntry;
use demand_conflicts::NumberedDemand;
use entry_finding::NumberedEntry;
use entry_making::NumberedCall;
use mof_metamodel::{NoMemory, Seq};
use repair_semantics::{Demand, Entry, EntryName, Term, TermValue};
use std::alloc::Global;
use term_table::{NumberedValue, TermTable};

/// The value of a variable with its term as a tree, if there is one.
fn value_tree(
    alloc: Global,
    table: &TermTable,
    value: &Option<NumberedValue>,
) -> Result<Option<TermValue>, NoMemory>
    requires { IsValueWithin table.now value.now }
    ensures { IfOk result (λ tree. tree ≡ option_map (value_in table.now) value.now) }
{
    match value {
        None => Ok(None),
        Some(v) => Ok(Some(table.value(alloc, v)?)),
    }
}

/// The values of variables with their terms as trees.
fn values_trees(
    alloc: Global,
    table: &TermTable,
    values: &[Option<NumberedValue>],
) -> Result<Seq<Option<TermValue>>, NoMemory>
    requires { All (IsValueWithin table.now) values.now }
    ensures { IfOk result (λ trees. trees ≡ values_in table.now values.now) }
{
    let mut trees = Seq::new(alloc);
    for value in values {
        trees.push(value_tree(alloc, table, value)?)?;
    }
    Ok(trees)
}

/// The roots of a call with their terms as trees.
fn roots_trees(
    alloc: Global,
    table: &TermTable,
    roots: &[NumberedValue],
) -> Result<Seq<TermValue>, NoMemory>
    requires { All (IsWithin table.now) roots.now }
    ensures { IfOk result (λ trees. trees ≡ map (value_in table.now) roots.now) }
{
    let mut trees = Seq::new(alloc);
    for root in roots {
        trees.push(table.value(alloc, root)?)?;
    }
    Ok(trees)
}

/// A call with trees for numbers.
fn call_tree(alloc: Global, table: &TermTable, call: &NumberedCall) -> Result<EntryName, NoMemory>
    requires { IsCallWithin table.now call.now }
    ensures { IfOk result (λ name. name ≡ call_of table.now call.now) }
{
    let roots = roots_trees(alloc, table, call.roots.as_slice())?;
    Ok(EntryName {
        rel: call.rel,
        roots,
    })
}

/// A chain of calls with trees for numbers.
pub(crate) fn chain_trees(
    alloc: Global,
    table: &TermTable,
    chain: &[NumberedCall],
) -> Result<Seq<EntryName>, NoMemory>
    requires { All (IsCallWithin table.now) chain.now }
    ensures { IfOk result (λ names. names ≡ map (call_of table.now) chain.now) }
{
    let mut names = Seq::new(alloc);
    for call in chain {
        names.push(call_tree(alloc, table, call)?)?;
    }
    Ok(names)
}

/// An entry with trees for numbers.
pub(crate) fn found_tree(
    alloc: Global,
    table: &TermTable,
    entry: &NumberedEntry,
) -> Result<Entry, NoMemory>
    requires { IsEntryWithin table.now entry.now }
    ensures { IfOk result (λ tree. tree ≡ entry_in table.now entry.now) }
{
    let values = values_trees(alloc, table, entry.values.as_slice())?;
    let made = values_trees(alloc, table, entry.made.as_slice())?;
    Ok(Entry {
        rel: entry.rel,
        called: entry.called,
        values,
        made,
    })
}

/// The same of an entry that is listed.
pub(crate) fn entry_tree(
    alloc: Global,
    table: &TermTable,
    entry: &ListedEntry,
) -> Result<Entry, NoMemory>
    requires { IsListedWithin table.now entry.now }
    ensures { IfOk result (λ tree. tree ≡ listed_in table.now entry.now) }
{
    let values = values_trees(alloc, table, entry.values.as_slice())?;
    let made = values_trees(alloc, table, entry.made.as_slice())?;
    Ok(Entry {
        rel: entry.rel,
        called: entry.called,
        values,
        made,
    })
}

/// Entries with trees for numbers.
pub(crate) fn entries_trees(
    alloc: Global,
    table: &TermTable,
    entries: &[ListedEntry],
) -> Result<Seq<Entry>, NoMemory>
    requires { All (IsListedWithin table.now) entries.now }
    ensures { IfOk result (λ trees. trees ≡ map (listed_in table.now) entries.now) }
{
    let mut trees = Seq::new(alloc);
    for entry in entries {
        trees.push(entry_tree(alloc, table, entry)?)?;
    }
    Ok(trees)
}

/// A demand with trees for numbers.
fn demand_tree(
    alloc: Global,
    table: &TermTable,
    demand: &NumberedDemand,
) -> Result<Demand, NoMemory>
    requires { IsDemandWithin table.now demand.now }
    ensures { IfOk result (λ tree. tree ≡ demand_in table.now demand.now) }
{
    let owner = table.term(alloc, demand.owner)?;
    let value = table.value(alloc, &demand.value)?;
    Ok(Demand {
        entry: demand.entry,
        owner,
        prop: demand.prop,
        value,
    })
}

/// Demands with trees for numbers.
pub(crate) fn demands_trees(
    alloc: Global,
    table: &TermTable,
    demands: &[NumberedDemand],
) -> Result<Seq<Demand>, NoMemory>
    requires { All (IsDemandWithin table.now) demands.now }
    ensures { IfOk result (λ trees. trees ≡ demands_in table.now demands.now) }
{
    let mut trees = Seq::new(alloc);
    for demand in demands {
        trees.push(demand_tree(alloc, table, demand)?)?;
    }
    Ok(trees)
}

/// The terms with these numbers as trees.
pub(crate) fn terms_trees(
    alloc: Global,
    table: &TermTable,
    numbers: &[usize],
) -> Result<Seq<Term>, NoMemory>
    requires { All (λ n. n < length table.now) numbers.now }
    ensures { IfOk result (λ trees. trees ≡ map (term_at table.now) numbers.now) }
{
    let mut trees = Seq::new(alloc);
    for number in numbers {
        trees.push(table.term(alloc, *number)?)?;
    }
    Ok(trees)
}
