//! The names of entries, which calls in when clauses look for.
ghost use Rattle.std.specs.Prelude.{◌≡◌, IfOk, OnOk};
ghost use Rattle.entry_bindings.specs.Starts.{number_of};
ghost use Rattle.entry_tops.specs.EntryNames.{value_by_number, roots_by_number, match_of, HasMore, HasNamesOf};

use entry_bindings::{Match, MatchTable};
use entry_finding::NumberedEntry;
use mof_metamodel::{NoMemory, Seq};
use qv_syntax::Dom;
use std::alloc::Global;
use term_table::{NumberedValue, duplicate_numbered};

/// Another of the same value, if there is one.
fn duplicate_place(
    alloc: Global,
    value: &Option<NumberedValue>,
) -> Result<Option<NumberedValue>, NoMemory>
    ensures { IfOk result (λ copy. copy ≡ value.now) }
{
    match value {
        Some(value) => Ok(Some(duplicate_numbered(alloc, value)?)),
        None => Ok(None),
    }
}

/// Another of the value at a place, if there is one.
fn value_at(
    alloc: Global,
    values: &[Option<NumberedValue>],
    place: usize,
) -> Result<Option<NumberedValue>, NoMemory>
    ensures { IfOk result (λ v. v ≡ number_of values.now place) }
{
    match values.get(place) {
        Some(value) => duplicate_place(alloc, value),
        None => Ok(None),
    }
}

/// The value of a variable in an entry.
fn value_by_number(
    alloc: Global,
    e: &NumberedEntry,
    variable: usize,
) -> Result<Option<NumberedValue>, NoMemory>
    ensures { IfOk result (λ v. v ≡ value_by_number e.now variable) }
{
    match value_at(alloc, e.values.as_slice(), variable)? {
        Some(value) => Ok(Some(value)),
        None => value_at(alloc, e.made.as_slice(), variable),
    }
}

/// The values of the roots of these domains, if each has one.
fn roots_by_number(
    alloc: Global,
    domains: &[Dom],
    e: &NumberedEntry,
) -> Result<Option<Seq<NumberedValue>>, NoMemory>
    ensures { IfOk result (λ roots. roots ≡ roots_by_number domains.now e.now) }
{
    let mut roots = Seq::new(alloc);
    for dom in domains {
        match value_by_number(alloc, e, dom.root as usize)? {
            Some(value) => roots.push(value)?,
            None => return Ok(None),
        }
    }
    Ok(Some(roots))
}

/// The name of an entry whose relation has these domains, if each root has a value.
fn match_of(alloc: Global, domains: &[Dom], e: &NumberedEntry) -> Result<Option<Match>, NoMemory>
    ensures { IfOk result (λ m. m ≡ match_of domains.now e.now) }
{
    match roots_by_number(alloc, domains, e)? {
        Some(roots) => Ok(Some(Match { rel: e.rel, roots })),
        None => Ok(None),
    }
}

/// With one more match, if there is one.
fn add_one(matches: &mut MatchTable, more: Option<Match>) -> Result<(), NoMemory>
    ensures { OnOk result (HasMore matches.old more matches.new) }
{
    match more {
        Some(found) => matches.add(found),
        None => Ok(()),
    }
}

/// With the names of these entries of a relation with these domains.
pub(crate) fn add_names(
    alloc: Global,
    domains: &[Dom],
    entries: &[NumberedEntry],
    matches: &mut MatchTable,
) -> Result<(), NoMemory>
    ensures { OnOk result (HasNamesOf domains.now entries.now matches.old matches.new) }
{
    for e in entries {
        let more = match_of(alloc, domains, e)?;
        add_one(matches, more)?;
    }
    Ok(())
}
