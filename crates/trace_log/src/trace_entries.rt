//! The entries of a trace, read from JSON.
ghost use Rattle.std.specs.Prelude.{◌≡◌, []};
ghost use Rattle.serde_json.specs.View.{view, items_view, members_view};
ghost use Rattle.trace_log.specs.Readings.{Gives, GivesBefore, items_by, list_by, member_by};
ghost use Rattle.trace_log.specs.TraceValues.{value_of, bindings_of, place_of};
ghost use Rattle.trace_log.specs.TraceEntries.{demand_of, entry_of};

use crate::trace::{TraceDemand, TraceEntry, TraceError, TracePair, TraceTerm, TraceValue};
use crate::trace_members::{
    Members, amiss_here, at, at_item, members_of, no_more, take_flag, take_member, take_text,
};
use crate::trace_values::{bindings_of, place_of, value_of};
use mof_metamodel::{Seq, or_drop};
use serde_json::Value;
use std::alloc::Global;

/// The value that is the member of this name.
fn take_value(
    alloc: Global,
    name: &str,
    members: &mut Members<'_>,
) -> Result<TraceValue, TraceError>
    ensures { GivesBefore members.new result (member_by value_of name.now (members_view members.old)) }
{
    let value = take_member(alloc, name, members)?;
    at(alloc, name, value_of(alloc, value))
}

/// The term that is the member of this name.
fn take_place(alloc: Global, name: &str, members: &mut Members<'_>) -> Result<TraceTerm, TraceError>
    ensures { GivesBefore members.new result (member_by place_of name.now (members_view members.old)) }
{
    let value = take_member(alloc, name, members)?;
    at(alloc, name, place_of(alloc, value))
}

/// The list of pairs that is the member of this name.
fn take_bindings(
    alloc: Global,
    name: &str,
    members: &mut Members<'_>,
) -> Result<Seq<TracePair>, TraceError>
    ensures { GivesBefore members.new result (member_by bindings_of name.now (members_view members.old)) }
{
    let value = take_member(alloc, name, members)?;
    at(alloc, name, bindings_of(alloc, value))
}

/// A demand.
fn demand_of(alloc: Global, value: &Value) -> Result<TraceDemand, TraceError>
    ensures { Gives result (demand_of (view value.now)) }
{
    let mut members = members_of(alloc, value)?;
    let item = take_text(alloc, "item", &mut members)?;
    let place = or_drop!(take_place(alloc, "place", &mut members); item);
    let value = or_drop!(take_value(alloc, "value", &mut members); item, place);
    or_drop!(no_more(alloc, &mut members); item, place, value);
    Ok(TraceDemand { item, place, value })
}

/// Demands.
fn demands_in(alloc: Global, values: &[Value]) -> Result<Seq<TraceDemand>, TraceError>
    ensures { Gives result (items_by demand_of [] 0 (items_view values.now)) }
{
    let mut demands = Seq::new(alloc);
    for number in 0..values.len() {
        let demand = or_drop!(at_item(alloc, number, demand_of(alloc, &values[number])); demands);
        or_drop!(demands.push(demand); demands);
    }
    Ok(demands)
}

/// A list of demands.
fn demands_of(alloc: Global, value: &Value) -> Result<Seq<TraceDemand>, TraceError>
    ensures { Gives result (list_by demand_of (view value.now)) }
{
    match value {
        Value::Array(values) => demands_in(alloc, values.as_slice()),
        _ => amiss_here(alloc),
    }
}

/// The list of demands that is the member of this name.
fn take_demands(
    alloc: Global,
    name: &str,
    members: &mut Members<'_>,
) -> Result<Seq<TraceDemand>, TraceError>
    ensures { GivesBefore members.new result (member_by (list_by demand_of) name.now (members_view members.old)) }
{
    let value = take_member(alloc, name, members)?;
    at(alloc, name, demands_of(alloc, value))
}

/// An entry.
fn entry_of(alloc: Global, value: &Value) -> Result<TraceEntry, TraceError>
    ensures { Gives result (entry_of (view value.now)) }
{
    let mut members = members_of(alloc, value)?;
    let called = take_flag(alloc, "called", &mut members)?;
    let demands = take_demands(alloc, "demands", &mut members)?;
    let made = or_drop!(take_bindings(alloc, "made", &mut members); demands);
    let relation = or_drop!(take_text(alloc, "relation", &mut members); demands, made);
    let values = or_drop!(take_bindings(alloc, "values", &mut members); demands, made, relation);
    or_drop!(no_more(alloc, &mut members); demands, made, relation, values);
    Ok(TraceEntry {
        relation,
        called,
        values,
        made,
        demands,
    })
}

/// Entries.
fn entries_in(alloc: Global, values: &[Value]) -> Result<Seq<TraceEntry>, TraceError>
    ensures { Gives result (items_by entry_of [] 0 (items_view values.now)) }
{
    let mut entries = Seq::new(alloc);
    for number in 0..values.len() {
        let entry = or_drop!(at_item(alloc, number, entry_of(alloc, &values[number])); entries);
        or_drop!(entries.push(entry); entries);
    }
    Ok(entries)
}

/// A list of entries.
fn entries_of(alloc: Global, value: &Value) -> Result<Seq<TraceEntry>, TraceError>
    ensures { Gives result (list_by entry_of (view value.now)) }
{
    match value {
        Value::Array(values) => entries_in(alloc, values.as_slice()),
        _ => amiss_here(alloc),
    }
}

/// The list of entries that is the member of this name.
pub(crate) fn take_entries(
    alloc: Global,
    name: &str,
    members: &mut Members<'_>,
) -> Result<Seq<TraceEntry>, TraceError>
    ensures { GivesBefore members.new result (member_by (list_by entry_of) name.now (members_view members.old)) }
{
    let value = take_member(alloc, name, members)?;
    at(alloc, name, entries_of(alloc, value))
}
