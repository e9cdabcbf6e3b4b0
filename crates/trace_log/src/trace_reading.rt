//! A text as a trace.
ghost use Rattle.std.specs.Prelude.{◌≡◌, Some, IfOk, IfErr};
ghost use Rattle.serde_json.specs.View.{view, members_view};
ghost use Rattle.trace_log.specs.Readings.{Gives, GivesBefore, member_by};
ghost use Rattle.trace_log.specs.TraceEntries.{version_of, trace_of};
ghost use Rattle.trace_log.specs.TraceTexts.{value_in, IsUnread, SpellsTrace, IsWhy};

use crate::trace::{Trace, TraceError};
use crate::trace_entries::take_entries;
use crate::trace_members::{Members, amiss_here, at, members_of, no_more, take_member, take_text};
use mof_metamodel::or_drop;
use serde_json::Value;
use std::alloc::Global;

/// The number 1.
fn version_of(alloc: Global, value: &Value) -> Result<(), TraceError>
    ensures { Gives result (version_of (view value.now)) }
{
    match value.as_u64() {
        Some(1) => Ok(()),
        _ => amiss_here(alloc),
    }
}

/// The number 1 that is the member of this name.
fn take_version(alloc: Global, name: &str, members: &mut Members<'_>) -> Result<(), TraceError>
    ensures { GivesBefore members.new result (member_by version_of name.now (members_view members.old)) }
{
    let number = take_member(alloc, name, members)?;
    at(alloc, name, version_of(alloc, number))
}

/// A trace.
fn trace_of(alloc: Global, value: &Value) -> Result<Trace, TraceError>
    ensures { Gives result (trace_of (view value.now)) }
{
    let mut members = members_of(alloc, value)?;
    let entries = take_entries(alloc, "entries", &mut members)?;
    let target = or_drop!(take_text(alloc, "target", &mut members); entries);
    let transformation =
        or_drop!(take_text(alloc, "transformation", &mut members); entries, target);
    or_drop!(take_version(alloc, "version", &mut members); entries, target, transformation);
    or_drop!(no_more(alloc, &mut members); entries, target, transformation);
    Ok(Trace {
        transformation,
        target,
        entries,
    })
}

/// The value of JSON that bytes are.
fn value_in(alloc: Global, bytes: &[u8]) -> Result<Value, TraceError>
    ensures ok { IfOk result (λ v. value_in bytes.now ≡ Some (view v)) }
    ensures err { IfErr result (IsUnread bytes.now) }
{
    match Value::from_slice(alloc, bytes) {
        Ok(value) => Ok(value),
        Err(error) => {
            if error.is_memory() {
                Err(TraceError::NoMemory)
            } else {
                Err(TraceError::Syntax)
            }
        }
    }
}

/// The trace that bytes are: one value of JSON (RFC 8259) that has the form of a trace.
///
/// # Errors
///
/// `Syntax` where the bytes are no value of JSON in UTF-8, also where a byte order mark stands in front, or where it nests more than 127
/// levels; `Shape` with the path of the first place that isn't of the form of a trace, which is empty for the whole value; `NoMemory`
/// where memory runs out.
pub fn read_trace(alloc: Global, bytes: &[u8]) -> Result<Trace, TraceError>
    ensures ok { IfOk result (SpellsTrace bytes.now) }
    ensures err { IfErr result (IsWhy bytes.now) }
{
    let value = value_in(alloc, bytes)?;
    let trace = or_drop!(trace_of(alloc, &value); value);
    drop(value);
    Ok(trace)
}
