//! The text of a trace.
ghost use Rattle.std.specs.Prelude.{◌≡◌, ◌∷◌, ◌++◌, [], All, map, codes, OnOk, IfOk};
ghost use Rattle.std.specs.List.{flat_map};
ghost use Rattle.json.specs.Token.{key, boolean};
ghost use Rattle.trace_log.specs.TraceData.{text_data, list_data, pair_data, demand_data, entry_data, trace_data, text_of_trace};
ghost use Rattle.trace_log.specs.TraceHeights.{IsLow};
ghost use Rattle.trace_log.specs.TraceHeld.{IsText, AreHeldPairs, IsHeldDemand, IsHeldEntry, IsHeld};
ghost use Rattle.trace_log.specs.TraceTexts.{SpellsTrace};
ghost use Rattle.trace_log.specs.TraceTokens.{Appends, data_tokens};

use crate::trace::{Trace, TraceDemand, TraceEntry, TracePair};
use crate::trace_pairs::{write_bindings, write_place, write_text, write_value};
use json::Writer;
use mof_metamodel::{NoMemory, Seq, Text};
use std::alloc::Global;

/// The text that is the member of this name.
fn put_text(writer: &mut Writer, name: &str, text: &Text) -> Result<(), NoMemory>
    ensures tokens { Appends result writer.old writer.new (key name.now ∷ data_tokens (text_data text.now)) }
    ensures held { OnOk result (IsText text.now) }
{
    writer.key(name)?;
    write_text(writer, text)
}

/// The Boolean that is the member of this name.
fn put_flag(writer: &mut Writer, name: &str, flag: bool) -> Result<(), NoMemory>
    ensures { Appends result writer.old writer.new (key name.now ∷ boolean flag ∷ []) }
{
    writer.key(name)?;
    writer.boolean(flag)?;
    Ok(())
}

/// The list of pairs that is the member of this name.
fn put_bindings(
    alloc: Global,
    writer: &mut Writer,
    name: &str,
    pairs: &[TracePair],
) -> Result<(), NoMemory>
    ensures tokens { Appends result writer.old writer.new (key name.now ∷ data_tokens (list_data (map pair_data pairs.now))) }
    ensures held { OnOk result (AreHeldPairs pairs.now) }
{
    writer.key(name)?;
    write_bindings(alloc, writer, pairs)
}

/// A demand.
fn write_demand(alloc: Global, writer: &mut Writer, demand: &TraceDemand) -> Result<(), NoMemory>
    ensures tokens { Appends result writer.old writer.new (data_tokens (demand_data demand.now)) }
    ensures held { OnOk result (IsHeldDemand demand.now) }
{
    writer.begin_object()?;
    put_text(writer, "item", &demand.item)?;
    writer.key("place")?;
    write_place(alloc, writer, &demand.place)?;
    writer.key("value")?;
    write_value(alloc, writer, &demand.value)?;
    writer.end_object()?;
    Ok(())
}

/// Demands, one behind the other.
fn write_demands(
    alloc: Global,
    writer: &mut Writer,
    demands: &[TraceDemand],
) -> Result<(), NoMemory>
    ensures tokens { Appends result writer.old writer.new (flat_map (λ x. data_tokens (demand_data x)) demands.now) }
    ensures held { OnOk result (All IsHeldDemand demands.now) }
{
    for demand in demands {
        write_demand(alloc, writer, demand)?;
    }
    Ok(())
}

/// The list of demands that is the member of this name.
fn put_demands(
    alloc: Global,
    writer: &mut Writer,
    name: &str,
    demands: &[TraceDemand],
) -> Result<(), NoMemory>
    ensures tokens { Appends result writer.old writer.new (key name.now ∷ data_tokens (list_data (map demand_data demands.now))) }
    ensures held { OnOk result (All IsHeldDemand demands.now) }
{
    writer.key(name)?;
    writer.begin_array()?;
    write_demands(alloc, writer, demands)?;
    writer.end_array()?;
    Ok(())
}

/// An entry.
fn write_entry(alloc: Global, writer: &mut Writer, entry: &TraceEntry) -> Result<(), NoMemory>
    ensures tokens { Appends result writer.old writer.new (data_tokens (entry_data entry.now)) }
    ensures held { OnOk result (IsHeldEntry entry.now) }
{
    writer.begin_object()?;
    put_flag(writer, "called", entry.called)?;
    put_demands(alloc, writer, "demands", entry.demands.as_slice())?;
    put_bindings(alloc, writer, "made", entry.made.as_slice())?;
    put_text(writer, "relation", &entry.relation)?;
    put_bindings(alloc, writer, "values", entry.values.as_slice())?;
    writer.end_object()?;
    Ok(())
}

/// Entries, one behind the other.
fn write_entries(alloc: Global, writer: &mut Writer, entries: &[TraceEntry]) -> Result<(), NoMemory>
    ensures tokens { Appends result writer.old writer.new (flat_map (λ x. data_tokens (entry_data x)) entries.now) }
    ensures held { OnOk result (All IsHeldEntry entries.now) }
{
    for entry in entries {
        write_entry(alloc, writer, entry)?;
    }
    Ok(())
}

/// The list of entries that is the member of this name.
fn put_entries(
    alloc: Global,
    writer: &mut Writer,
    name: &str,
    entries: &[TraceEntry],
) -> Result<(), NoMemory>
    ensures tokens { Appends result writer.old writer.new (key name.now ∷ data_tokens (list_data (map entry_data entries.now))) }
    ensures held { OnOk result (All IsHeldEntry entries.now) }
{
    writer.key(name)?;
    writer.begin_array()?;
    write_entries(alloc, writer, entries)?;
    writer.end_array()?;
    Ok(())
}

/// A trace.
fn write_trace(alloc: Global, writer: &mut Writer, trace: &Trace) -> Result<(), NoMemory>
    ensures tokens { Appends result writer.old writer.new (data_tokens (trace_data trace.now)) }
    ensures held { OnOk result (IsHeld trace.now) }
{
    writer.begin_object()?;
    put_entries(alloc, writer, "entries", trace.entries.as_slice())?;
    put_text(writer, "target", &trace.target)?;
    put_text(writer, "transformation", &trace.transformation)?;
    writer.key("version")?;
    writer.u64(1)?;
    writer.end_object()?;
    Ok(())
}

/// The text of a trace: one line of compact JSON, with the members of each object in the order of their names, and a line feed.
/// `read_trace` gives the same trace for it where no term is higher than `MAX_HEIGHT`. Terms of any height are written; their height
/// costs no stack.
///
/// # Errors
///
/// `NoMemory` where memory runs out.
pub fn trace_text(alloc: Global, trace: &Trace) -> Result<Seq<u8>, NoMemory>
    ensures text { IfOk result (λ bytes. bytes ≡ text_of_trace trace.now) }
    ensures held { OnOk result (IsHeld trace.now) }
    ensures reads { IfOk result (λ bytes. IsLow trace.now → SpellsTrace bytes trace.now) }
{
    let mut writer = Writer::new(Vec::new(alloc));
    write_trace(alloc, &mut writer, trace)?;
    let mut bytes = Seq::from_vec(writer.into_inner());
    bytes.push(b'\n')?;
    Ok(bytes)
}
