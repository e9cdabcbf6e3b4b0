//! The values of a trace, read from JSON.
ghost use Rattle.std.specs.Prelude.{◌≡◌, List, [], Some, option_map};
ghost use Rattle.serde_json.specs.Data.{array};
ghost use Rattle.serde_json.specs.View.{view, items_view};
ghost use Rattle.trace_log.specs.Readings.{Reading, Gives, two_of};
ghost use Rattle.trace_log.specs.declared.trace.TracePair.{TracePair};
ghost use Rattle.trace_log.specs.declared.trace.TraceValue.{TraceValue};
ghost use Rattle.trace_log.specs.TraceValues.{kind_of, integer_of, source_of, source_in, plain_of, begins_text, are_pairs, named_by, term_by, value_of, term_of, keys_of, pair_of, pairs_of, bindings_of, place_of};

use crate::trace::{TraceError, TracePair, TraceTerm, TraceValue};
use crate::trace_members::{amiss_here, at, at_item, flag_of, sole_of, text_of, two_of};
use mof_metamodel::{Seq, Text, or_drop};
use serde_json::Value;
use std::alloc::Global;

/// What the content of a value is, by the name of its member.
#[derive(Clone, Copy)]
pub(crate) enum Kind {
    Str,
    Int,
    Bool,
    Lit,
    Obj,
    Term,
}

/// What the content of a value is.
fn kind_of(name: &str) -> Option<Kind>
    ensures { result ≡ kind_of name.now }
{
    match name {
        "s" => Some(Kind::Str),
        "i" => Some(Kind::Int),
        "b" => Some(Kind::Bool),
        "e" => Some(Kind::Lit),
        "o" => Some(Kind::Obj),
        "t" => Some(Kind::Term),
        _ => None,
    }
}

/// An integer of 64 bits.
fn integer_of(alloc: Global, number: Option<i64>) -> Result<TraceValue, TraceError>
    ensures { Gives result (integer_of number) }
{
    match number {
        Some(number) => Ok(TraceValue::Int(number)),
        None => amiss_here(alloc),
    }
}

/// An object of a source model, by two texts.
fn source_named(alloc: Global, model: &str, id: &str) -> Result<TraceValue, TraceError>
    ensures { Gives result (source_of (Some model.now) (Some id.now)) }
{
    let model = Text::new(alloc, model)?;
    let id = or_drop!(Text::new(alloc, id); model);
    Ok(TraceValue::Obj(model, id))
}

/// The same, if there are two texts.
fn source_of(alloc: Global, model: Option<&str>, id: Option<&str>) -> Result<TraceValue, TraceError>
    ensures { Gives result (source_of (option_map (λ s. s.now) model.entry) (option_map (λ s. s.now) id.entry)) }
{
    let Some(model) = model else {
        return amiss_here(alloc);
    };
    match id {
        Some(id) => source_named(alloc, model, id),
        None => amiss_here(alloc),
    }
}

/// An object of a source model.
fn source_in(alloc: Global, content: &Value) -> Result<TraceValue, TraceError>
    ensures { Gives result (source_in (two_of (view content.now))) }
{
    match two_of(content) {
        Some((model, id)) => source_of(alloc, model.as_str(), id.as_str()),
        None => amiss_here(alloc),
    }
}

/// A value that is no term, by its content.
fn plain_of(alloc: Global, kind: Option<Kind>, content: &Value) -> Result<TraceValue, TraceError>
    ensures { Gives result (plain_of kind (view content.now)) }
{
    match kind {
        Some(Kind::Str) => Ok(TraceValue::Str(text_of(alloc, content)?)),
        Some(Kind::Int) => integer_of(alloc, content.as_i64()),
        Some(Kind::Bool) => Ok(TraceValue::Bool(flag_of(alloc, content)?)),
        Some(Kind::Lit) => Ok(TraceValue::Lit(text_of(alloc, content)?)),
        Some(Kind::Obj) => source_in(alloc, content),
        Some(Kind::Term) => amiss_here(alloc),
        None => amiss_here(alloc),
    }
}

/// Whether a value is a list of a text and something else.
fn is_pair(value: &Value) -> bool
    ensures { result ≡ begins_text (two_of (view value.now)) }
{
    match two_of(value) {
        Some((name, _)) => name.is_string(),
        None => false,
    }
}

/// Whether each value is such a list.
fn are_pairs(values: &[Value]) -> bool
    ensures { result ≡ are_pairs (items_view values.now) }
{
    for number in 0..values.len() {
        if !is_pair(&values[number]) {
            return false;
        }
    }
    true
}

/// A value.
#[cycle(value)]
pub(crate) fn value_of(alloc: Global, value: &Value) -> Result<TraceValue, TraceError>
    ensures { Gives result (value_of (view value.now)) }
{
    let Some((name, content)) = sole_of(value) else {
        return amiss_here(alloc);
    };
    match kind_of(name) {
        Some(Kind::Term) => Ok(TraceValue::Term(term_of(alloc, content)?)),
        kind => plain_of(alloc, kind, content),
    }
}

/// A term of this class, if its pairs could be read.
fn keyed(
    alloc: Global,
    class: &str,
    keys: Result<Seq<TracePair>, TraceError>,
) -> Result<TraceTerm, TraceError>
    ensures { (meaning : Reading (List TracePair)) → Gives keys meaning → Gives result (term_by (Some class.now) meaning) }
{
    match keys {
        Ok(keys) => {
            let class = or_drop!(Text::new(alloc, class); keys);
            Ok(TraceTerm { class, keys })
        }
        Err(error) => Err(error),
    }
}

/// A pair of this name, if its value could be read.
fn named(name: Text, value: Result<TraceValue, TraceError>) -> Result<TracePair, TraceError>
    ensures { (meaning : Reading TraceValue) → Gives value meaning → Gives result (named_by name meaning) }
{
    match value {
        Ok(value) => Ok(TracePair { name, value }),
        Err(error) => {
            drop(name);
            Err(error)
        }
    }
}

/// A term, by its content.
#[cycle(value)]
fn term_of(alloc: Global, content: &Value) -> Result<TraceTerm, TraceError>
    ensures { Gives result (term_of (view content.now)) }
{
    let Some((class, keys)) = two_of(content) else {
        return amiss_here(alloc);
    };
    let Some(name) = class.as_str() else {
        return amiss_here(alloc);
    };
    keyed(alloc, name, keys_of(alloc, keys))
}

/// The pairs of a term, if the list has the form.
#[cycle(value)]
fn keys_of(alloc: Global, keys: &Value) -> Result<Seq<TracePair>, TraceError>
    ensures { Gives result (keys_of (view keys.now)) }
{
    match keys {
        Value::Array(values) => keys_in(alloc, values.as_slice()),
        _ => amiss_here(alloc),
    }
}

/// The same, of the items of the list.
#[cycle(value)]
fn keys_in(alloc: Global, values: &[Value]) -> Result<Seq<TracePair>, TraceError>
    ensures { Gives result (keys_of (array (items_view values.now))) }
{
    if are_pairs(values) {
        at(alloc, "t", at_item(alloc, 1, pairs_of(alloc, values)))
    } else {
        amiss_here(alloc)
    }
}

/// A pair of a name and a value.
#[cycle(value)]
fn pair_of(alloc: Global, pair: &Value) -> Result<TracePair, TraceError>
    ensures { Gives result (pair_of (view pair.now)) }
{
    let Some((first, second)) = two_of(pair) else {
        return amiss_here(alloc);
    };
    let name = at_item(alloc, 0, text_of(alloc, first))?;
    named(name, at_item(alloc, 1, value_of(alloc, second)))
}

/// Pairs of names and values.
#[cycle(value)]
fn pairs_of(alloc: Global, values: &[Value]) -> Result<Seq<TracePair>, TraceError>
    ensures { Gives result (pairs_of [] 0 (items_view values.now)) }
{
    let mut pairs = Seq::new(alloc);
    for number in 0..values.len() {
        let pair = or_drop!(at_item(alloc, number, pair_of(alloc, &values[number])); pairs);
        or_drop!(pairs.push(pair); pairs);
    }
    Ok(pairs)
}

/// A list of pairs.
pub(crate) fn bindings_of(alloc: Global, value: &Value) -> Result<Seq<TracePair>, TraceError>
    ensures { Gives result (bindings_of (view value.now)) }
{
    match value {
        Value::Array(values) => pairs_of(alloc, values.as_slice()),
        _ => amiss_here(alloc),
    }
}

/// A value that is a term.
pub(crate) fn place_of(alloc: Global, value: &Value) -> Result<TraceTerm, TraceError>
    ensures { Gives result (place_of (view value.now)) }
{
    let Some((name, content)) = sole_of(value) else {
        return amiss_here(alloc);
    };
    match kind_of(name) {
        Some(Kind::Term) => term_of(alloc, content),
        _ => amiss_here(alloc),
    }
}
