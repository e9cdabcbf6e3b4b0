//! The values of a trace, written as JSON.
ghost use Rattle.std.specs.Prelude.{◌≡◌, ◌∷◌, ◌++◌, ◌<◌, [], length, map, codes, OnOk, IfOk, encode_utf8_all};
ghost use Rattle.json.specs.Token.{begin_object, end_object, begin_array, end_array, key, string};
ghost use Rattle.serde_json.specs.Data.{boolean, number};
ghost use Rattle.serde_json.specs.Find.{of_integer};
ghost use Rattle.trace_log.specs.TraceForms.{one, two};
ghost use Rattle.trace_log.specs.TraceData.{text_data, list_data, value_data, pair_data, term_data};
ghost use Rattle.trace_log.specs.TraceHeld.{IsText, IsHeldValue, IsHeldPair, IsHeldTerm, AreHeldPairs};
ghost use Rattle.trace_log.specs.TraceTokens.{Appends, data_tokens, pairs_tokens, term_end, pair_end, keys_left, left_tokens, AreHeldKeys, AreAllHeld};

use crate::trace::{TracePair, TraceTerm, TraceValue};
use json::Writer;
use mof_metamodel::{NoMemory, Seq, Text};
use std::alloc::Global;

/// An object up to the value of its first member.
fn begin_member(writer: &mut Writer, name: &str) -> Result<(), NoMemory>
    ensures { Appends result writer.old writer.new (begin_object ∷ key name.now ∷ []) }
{
    writer.begin_object()?;
    writer.key(name)?;
    Ok(())
}

/// A text.
pub(crate) fn write_text(writer: &mut Writer, text: &Text) -> Result<(), NoMemory>
    ensures tokens { Appends result writer.old writer.new (data_tokens (text_data text.now)) }
    ensures held { OnOk result (IsText text.now) }
{
    writer.string(text.as_str())?;
    Ok(())
}

/// A text or a literal, by the name of its kind.
fn write_named(writer: &mut Writer, kind: &str, text: &Text) -> Result<(), NoMemory>
    ensures tokens { Appends result writer.old writer.new (data_tokens (one kind.now (text_data text.now))) }
    ensures held { OnOk result (IsText text.now) }
{
    begin_member(writer, kind)?;
    write_text(writer, text)?;
    writer.end_object()?;
    Ok(())
}

/// An integer.
fn write_integer(writer: &mut Writer, integer: i64) -> Result<(), NoMemory>
    ensures { Appends result writer.old writer.new (data_tokens (one (codes "i") (number (of_integer integer)))) }
{
    begin_member(writer, "i")?;
    writer.i64(integer)?;
    writer.end_object()?;
    Ok(())
}

/// A Boolean.
fn write_flag(writer: &mut Writer, flag: bool) -> Result<(), NoMemory>
    ensures { Appends result writer.old writer.new (data_tokens (one (codes "b") (boolean flag))) }
{
    begin_member(writer, "b")?;
    writer.boolean(flag)?;
    writer.end_object()?;
    Ok(())
}

/// The name of a model and the identifier of an object.
fn write_names(writer: &mut Writer, model: &Text, id: &Text) -> Result<(), NoMemory>
    ensures tokens { Appends result writer.old writer.new (data_tokens (two (text_data model.now) (text_data id.now))) }
    ensures model { OnOk result (IsText model.now) }
    ensures id { OnOk result (IsText id.now) }
{
    writer.begin_array()?;
    write_text(writer, model)?;
    write_text(writer, id)?;
    writer.end_array()?;
    Ok(())
}

/// An object of a source model.
fn write_source(writer: &mut Writer, model: &Text, id: &Text) -> Result<(), NoMemory>
    ensures tokens { Appends result writer.old writer.new (data_tokens (one (codes "o") (two (text_data model.now) (text_data id.now)))) }
    ensures model { OnOk result (IsText model.now) }
    ensures id { OnOk result (IsText id.now) }
{
    begin_member(writer, "o")?;
    write_names(writer, model, id)?;
    writer.end_object()?;
    Ok(())
}

/// A term up to its pairs.
fn begin_term(writer: &mut Writer, class: &Text) -> Result<(), NoMemory>
    ensures tokens { Appends result writer.old writer.new
        (begin_object ∷ key (codes "t") ∷ begin_array ∷ string (encode_utf8_all class.now) ∷ begin_array ∷ []) }
    ensures held { OnOk result (IsText class.now) }
{
    begin_member(writer, "t")?;
    writer.begin_array()?;
    write_text(writer, class)?;
    writer.begin_array()?;
    Ok(())
}

/// What stands behind the pairs of a term.
fn end_term(writer: &mut Writer) -> Result<(), NoMemory>
    ensures { Appends result writer.old writer.new term_end }
{
    writer.end_array()?;
    writer.end_array()?;
    writer.end_object()?;
    Ok(())
}

/// The same within a pair.
fn end_pair(writer: &mut Writer) -> Result<(), NoMemory>
    ensures { Appends result writer.old writer.new pair_end }
{
    end_term(writer)?;
    writer.end_array()?;
    Ok(())
}

/// A value up to the pairs of its term, which are answered; all of it where it is none.
fn begin_value<'a>(
    writer: &mut Writer,
    value: &'a TraceValue,
) -> Result<Option<&'a [TracePair]>, NoMemory>
    ensures before { OnOk result (writer.new.before ≡ writer.old.before) }
    ensures tokens { IfOk result (λ keys. writer.new.tokens ++ keys_left term_end keys ≡ writer.old.tokens ++ data_tokens (value_data value.now)) }
    ensures longer { OnOk result (length writer.old.tokens < length writer.new.tokens) }
    ensures held { IfOk result (λ keys. AreHeldKeys keys → IsHeldValue value.now) }
{
    match value {
        TraceValue::Str(text) => write_named(writer, "s", text)?,
        TraceValue::Int(integer) => write_integer(writer, *integer)?,
        TraceValue::Bool(flag) => write_flag(writer, *flag)?,
        TraceValue::Lit(name) => write_named(writer, "e", name)?,
        TraceValue::Obj(model, id) => write_source(writer, model, id)?,
        TraceValue::Term(term) => {
            begin_term(writer, &term.class)?;
            return Ok(Some(term.keys.as_slice()));
        }
    }
    Ok(None)
}

/// A pair up to the pairs of the term that is its value, which are answered; all of it where that is none.
fn begin_pair<'a>(
    writer: &mut Writer,
    pair: &'a TracePair,
) -> Result<Option<&'a [TracePair]>, NoMemory>
    ensures before { OnOk result (writer.new.before ≡ writer.old.before) }
    ensures tokens { IfOk result (λ keys. writer.new.tokens ++ keys_left pair_end keys ≡ writer.old.tokens ++ data_tokens (pair_data pair.now)) }
    ensures longer { OnOk result (length writer.old.tokens < length writer.new.tokens) }
    ensures held { IfOk result (λ keys. AreHeldKeys keys → IsHeldPair pair.now) }
{
    writer.begin_array()?;
    write_text(writer, &pair.name)?;
    let Some(keys) = begin_value(writer, &pair.value)? else {
        writer.end_array()?;
        return Ok(None);
    };
    Ok(Some(keys))
}

/// Puts the pairs of a term on those that are left, if there is one.
fn push_keys<'a>(
    left: &mut Seq<&'a [TracePair]>,
    keys: Option<&'a [TracePair]>,
) -> Result<(), NoMemory>
    ensures tokens { OnOk result (left_tokens left.new ≡ keys_left pair_end keys.entry ++ left_tokens left.old) }
    ensures held { OnOk result (AreAllHeld left.new → AreHeldKeys keys.entry × AreAllHeld left.old) }
{
    match keys {
        Some(pairs) => left.push(pairs),
        None => Ok(()),
    }
}

/// The first of the innermost pairs, or what stands behind them.
fn write_step<'a>(
    writer: &mut Writer,
    left: &mut Seq<&'a [TracePair]>,
    pairs: &'a [TracePair],
) -> Result<(), NoMemory>
    ensures before { OnOk result (writer.new.before ≡ writer.old.before) }
    ensures tokens { OnOk result (writer.new.tokens ++ left_tokens left.new
        ≡ writer.old.tokens ++ ((pairs_tokens pairs.now ++ pair_end) ++ left_tokens left.old)) }
    ensures longer { OnOk result (length writer.old.tokens < length writer.new.tokens) }
    ensures held { OnOk result (AreAllHeld left.new → AreHeldPairs pairs.now × AreAllHeld left.old) }
{
    let Some((pair, others)) = pairs.split_first() else {
        return end_pair(writer);
    };
    left.push(others)?;
    let keys = begin_pair(writer, pair)?;
    push_keys(left, keys)
}

/// All pairs that are left.
fn write_left(writer: &mut Writer, left: &mut Seq<&[TracePair]>) -> Result<(), NoMemory>
    ensures tokens { Appends result writer.old writer.new (left_tokens left.old) }
    ensures held { OnOk result (AreAllHeld left.old) }
{
    while let Some(pairs) = left.pop() {
        write_step(writer, left, pairs)?;
    }
    Ok(())
}

/// A pair. The terms within it are written by a list of what is left of them, so their height costs no stack.
fn write_pair(alloc: Global, writer: &mut Writer, pair: &TracePair) -> Result<(), NoMemory>
    ensures tokens { Appends result writer.old writer.new (data_tokens (pair_data pair.now)) }
    ensures held { OnOk result (IsHeldPair pair.now) }
{
    let keys = begin_pair(writer, pair)?;
    let mut left = Seq::new(alloc);
    push_keys(&mut left, keys)?;
    write_left(writer, &mut left)
}

/// Pairs, one behind the other.
fn write_pairs(alloc: Global, writer: &mut Writer, pairs: &[TracePair]) -> Result<(), NoMemory>
    ensures tokens { Appends result writer.old writer.new (pairs_tokens pairs.now) }
    ensures held { OnOk result (AreHeldPairs pairs.now) }
{
    for pair in pairs {
        write_pair(alloc, writer, pair)?;
    }
    Ok(())
}

/// A list of pairs.
pub(crate) fn write_bindings(
    alloc: Global,
    writer: &mut Writer,
    pairs: &[TracePair],
) -> Result<(), NoMemory>
    ensures tokens { Appends result writer.old writer.new (data_tokens (list_data (map pair_data pairs.now))) }
    ensures held { OnOk result (AreHeldPairs pairs.now) }
{
    writer.begin_array()?;
    write_pairs(alloc, writer, pairs)?;
    writer.end_array()?;
    Ok(())
}

/// A value.
pub(crate) fn write_value(
    alloc: Global,
    writer: &mut Writer,
    value: &TraceValue,
) -> Result<(), NoMemory>
    ensures tokens { Appends result writer.old writer.new (data_tokens (value_data value.now)) }
    ensures held { OnOk result (IsHeldValue value.now) }
{
    let Some(pairs) = begin_value(writer, value)? else {
        return Ok(());
    };
    write_pairs(alloc, writer, pairs)?;
    end_term(writer)
}

/// A value that is a term.
pub(crate) fn write_place(
    alloc: Global,
    writer: &mut Writer,
    term: &TraceTerm,
) -> Result<(), NoMemory>
    ensures tokens { Appends result writer.old writer.new (data_tokens (one (codes "t") (term_data term.now))) }
    ensures held { OnOk result (IsHeldTerm term.now) }
{
    begin_term(writer, &term.class)?;
    write_pairs(alloc, writer, term.keys.as_slice())?;
    end_term(writer)
}
