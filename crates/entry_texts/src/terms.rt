//! Values and objects of the target as they are printed. The recursion goes as deep as a term is high.
ghost use Rattle.std.specs.Prelude.{◌≡◌, ◌++◌, map, OnOk};
ghost use Rattle.std.specs.List.{zip};
ghost use Rattle.answer_texts.specs.AnswerTexts.{datum_text};
ghost use Rattle.entry_texts.specs.EntryTexts as spec;
ghost use Rattle.entry_texts.specs.Naming.{question, FindsNames};
ghost use Rattle.entry_texts.specs.Commas.{comma};

use crate::names::Names;
use answer_texts::add_all;
use mof_metamodel::{NoMemory, PropId};
use qvtr_semantics::Datum;
use repair_semantics::{Term, TermValue};

/// Puts a value of a data type, or an object of a source model, behind a text.
fn add_datum(names: &Names<'_, '_>, datum: &Datum, out: &mut Vec<u8>) -> Result<(), NoMemory>
    ensures { OnOk result (out.new.items ≡ out.old.items ++ datum_text (question names.now) datum.now) }
{
    let text = names.asked.datum_text(names.alloc, datum)?;
    out.extend_from_slice(text.as_slice())?;
    Ok(())
}

/// Puts a value behind a text.
#[cycle(terms)]
pub(crate) fn add_value(
    names: &Names<'_, '_>,
    value: &TermValue,
    out: &mut Vec<u8>,
) -> Result<(), NoMemory>
    requires { FindsNames names.now }
    ensures { OnOk result (out.new.items ≡ out.old.items ++ spec.term_value_text (question names.now) value.now) }
{
    match value {
        TermValue::Val(datum) => add_datum(names, datum, out),
        TermValue::Term(term) => add_term(names, term, out),
    }
}

/// Puts an object of the target behind a text.
#[cycle(terms)]
pub(crate) fn add_term(
    names: &Names<'_, '_>,
    term: &Term,
    out: &mut Vec<u8>,
) -> Result<(), NoMemory>
    requires { FindsNames names.now }
    ensures { OnOk result (out.new.items ≡ out.old.items ++ spec.term_text (question names.now) term.now) }
{
    add_all(out, &[names.class_name(term.class).as_bytes(), b"["])?;
    let props = names.key_props(term.class);
    add_pairs(names, props, term.keys.as_slice(), out)?;
    add_all(out, &[b"]"])
}

/// Puts a comma behind a text, but not before the first of a list.
fn add_comma(place: usize, out: &mut Vec<u8>) -> Result<(), NoMemory>
    ensures { OnOk result (out.new.items ≡ out.old.items ++ comma place) }
{
    if place == 0 {
        return Ok(());
    }
    add_all(out, &[b", "])
}

/// Puts the properties of a key with their values behind a text.
#[cycle(terms)]
fn add_pairs(
    names: &Names<'_, '_>,
    props: &[PropId],
    values: &[TermValue],
    out: &mut Vec<u8>,
) -> Result<(), NoMemory>
    requires { FindsNames names.now }
    ensures { OnOk result (out.new.items ≡ out.old.items ++ spec.listed (map (spec.pair_text (question names.now)) (zip props.now (map (spec.term_value_text (question names.now)) values.now)))) }
{
    for (place, value) in values.iter().enumerate() {
        let Some(prop) = props.get(place) else {
            return Ok(());
        };
        add_comma(place, out)?;
        add_pair(names, *prop, value, out)?;
    }
    Ok(())
}

/// Puts a property with its value behind a text.
#[cycle(terms)]
pub(crate) fn add_pair(
    names: &Names<'_, '_>,
    prop: PropId,
    value: &TermValue,
    out: &mut Vec<u8>,
) -> Result<(), NoMemory>
    requires { FindsNames names.now }
    ensures { OnOk result (out.new.items ≡ out.old.items ++ spec.pair_text (question names.now) (prop, spec.term_value_text (question names.now) value.now)) }
{
    add_all(out, &[names.prop_name(prop).as_bytes(), b" = "])?;
    add_value(names, value, out)
}

/// Puts values behind a text, with a comma between.
pub(crate) fn add_values(
    names: &Names<'_, '_>,
    values: &[TermValue],
    out: &mut Vec<u8>,
) -> Result<(), NoMemory>
    requires { FindsNames names.now }
    ensures { OnOk result (out.new.items ≡ out.old.items ++ spec.listed (map (spec.term_value_text (question names.now)) values.now)) }
{
    for (place, value) in values.iter().enumerate() {
        add_comma(place, out)?;
        add_value(names, value, out)?;
    }
    Ok(())
}
