//! Entries, items, places and calls as they are printed, each in lines of its own.
ghost use Rattle.std.specs.Prelude.{◌≡◌, ◌++◌, map, OnOk, IfOk};
ghost use Rattle.std.specs.List.{concat, flat_map, zip};
ghost use Rattle.std.specs.Fmt.{decimal};
ghost use Rattle.entry_texts.specs.EntryTexts as spec;
ghost use Rattle.entry_texts.specs.Naming.{question, FindsNames};

use crate::names::Names;
use crate::terms::{add_pair, add_value, add_values};
use answer_texts::add_all;
use mof_metamodel::{NoMemory, PropId, Seq};
use qv_syntax::{Rel, Var};
use repair_semantics::{Entry, EntryName, Place, TermValue};
use std::alloc::Global;

/// The digits of a number.
pub(crate) fn number_text(alloc: Global, number: u32) -> Result<Seq<u8>, NoMemory>
    ensures { IfOk result (λ text. text ≡ decimal number) }
{
    let text = format!(in alloc; "{number}")?;
    Seq::from_slice(alloc, text.as_bytes())
}

// ---- entries

/// Puts the line of a variable behind a text, if it has a value.
fn add_binding(
    names: &Names<'_, '_>,
    var: &Var,
    value: &Option<TermValue>,
    out: &mut Vec<u8>,
) -> Result<(), NoMemory>
    requires { FindsNames names.now }
    ensures { OnOk result (out.new.items ≡ out.old.items ++ spec.binding_line (question names.now) (var.now, value.now)) }
{
    match value {
        Some(value) => {
            add_all(out, &[b"  ", var.name.as_str().as_bytes(), b" = "])?;
            add_value(names, value, out)?;
            add_all(out, &[b"\n"])
        }
        None => Ok(()),
    }
}

/// Puts the lines of variables behind a text.
fn add_bindings(
    names: &Names<'_, '_>,
    vars: &[Var],
    values: &[Option<TermValue>],
    out: &mut Vec<u8>,
) -> Result<(), NoMemory>
    requires { FindsNames names.now }
    ensures { OnOk result (out.new.items ≡ out.old.items ++ concat (map (spec.binding_line (question names.now)) (zip vars.now values.now))) }
{
    for (place, var) in vars.iter().enumerate() {
        let Some(value) = values.get(place) else {
            return Ok(());
        };
        add_binding(names, var, value, out)?;
    }
    Ok(())
}

/// Puts an entry of a relation behind a text.
fn add_entry_of(
    names: &Names<'_, '_>,
    rel: &Rel,
    entry: &Entry,
    out: &mut Vec<u8>,
) -> Result<(), NoMemory>
    requires { FindsNames names.now }
    ensures { OnOk result (out.new.items ≡ out.old.items ++ spec.entry_of (question names.now) entry.now rel.now) }
{
    add_all(out, &[b"relation ", rel.name.as_str().as_bytes(), b"\n"])?;
    add_bindings(names, rel.vars.as_slice(), entry.values.as_slice(), out)
}

/// Puts an entry behind a text.
pub(crate) fn add_entry(
    names: &Names<'_, '_>,
    entry: &Entry,
    out: &mut Vec<u8>,
) -> Result<(), NoMemory>
    requires { FindsNames names.now }
    ensures { OnOk result (out.new.items ≡ out.old.items ++ spec.entry_text (question names.now) entry.now) }
{
    match names.relation(entry.rel) {
        Some(rel) => add_entry_of(names, rel, entry, out),
        None => Ok(()),
    }
}

// ---- items and places

/// Puts an item with its value behind a text.
pub(crate) fn add_item(
    names: &Names<'_, '_>,
    prop: PropId,
    value: &TermValue,
    out: &mut Vec<u8>,
) -> Result<(), NoMemory>
    requires { FindsNames names.now }
    ensures { OnOk result (out.new.items ≡ out.old.items ++ spec.item_line (question names.now) prop value.now) }
{
    add_all(out, &[b"  item "])?;
    add_pair(names, prop, value, out)?;
    add_all(out, &[b"\n"])
}

/// Puts the place at which an entry is unmet behind a text.
pub(crate) fn add_place(
    names: &Names<'_, '_>,
    place: &Place,
    out: &mut Vec<u8>,
) -> Result<(), NoMemory>
    requires { FindsNames names.now }
    ensures { OnOk result (out.new.items ≡ out.old.items ++ spec.place_line (question names.now) place.now) }
{
    match place {
        Place::Where(number) => {
            let digits = number_text(names.alloc, *number)?;
            add_all(out, &[b"  where ", digits.as_slice(), b"\n"])
        }
        Place::Item(prop) => {
            add_all(out, &[b"  item ", names.prop_name(*prop).as_bytes(), b"\n"])
        }
    }
}

// ---- calls

/// Puts the line of a call of a relation behind a text.
fn add_call_of(
    names: &Names<'_, '_>,
    rel: &Rel,
    roots: &[TermValue],
    out: &mut Vec<u8>,
) -> Result<(), NoMemory>
    requires { FindsNames names.now }
    ensures { OnOk result (out.new.items ≡ out.old.items ++ spec.call_of (question names.now) roots.now rel.now) }
{
    add_all(out, &[rel.name.as_str().as_bytes(), b"("])?;
    add_values(names, roots, out)?;
    add_all(out, &[b")\n"])
}

/// Puts the line of a call behind a text, nothing where there is no relation of its number.
fn add_call(names: &Names<'_, '_>, call: &EntryName, out: &mut Vec<u8>) -> Result<(), NoMemory>
    requires { FindsNames names.now }
    ensures { OnOk result (out.new.items ≡ out.old.items ++ spec.entry_call_line (question names.now) call.now) }
{
    match names.relation(call.rel) {
        Some(rel) => add_call_of(names, rel, call.roots.as_slice(), out),
        None => Ok(()),
    }
}

/// Puts the lines of the calls of a chain behind a text.
pub(crate) fn add_chain(
    names: &Names<'_, '_>,
    chain: &[EntryName],
    out: &mut Vec<u8>,
) -> Result<(), NoMemory>
    requires { FindsNames names.now }
    ensures { OnOk result (out.new.items ≡ out.old.items ++ flat_map (spec.entry_call_line (question names.now)) chain.now) }
{
    for call in chain {
        add_call(names, call, out)?;
    }
    Ok(())
}
