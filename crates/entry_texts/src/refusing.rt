//! What is printed where a program can't be enforced.
ghost use Rattle.std.specs.Prelude.{◌≡◌, ◌++◌, IfOk, OnOk};
ghost use Rattle.fault_lines.specs.Lines.{shown};
ghost use Rattle.answer_texts.specs.AskedView.{asked_view};
ghost use Rattle.entry_texts.specs.EntryTexts as spec;
ghost use Rattle.entry_texts.specs.Naming.{question, FindsNames};

use crate::entries::{add_chain, add_entry, add_item, add_place, number_text};
use crate::key_places::key_places;
use crate::names::Names;
use crate::terms::add_term;
use answer_texts::{Asked, add_all, concatenate};
use enforcement_rules::NotEnforceable;
use mof_metamodel::{NoMemory, PropId, Seq};
use repair_semantics::{Clash, Entry, EntryName, Place, TermValue};
use std::alloc::Global;

/// Puts an entry with one of its items behind a text.
fn add_side(
    names: &Names<'_, '_>,
    entry: &Entry,
    item: PropId,
    value: &TermValue,
    out: &mut Vec<u8>,
) -> Result<(), NoMemory>
    requires { FindsNames names.now }
    ensures { OnOk result (out.new.items ≡ out.old.items ++ (spec.entry_text (question names.now) entry.now ++ spec.item_line (question names.now) item value.now)) }
{
    add_entry(names, entry, out)?;
    add_item(names, item, value, out)
}

/// Puts the place that would get two values behind a text.
fn add_spot(names: &Names<'_, '_>, clash: &Clash, out: &mut Vec<u8>) -> Result<(), NoMemory>
    requires { FindsNames names.now }
    ensures { OnOk result (out.new.items ≡ out.old.items ++ spec.spot_line (question names.now) clash.now) }
{
    add_all(out, &[b"conflict "])?;
    add_term(names, &clash.owner, out)?;
    add_all(out, &[b" ", names.prop_name(clash.prop).as_bytes(), b"\n"])
}

/// Two demands that no model meets.
fn conflict_by(names: &Names<'_, '_>, clash: &Clash) -> Result<Seq<u8>, NoMemory>
    requires { FindsNames names.now }
    ensures { IfOk result (λ text. text ≡ spec.conflict_text (question names.now) clash.now) }
{
    let mut out = Vec::new(names.alloc);
    add_spot(names, clash, &mut out)?;
    add_side(
        names,
        &clash.first,
        clash.first_item,
        &clash.first_value,
        &mut out,
    )?;
    add_side(
        names,
        &clash.second,
        clash.second_item,
        &clash.second_value,
        &mut out,
    )?;
    Ok(Seq::from_vec(out))
}

/// An entry that can't be fulfilled at a place.
fn unmet_by(names: &Names<'_, '_>, entry: &Entry, place: &Place) -> Result<Seq<u8>, NoMemory>
    requires { FindsNames names.now }
    ensures { IfOk result (λ text. text ≡ spec.unmet_text (question names.now) entry.now place.now) }
{
    let mut out = Vec::from_slice(names.alloc, b"unmet\n")?;
    add_entry(names, entry, &mut out)?;
    add_place(names, place, &mut out)?;
    Ok(Seq::from_vec(out))
}

/// A word, and the lines of the calls of a chain.
fn chain_by(names: &Names<'_, '_>, word: &[u8], chain: &[EntryName]) -> Result<Seq<u8>, NoMemory>
    requires { FindsNames names.now }
    ensures { IfOk result (λ text. text ≡ spec.entry_chain_text (question names.now) word.now chain.now) }
{
    let mut out = Vec::from_slice(names.alloc, word)?;
    add_chain(names, chain, &mut out)?;
    Ok(Seq::from_vec(out))
}

/// What is printed of two demands that no model meets: the place that would get two values, and both entries, each with its item.
///
/// # Errors
///
/// `NoMemory` where memory runs out.
pub fn conflict_text(
    alloc: Global,
    asked: &Asked<'_, '_>,
    clash: &Clash,
) -> Result<Seq<u8>, NoMemory>
    ensures { IfOk result (λ text. text ≡ spec.conflict_text (asked_view asked.now) clash.now) }
{
    let places = key_places(alloc, asked.program)?;
    let text = conflict_by(&Names::over(alloc, asked, &places), clash);
    drop(places);
    text
}

/// What is printed of an entry that can't be fulfilled at a place: its relation, its values, and the conjunct of the where clause or the item.
///
/// # Errors
///
/// `NoMemory` where memory runs out.
pub fn unmet_text(
    alloc: Global,
    asked: &Asked<'_, '_>,
    entry: &Entry,
    place: &Place,
) -> Result<Seq<u8>, NoMemory>
    ensures { IfOk result (λ text. text ≡ spec.unmet_text (asked_view asked.now) entry.now place.now) }
{
    let places = key_places(alloc, asked.program)?;
    let text = unmet_by(&Names::over(alloc, asked, &places), entry, place);
    drop(places);
    text
}

/// A word, and the lines of the calls of a chain.
fn chain_text(
    alloc: Global,
    asked: &Asked<'_, '_>,
    word: &[u8],
    chain: &[EntryName],
) -> Result<Seq<u8>, NoMemory>
    ensures { IfOk result (λ text. text ≡ spec.entry_chain_text (asked_view asked.now) word.now chain.now) }
{
    let places = key_places(alloc, asked.program)?;
    let text = chain_by(&Names::over(alloc, asked, &places), word, chain);
    drop(places);
    text
}

/// What is printed of a chain of entries that comes back to one of its calls.
///
/// # Errors
///
/// `NoMemory` where memory runs out.
pub fn entry_cycle_text(
    alloc: Global,
    asked: &Asked<'_, '_>,
    chain: &[EntryName],
) -> Result<Seq<u8>, NoMemory>
    ensures { IfOk result (λ text. text ≡ spec.entry_cycle_text (asked_view asked.now) chain.now) }
{
    chain_text(alloc, asked, b"cycle\n", chain)
}

/// What is printed of a chain of entries that has too many calls.
///
/// # Errors
///
/// `NoMemory` where memory runs out.
pub fn entry_deep_text(
    alloc: Global,
    asked: &Asked<'_, '_>,
    chain: &[EntryName],
) -> Result<Seq<u8>, NoMemory>
    ensures { IfOk result (λ text. text ≡ spec.entry_deep_text (asked_view asked.now) chain.now) }
{
    chain_text(alloc, asked, b"deep\n", chain)
}

/// The name of a relation, nothing where there is none of this number.
fn relation_name<'a>(asked: &Asked<'a, '_>, number: u32) -> &'a str
    ensures { result.now ≡ shown (spec.relation_name (asked_view asked.now) number) }
{
    match asked.program.rels.as_slice().get(number as usize) {
        Some(rel) => rel.name.as_str(),
        None => "",
    }
}

/// What is printed of a relation that breaks a rule of those that can be enforced: its name, and the number of the rule.
///
/// # Errors
///
/// `NoMemory` where memory runs out.
pub fn rule_text(
    alloc: Global,
    asked: &Asked<'_, '_>,
    broken: &NotEnforceable,
) -> Result<Seq<u8>, NoMemory>
    ensures { IfOk result (λ text. text ≡ spec.rule_text (asked_view asked.now) broken.now) }
{
    let name = relation_name(asked, broken.relation).as_bytes();
    let digits = number_text(alloc, u32::from(broken.rule))?;
    concatenate(
        alloc,
        &[b"not-enforceable ", name, b" E", digits.as_slice(), b"\n"],
    )
}
