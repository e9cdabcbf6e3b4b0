ghost use Rattle.std.specs.Prelude.{◌≡◌, not, IfOk, pos};
ghost use Rattle.std.specs.List.{list_all, filter, count_by};
ghost use Rattle.qv_syntax.specs.declared.type_tree.Kind.TheVariants.{Set};
ghost use Rattle.qvtr_semantics.specs.Data.{is_among, same_datum};
ghost use Rattle.qvtr_semantics.specs.Outs.{Collection};
ghost use Rattle.qvtr_semantics.specs.Collections.{bounded, includes_all, excludes_all, intersection, count};

use crate::collections::bounded;
use crate::datum::{duplicate_datum, same_datum};
use crate::integers::integer;
use crate::met::Met;
use crate::outs::boolean;
use mof_metamodel::{NoMemory, Seq};
use qv_syntax::Kind;
use qvtr_semantics::{Datum, Out};
use std::alloc::Global;

// whether all of the list were met
fn has_all<'a>(met: &Met<'a>, elements: &'a [Datum]) -> bool
    ensures { result ≡ list_all (λ d. is_among d met.now.data.keys) elements.now }
{
    for element in elements {
        if !met.has(element) {
            return false;
        }
    }
    true
}

// whether none of the list was met
fn has_none<'a>(met: &Met<'a>, elements: &'a [Datum]) -> bool
    ensures { result ≡ list_all (λ d. not (is_among d met.now.data.keys)) elements.now }
{
    for element in elements {
        if met.has(element) {
            return false;
        }
    }
    true
}

/// `c->includesAll(others)` (OCL 2.4, section 11.7.1).
pub fn includes_all<'a>(
    alloc: Global,
    kind: Kind,
    elements: &'a [Datum],
    other_kind: Kind,
    others: &'a [Datum],
) -> Result<Out, NoMemory>
    ensures { IfOk result (λ out. out ≡ includes_all (record { kind = kind; elements = elements.now }) (record { kind = other_kind; elements = others.now })) }
{
    let met = Met::all_of(alloc, elements)?;
    Ok(boolean(has_all(&met, others)))
}

/// `c->excludesAll(others)`.
pub fn excludes_all<'a>(
    alloc: Global,
    kind: Kind,
    elements: &'a [Datum],
    other_kind: Kind,
    others: &'a [Datum],
) -> Result<Out, NoMemory>
    ensures { IfOk result (λ out. out ≡ excludes_all (record { kind = kind; elements = elements.now }) (record { kind = other_kind; elements = others.now })) }
{
    let met = Met::all_of(alloc, elements)?;
    Ok(boolean(has_none(&met, others)))
}

// those of the list that were met
fn common<'a>(alloc: Global, met: &Met<'a>, elements: &'a [Datum]) -> Result<Seq<Datum>, NoMemory>
    ensures { IfOk result (λ both. both ≡ filter (λ d. is_among d met.now.data.keys) elements.now) }
{
    let mut both = Seq::new(alloc);
    for element in elements {
        if met.has(element) {
            both.push(duplicate_datum(alloc, element)?)?;
        }
    }
    Ok(both)
}

fn intersection_of_sets<'a>(
    alloc: Global,
    elements: &'a [Datum],
    others: &'a [Datum],
) -> Result<Out, NoMemory>
    ensures { IfOk result (λ out. out ≡ bounded Set (filter (λ d. is_among d others.now) elements.now)) }
{
    let met = Met::all_of(alloc, others)?;
    let both = common(alloc, &met, elements)?;
    Ok(bounded(Kind::Set, both))
}

/// `c->intersection(others)`: of two Sets.
pub fn intersection<'a>(
    alloc: Global,
    kind: Kind,
    elements: &'a [Datum],
    other_kind: Kind,
    others: &'a [Datum],
) -> Result<Out, NoMemory>
    ensures { IfOk result (λ out. out ≡ intersection (record { kind = kind; elements = elements.now }) (record { kind = other_kind; elements = others.now })) }
{
    match (kind, other_kind) {
        (Kind::Set, Kind::Set) => intersection_of_sets(alloc, elements, others),
        _ => Ok(Out::Invalid),
    }
}

// how often the datum stands in the list
fn occurrences(elements: &[Datum], datum: &Datum) -> usize
    ensures { result ≡ count_by (same_datum datum.now) elements.now }
{
    let mut count = 0;
    for element in elements {
        if same_datum(datum, element) {
            count += 1;
        }
    }
    count
}

/// `c->count(datum)`.
#[tactic(auto, using(crate::proofs::IntegerLaws::unfit))]
pub fn count(kind: Kind, elements: &[Datum], datum: &Datum) -> Out
    ensures { result ≡ count (record { kind = kind; elements = elements.now }) datum.now }
{
    let count = occurrences(elements, datum);
    if count <= 9_223_372_036_854_775_807 {
        integer(count as i64)
    } else {
        Out::Invalid
    }
}
