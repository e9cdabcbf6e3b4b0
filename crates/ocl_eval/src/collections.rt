ghost use Rattle.std.specs.Prelude.{◌≡◌, ◌∷◌, ◌++◌, [], IfOk, nat_le, length};
ghost use Rattle.std.specs.Option.{option_copied};
ghost use Rattle.qvtr_semantics.specs.Data.{is_among};
ghost use Rattle.qvtr_semantics.specs.Outs.{Collection, and_then, natural};
ghost use Rattle.qvtr_semantics.specs.Collections.{bounded, is_ordered, without, size, is_empty, not_empty, includes, excludes, excluding, element, element_at, first, last, at, append, prepend};

use crate::datum::{duplicate_datum, same_datum};
use crate::integers::integer;
use crate::outs::boolean;
use mof_metamodel::{NoMemory, Seq};
use qv_syntax::Kind;
use qvtr_semantics::{Datum, MAX_RESULT, Out};
use std::alloc::Global;

/// Whether the datum stands in the list.
pub fn is_among(datum: &Datum, elements: &[Datum]) -> bool
    ensures { result ≡ is_among datum.now elements.now }
{
    elements.iter().any(|element| same_datum(datum, element))
}

/// A collection that has at most [`MAX_RESULT`] elements; one of more is invalid.
pub fn bounded(kind: Kind, elements: Seq<Datum>) -> Out
    ensures { result ≡ bounded kind elements }
{
    if elements.len() <= MAX_RESULT {
        Out::Many(kind, elements)
    } else {
        Out::Invalid
    }
}

/// Whether a collection of the kind has an order.
pub fn is_ordered(kind: Kind) -> bool
    ensures { result ≡ is_ordered kind }
{
    match kind {
        Kind::Set => false,
        Kind::Bag => false,
        Kind::Sequence => true,
        Kind::OrderedSet => true,
    }
}

// the elements that are another datum
fn without(alloc: Global, datum: &Datum, elements: &[Datum]) -> Result<Seq<Datum>, NoMemory>
    ensures { IfOk result (λ others. others ≡ without datum.now elements.now) }
{
    let mut others = Seq::new(alloc);
    for element in elements {
        if !same_datum(datum, element) {
            others.push(duplicate_datum(alloc, element)?)?;
        }
    }
    Ok(others)
}

// the same; where each is another datum none is copied
#[tactic(auto, using(crate::proofs::MemberLaws::without_absent))]
fn remaining(alloc: Global, datum: &Datum, elements: Seq<Datum>) -> Result<Seq<Datum>, NoMemory>
    ensures { IfOk result (λ others. others ≡ without datum.now elements) }
{
    if is_among(datum, elements.as_slice()) {
        without(alloc, datum, elements.as_slice())
    } else {
        Ok(elements)
    }
}

/// `c->size()` (OCL 2.4, section 11.7.1).
#[tactic(auto, using(crate::proofs::IntegerLaws::unfit))]
pub fn size(kind: Kind, elements: &[Datum]) -> Out
    ensures { result ≡ size (record { kind = kind; elements = elements.now }) }
{
    let count = elements.len();
    if count <= 9_223_372_036_854_775_807 {
        integer(count as i64)
    } else {
        Out::Invalid
    }
}

/// `c->isEmpty()`.
pub fn is_empty(kind: Kind, elements: &[Datum]) -> Out
    ensures { result ≡ is_empty (record { kind = kind; elements = elements.now }) }
{
    boolean(elements.len() == 0)
}

/// `c->notEmpty()`.
pub fn not_empty(kind: Kind, elements: &[Datum]) -> Out
    ensures { result ≡ not_empty (record { kind = kind; elements = elements.now }) }
{
    boolean(elements.len() != 0)
}

/// `c->includes(datum)`.
pub fn includes(kind: Kind, elements: &[Datum], datum: &Datum) -> Out
    ensures { result ≡ includes (record { kind = kind; elements = elements.now }) datum.now }
{
    boolean(is_among(datum, elements))
}

/// `c->excludes(datum)`.
pub fn excludes(kind: Kind, elements: &[Datum], datum: &Datum) -> Out
    ensures { result ≡ excludes (record { kind = kind; elements = elements.now }) datum.now }
{
    boolean(!is_among(datum, elements))
}

/// `c->excluding(datum)`: without each occurrence.
pub fn excluding(
    alloc: Global,
    kind: Kind,
    elements: &[Datum],
    datum: &Datum,
) -> Result<Out, NoMemory>
    ensures { IfOk result (λ out. out ≡ excluding (record { kind = kind; elements = elements.now }) datum.now) }
{
    let others = without(alloc, datum, elements)?;
    Ok(bounded(kind, others))
}

// another of the datum as a value, if there is one and the kind has an order
fn element(alloc: Global, kind: Kind, datum: Option<&Datum>) -> Result<Out, NoMemory>
    ensures { IfOk result (λ out. out ≡ element kind (option_copied datum.entry)) }
{
    if !is_ordered(kind) {
        return Ok(Out::Invalid);
    }
    match datum {
        Some(datum) => Ok(Out::One(duplicate_datum(alloc, datum)?)),
        None => Ok(Out::Invalid),
    }
}

/// `c->first()`: invalid where the collection is empty or has no order.
pub fn first(alloc: Global, kind: Kind, elements: &[Datum]) -> Result<Out, NoMemory>
    ensures { IfOk result (λ out. out ≡ first (record { kind = kind; elements = elements.now })) }
{
    element(alloc, kind, elements.first())
}

/// `c->last()`.
#[tactic(auto, using(crate::proofs::CollectionLaws::last_by_place))]
pub fn last(alloc: Global, kind: Kind, elements: &[Datum]) -> Result<Out, NoMemory>
    ensures { IfOk result (λ out. out ≡ last (record { kind = kind; elements = elements.now })) }
{
    element(alloc, kind, elements.last())
}

// the element at a place that is counted from 1
fn element_at(elements: &[Datum], place: i64) -> Option<&Datum>
    ensures { option_copied result ≡ and_then (natural place) (element_at elements.now) }
{
    if place <= 0 {
        return None;
    }
    elements.get((place - 1) as usize)
}

/// `c->at(place)`: counted from 1, and invalid outside the collection.
pub fn at(alloc: Global, kind: Kind, elements: &[Datum], place: i64) -> Result<Out, NoMemory>
    ensures { IfOk result (λ out. out ≡ at (record { kind = kind; elements = elements.now }) place) }
{
    element(alloc, kind, element_at(elements, place))
}

/// `c->append(datum)`: in an OrderedSet an element that is present moves to the end.
pub fn append(
    alloc: Global,
    kind: Kind,
    elements: Seq<Datum>,
    datum: Datum,
) -> Result<Out, NoMemory>
    ensures { IfOk result (λ out. out ≡ append (record { kind = kind; elements = elements }) datum) }
{
    match kind {
        Kind::Sequence => with_last(kind, elements, datum),
        Kind::OrderedSet => {
            let others = remaining(alloc, &datum, elements)?;
            with_last(kind, others, datum)
        }
        _ => Ok(Out::Invalid),
    }
}

// the elements and behind them the datum
fn with_last(kind: Kind, elements: Seq<Datum>, datum: Datum) -> Result<Out, NoMemory>
    ensures { IfOk result (λ out. out ≡ bounded kind (elements ++ datum ∷ [])) }
{
    let mut all = elements;
    all.push(datum)?;
    Ok(bounded(kind, all))
}

/// `c->prepend(datum)`: in an OrderedSet an element that is present moves to the front.
pub fn prepend(
    alloc: Global,
    kind: Kind,
    elements: Seq<Datum>,
    datum: Datum,
) -> Result<Out, NoMemory>
    ensures { IfOk result (λ out. out ≡ prepend (record { kind = kind; elements = elements }) datum) }
{
    match kind {
        Kind::Sequence => with_first(kind, elements, datum),
        Kind::OrderedSet => {
            let others = remaining(alloc, &datum, elements)?;
            with_first(kind, others, datum)
        }
        _ => Ok(Out::Invalid),
    }
}

// the datum and behind it the elements
fn with_first(kind: Kind, elements: Seq<Datum>, datum: Datum) -> Result<Out, NoMemory>
    ensures { IfOk result (λ out. out ≡ bounded kind (datum ∷ elements)) }
{
    let mut all = elements.into_vec();
    all.insert(0, datum)?;
    Ok(bounded(kind, Seq::from_vec(all)))
}
