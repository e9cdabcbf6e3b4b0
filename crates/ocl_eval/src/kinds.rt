ghost use Rattle.std.specs.Prelude.{◌≡◌, ◌∷◌, ◌++◌, [], IfOk, map};
ghost use Rattle.qvtr_semantics.specs.Data.{distinct};
ghost use Rattle.qvtr_semantics.specs.Outs.{Collection, datum_of, all_given};
ghost use Rattle.qvtr_semantics.specs.Collections.{kept, collection, as_kind, including, union};
ghost use Rattle.qvtr_semantics.specs.Expressions.{literal};

use crate::collections::bounded;
use crate::datum::duplicate_datum;
use crate::equality::same_kind;
use crate::met::Met;
use crate::ordering::{in_order, set_in_order};
use crate::outs::datum_of;
use mof_metamodel::{NoMemory, Seq};
use qv_syntax::Kind;
use qvtr_semantics::{Datum, Out};
use std::alloc::Global;

/// Each datum at its first place.
#[tactic(auto, using(crate::proofs::ListLaws::new_further, crate::proofs::ListLaws::old_further))]
pub fn distinct(alloc: Global, elements: &[Datum]) -> Result<Seq<Datum>, NoMemory>
    ensures { IfOk result (λ firsts. firsts ≡ distinct elements.now) }
{
    let mut met = Met::new(alloc);
    let mut firsts = Seq::new(alloc);
    for element in elements {
        if met.meet(element)? {
            firsts.push(duplicate_datum(alloc, element)?)?;
        }
    }
    Ok(firsts)
}

/// What a kind of collection keeps of a list: a Set and an OrderedSet no repeat, a Set and a Bag no order.
pub fn kept(alloc: Global, kind: Kind, elements: Seq<Datum>) -> Result<Seq<Datum>, NoMemory>
    ensures { IfOk result (λ list. list ≡ kept kind elements) }
{
    match kind {
        Kind::Set => Ok(set_in_order(elements)),
        Kind::Bag => Ok(in_order(elements)),
        Kind::Sequence => Ok(elements),
        Kind::OrderedSet => distinct(alloc, elements.as_slice()),
    }
}

/// The collection of these elements.
pub fn collection(alloc: Global, kind: Kind, elements: Seq<Datum>) -> Result<Out, NoMemory>
    ensures { IfOk result (λ out. out ≡ collection kind elements) }
{
    let list = kept(alloc, kind, elements)?;
    Ok(bounded(kind, list))
}

/// `c->asSet()`, `asBag()`, `asSequence()` and `asOrderedSet()` (OCL 2.4, section 11.7.1).
pub fn as_kind(
    alloc: Global,
    wanted: Kind,
    kind: Kind,
    elements: Seq<Datum>,
) -> Result<Out, NoMemory>
    ensures { IfOk result (λ out. out ≡ as_kind wanted (record { kind = kind; elements = elements })) }
{
    collection(alloc, wanted, elements)
}

/// `c->including(datum)`: it goes last, and in a Set or an OrderedSet one that is present stays.
pub fn including(
    alloc: Global,
    kind: Kind,
    elements: Seq<Datum>,
    datum: Datum,
) -> Result<Out, NoMemory>
    ensures { IfOk result (λ out. out ≡ including (record { kind = kind; elements = elements }) datum) }
{
    let mut all = elements;
    all.push(datum)?;
    collection(alloc, kind, all)
}

// the one list and behind it the other
pub(crate) fn joined(front: Seq<Datum>, back: Seq<Datum>) -> Result<Seq<Datum>, NoMemory>
    ensures { IfOk result (λ all. all ≡ front ++ back) }
{
    let mut all = front.into_vec();
    let mut rest = back.into_vec();
    all.append(&mut rest)?;
    Ok(Seq::from_vec(all))
}

/// `c->union(others)`: of two collections of one kind.
pub fn union(
    alloc: Global,
    kind: Kind,
    elements: Seq<Datum>,
    other_kind: Kind,
    others: Seq<Datum>,
) -> Result<Out, NoMemory>
    ensures { IfOk result (λ out. out ≡ union (record { kind = kind; elements = elements }) (record { kind = other_kind; elements = others })) }
{
    if !same_kind(kind, other_kind) {
        return Ok(Out::Invalid);
    }
    let all = joined(elements, others)?;
    collection(alloc, kind, all)
}

// the data, if each of the values is one
#[tactic(auto, using(crate::proofs::ListLaws::given_further, crate::proofs::ListLaws::given_all))]
fn data_of(alloc: Global, outs: &[Out]) -> Result<Option<Seq<Datum>>, NoMemory>
    ensures { IfOk result (λ ds. ds ≡ all_given (map datum_of outs.now)) }
{
    let mut found = Seq::new(alloc);
    for out in outs {
        match datum_of(out) {
            Some(datum) => found.push(duplicate_datum(alloc, datum)?)?,
            None => return Ok(None),
        }
    }
    Ok(Some(found))
}

/// A collection literal (OCL 2.4, section 7.5.3): invalid where a part is no single value.
pub fn literal(alloc: Global, kind: Kind, elements: Seq<Out>) -> Result<Out, NoMemory>
    ensures { IfOk result (λ out. out ≡ literal kind elements) }
{
    match data_of(alloc, elements.as_slice())? {
        Some(data) => collection(alloc, kind, data),
        None => Ok(Out::Invalid),
    }
}
