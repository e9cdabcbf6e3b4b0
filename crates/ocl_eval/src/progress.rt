ghost use Rattle.std.specs.Prelude.{◌≡◌, ◌∷◌, ◌++◌, [], IfOk, OnOk, nat_le, length, map, not, Some, if◌then◌else◌};
ghost use Rattle.std.specs.List.{items_where_true, count_by};
ghost use Rattle.qvtr_semantics.specs.Outs.{Collection};
ghost use Rattle.qvtr_semantics.specs.Iterators.{collected_kind, collected_from};
ghost use Rattle.ocl_eval.specs.declared.progress.Progress.TheVariants.{Values};
ghost use Rattle.ocl_eval.specs.Progress.{begun, with_condition, with_elements, advanced, all_new, from_conditions, iterator_result};

use crate::booleans::{and, or};
use crate::collections::bounded;
use crate::datum::duplicate_datum;
use crate::equality::is_defined;
use crate::kinds::{collection, joined};
use crate::met_outs::MetOuts;
use crate::outs::{boolean, boolean_of, truth};
use mof_metamodel::{NoMemory, Seq};
use qv_syntax::{IteratorKind, Kind};
use qvtr_semantics::{Datum, MAX_RESULT, Out};
use std::alloc::Global;

/// An iterator on its way over a collection: what it keeps of the values of its body (OCL 2.4, section 11.9).
#[derive(Drop)]
pub enum Progress {
    /// Of `select`, `reject` and `one` the conditions.
    Conditions(Seq<bool>),
    /// Of `collect` what is collected, no more than a result may have.
    Collected(Seq<Datum>),
    /// Of `exists` the `or` of the conditions.
    AnyTrue(Option<bool>),
    /// Of `forAll` the `and` of the conditions.
    AllTrue(Option<bool>),
    /// Of `isUnique` the values.
    Values(Seq<Out>),
    /// The result is invalid, whatever follows.
    Failed,
}

impl Progress {
    /// Before the first element.
    pub fn new(alloc: Global, iterator: IteratorKind) -> Progress
        ensures { result ≡ begun iterator }
    {
        match iterator {
            IteratorKind::Select => Progress::Conditions(Seq::new(alloc)),
            IteratorKind::Reject => Progress::Conditions(Seq::new(alloc)),
            IteratorKind::Collect => Progress::Collected(Seq::new(alloc)),
            IteratorKind::Exists => Progress::AnyTrue(Some(false)),
            IteratorKind::ForAll => Progress::AllTrue(Some(true)),
            IteratorKind::One => Progress::Conditions(Seq::new(alloc)),
            IteratorKind::IsUnique => Progress::Values(Seq::new(alloc)),
        }
    }

    /// After one more value of the body.
    pub fn advanced(self, out: Out) -> Result<Progress, NoMemory>
        ensures { IfOk result (λ progress. progress ≡ advanced self out) }
    {
        match self {
            Progress::Conditions(conditions) => with_condition(conditions, boolean_of(&out)),
            Progress::Collected(elements) => with_elements(elements, out),
            Progress::AnyTrue(condition) => Ok(Progress::AnyTrue(or(condition, boolean_of(&out)))),
            Progress::AllTrue(condition) => Ok(Progress::AllTrue(and(condition, boolean_of(&out)))),
            Progress::Values(values) => with_value(values, out),
            Progress::Failed => Ok(Progress::Failed),
        }
    }
}

fn with_condition(conditions: Seq<bool>, condition: Option<bool>) -> Result<Progress, NoMemory>
    ensures { IfOk result (λ progress. progress ≡ with_condition conditions condition) }
{
    match condition {
        Some(condition) => {
            let mut all = conditions;
            all.push(condition)?;
            Ok(Progress::Conditions(all))
        }
        None => Ok(Progress::Failed),
    }
}

// whether so many elements are no more than a result may have
#[tactic(auto, using(crate::proofs::StringLaws::together, crate::proofs::StringLaws::first_alone))]
fn fit(elements: &[Datum], more: &[Datum]) -> bool
    ensures { result ≡ nat_le (length (elements.now ++ more.now)) MAX_RESULT }
{
    let count = elements.len();
    if count <= MAX_RESULT {
        more.len() <= MAX_RESULT - count
    } else {
        false
    }
}

fn with_many(elements: Seq<Datum>, more: Seq<Datum>) -> Result<Progress, NoMemory>
    ensures { IfOk result (λ progress. progress ≡ with_elements elements (Some more)) }
{
    if fit(elements.as_slice(), more.as_slice()) {
        Ok(Progress::Collected(joined(elements, more)?))
    } else {
        Ok(Progress::Failed)
    }
}

fn with_one(elements: Seq<Datum>, datum: Datum) -> Result<Progress, NoMemory>
    ensures { IfOk result (λ progress. progress ≡ with_elements elements (Some (datum ∷ []))) }
{
    let mut all = elements;
    all.push(datum)?;
    if all.len() <= MAX_RESULT {
        Ok(Progress::Collected(all))
    } else {
        Ok(Progress::Failed)
    }
}

#[tactic(auto, using(crate::proofs::ListLaws::no_more))]
fn with_none(elements: Seq<Datum>) -> Progress
    ensures { result ≡ with_elements elements (Some []) }
{
    if elements.len() <= MAX_RESULT {
        Progress::Collected(elements)
    } else {
        Progress::Failed
    }
}

fn with_elements(elements: Seq<Datum>, out: Out) -> Result<Progress, NoMemory>
    ensures { IfOk result (λ progress. progress ≡ with_elements elements (collected_from out)) }
{
    match out {
        Out::One(datum) => with_one(elements, datum),
        Out::Many(_, more) => with_many(elements, more),
        Out::Null => Ok(with_none(elements)),
        Out::Invalid => Ok(Progress::Failed),
    }
}

fn with_value(values: Seq<Out>, out: Out) -> Result<Progress, NoMemory>
    ensures { IfOk result (λ progress. progress ≡ advanced (Values values) out) }
{
    if is_defined(&out) {
        let mut all = values;
        all.push(out)?;
        Ok(Progress::Values(all))
    } else {
        Ok(Progress::Failed)
    }
}

// puts an element behind the others if its condition is true
fn choose(
    alloc: Global,
    list: &mut Seq<Datum>,
    element: &Datum,
    condition: bool,
) -> Result<(), NoMemory>
    ensures { OnOk result (list.new ≡ list.old ++ (if condition then element.now ∷ [] else [])) }
{
    if condition {
        list.push(duplicate_datum(alloc, element)?)?;
    }
    Ok(())
}

// those of the elements whose condition is true
#[tactic(auto, using(crate::proofs::ProgressLaws::chosen_step, crate::proofs::ProgressLaws::chosen_past))]
fn chosen(alloc: Global, elements: &[Datum], conditions: &[bool]) -> Result<Seq<Datum>, NoMemory>
    ensures { IfOk result (λ list. list ≡ items_where_true conditions.now elements.now) }
{
    let mut list = Seq::new(alloc);
    for i in 0..conditions.len() {
        if i >= elements.len() {
            return Ok(list);
        }
        choose(alloc, &mut list, &elements[i], conditions[i])?;
    }
    Ok(list)
}

// the conditions the other way round
fn negations(alloc: Global, conditions: &[bool]) -> Result<Seq<bool>, NoMemory>
    ensures { IfOk result (λ list. list ≡ map not conditions.now) }
{
    let mut list = Seq::new(alloc);
    for condition in conditions {
        list.push(!*condition)?;
    }
    Ok(list)
}

fn count_of_true(conditions: &[bool]) -> usize
    ensures { result ≡ count_by (λ b. b) conditions.now }
{
    let mut count = 0;
    for condition in conditions {
        if *condition {
            count += 1;
        }
    }
    count
}

fn from_conditions(
    alloc: Global,
    iterator: IteratorKind,
    kind: Kind,
    elements: &[Datum],
    conditions: &[bool],
) -> Result<Out, NoMemory>
    ensures { IfOk result (λ out. out ≡ from_conditions iterator (record { kind = kind; elements = elements.now }) conditions.now) }
{
    match iterator {
        IteratorKind::Select => Ok(bounded(kind, chosen(alloc, elements, conditions)?)),
        IteratorKind::Reject => {
            let others = negations(alloc, conditions)?;
            Ok(bounded(kind, chosen(alloc, elements, others.as_slice())?))
        }
        IteratorKind::One => Ok(boolean(count_of_true(conditions) == 1)),
        _ => Ok(Out::Invalid),
    }
}

// the kind of what is collected from a collection
fn collected_kind(kind: Kind) -> Kind
    ensures { result ≡ collected_kind kind }
{
    match kind {
        Kind::Set => Kind::Bag,
        Kind::Bag => Kind::Bag,
        Kind::Sequence => Kind::Sequence,
        Kind::OrderedSet => Kind::Sequence,
    }
}

// whether no value stands there twice
fn all_new(alloc: Global, values: &[Out]) -> Result<bool, NoMemory>
    ensures { IfOk result (λ is_unique. is_unique ≡ all_new [] values.now) }
{
    let mut met = MetOuts::new(alloc);
    for value in values {
        if !met.meet(value)? {
            return Ok(false);
        }
    }
    Ok(true)
}

/// What an iterator gives after the last element of the collection.
pub fn iterator_result(
    alloc: Global,
    iterator: IteratorKind,
    kind: Kind,
    elements: Seq<Datum>,
    progress: Progress,
) -> Result<Out, NoMemory>
    ensures { IfOk result (λ out. out ≡ iterator_result iterator (record { kind = kind; elements = elements }) progress) }
{
    match progress {
        Progress::Conditions(conditions) => {
            from_conditions(
                alloc,
                iterator,
                kind,
                elements.as_slice(),
                conditions.as_slice(),
            )
        }
        Progress::Collected(collected) => collection(alloc, collected_kind(kind), collected),
        Progress::AnyTrue(condition) => Ok(truth(condition)),
        Progress::AllTrue(condition) => Ok(truth(condition)),
        Progress::Values(values) => Ok(boolean(all_new(alloc, values.as_slice())?)),
        Progress::Failed => Ok(Out::Invalid),
    }
}
