ghost use Rattle.std.specs.Prelude.{◌≡◌, true, false, IfOk};
ghost use Rattle.qvtr_semantics.specs.Outs.{Collection, given, datum_of, integer_of, collection_of};
ghost use Rattle.qvtr_semantics.specs.Collections as definitions;
ghost use Rattle.qvtr_semantics.specs.Expressions.{argument, on_collection};
ghost use Rattle.ocl_eval.specs.Operations.{is_reading, with_element, grown_by, with_other};

use crate::collections::{
    append, at, excludes, excluding, first, includes, is_empty, last, not_empty, prepend, size,
};
use crate::comparing::{count, excludes_all, includes_all, intersection};
use crate::datum::duplicate_data;
use crate::integers::sum;
use crate::kinds::{as_kind, including, union};
use crate::outs::integer_of;
use mof_metamodel::{NoMemory, Seq};
use qv_syntax::{CollectionOperation, Kind};
use qvtr_semantics::{Datum, Out};
use std::alloc::Global;

// the first argument; one that isn't there is invalid
pub(crate) fn argument(args: Seq<Out>) -> Out
    ensures { result ≡ argument args 0 }
{
    let mut all = args.into_vec();
    if all.is_empty() {
        Out::Invalid
    } else {
        all.remove(0)
    }
}

/// Whether an operation only reads the collection. The others make their result of it.
fn is_reading(operation: CollectionOperation) -> bool
    ensures { result ≡ is_reading operation }
{
    match operation {
        CollectionOperation::Including
        | CollectionOperation::Append
        | CollectionOperation::Prepend
        | CollectionOperation::Union
        | CollectionOperation::AsSet
        | CollectionOperation::AsBag
        | CollectionOperation::AsSequence
        | CollectionOperation::AsOrderedSet => false,
        _ => true,
    }
}

fn with_element(
    alloc: Global,
    operation: CollectionOperation,
    kind: Kind,
    elements: &[Datum],
    datum: Datum,
) -> Result<Out, NoMemory>
    ensures { IfOk result (λ out. out ≡ with_element operation (record { kind = kind; elements = elements.now }) datum) }
{
    match operation {
        CollectionOperation::Includes => Ok(includes(kind, elements, &datum)),
        CollectionOperation::Excludes => Ok(excludes(kind, elements, &datum)),
        CollectionOperation::Count => Ok(count(kind, elements, &datum)),
        CollectionOperation::Excluding => excluding(alloc, kind, elements, &datum),
        _ => Ok(Out::Invalid),
    }
}

fn with_datum(
    alloc: Global,
    operation: CollectionOperation,
    kind: Kind,
    elements: &[Datum],
    argument: Out,
) -> Result<Out, NoMemory>
    ensures { IfOk result (λ out. out ≡ given (datum_of argument) (with_element operation (record { kind = kind; elements = elements.now }))) }
{
    match argument {
        Out::One(datum) => with_element(alloc, operation, kind, elements, datum),
        _ => Ok(Out::Invalid),
    }
}

fn with_other(
    alloc: Global,
    operation: CollectionOperation,
    kind: Kind,
    elements: &[Datum],
    other_kind: Kind,
    others: &[Datum],
) -> Result<Out, NoMemory>
    ensures { IfOk result (λ out. out ≡ with_other operation (record { kind = kind; elements = elements.now }) (record { kind = other_kind; elements = others.now })) }
{
    match operation {
        CollectionOperation::IncludesAll => includes_all(alloc, kind, elements, other_kind, others),
        CollectionOperation::ExcludesAll => excludes_all(alloc, kind, elements, other_kind, others),
        CollectionOperation::Intersection => intersection(
            alloc, kind, elements, other_kind, others,
        ),
        _ => Ok(Out::Invalid),
    }
}

fn with_collection(
    alloc: Global,
    operation: CollectionOperation,
    kind: Kind,
    elements: &[Datum],
    argument: &Out,
) -> Result<Out, NoMemory>
    ensures { IfOk result (λ out. out ≡ given (collection_of argument.now) (with_other operation (record { kind = kind; elements = elements.now }))) }
{
    match argument {
        Out::Many(other_kind, others) => {
            with_other(
                alloc,
                operation,
                kind,
                elements,
                *other_kind,
                others.as_slice(),
            )
        }
        _ => Ok(Out::Invalid),
    }
}

fn at_argument(
    alloc: Global,
    kind: Kind,
    elements: &[Datum],
    argument: &Out,
) -> Result<Out, NoMemory>
    ensures { IfOk result (λ out. out ≡ given (integer_of argument.now) (definitions.at (record { kind = kind; elements = elements.now }))) }
{
    match integer_of(argument) {
        Some(place) => at(alloc, kind, elements, place),
        None => Ok(Out::Invalid),
    }
}

/// An operation that only reads the collection.
fn read(
    alloc: Global,
    operation: CollectionOperation,
    kind: Kind,
    elements: &[Datum],
    args: Seq<Out>,
) -> Result<Out, NoMemory>
    requires { is_reading operation ≡ true }
    ensures { IfOk result (λ out. out ≡ on_collection operation (record { kind = kind; elements = elements.now }) args) }
{
    match operation {
        CollectionOperation::Size => Ok(size(kind, elements)),
        CollectionOperation::IsEmpty => Ok(is_empty(kind, elements)),
        CollectionOperation::NotEmpty => Ok(not_empty(kind, elements)),
        CollectionOperation::Sum => Ok(sum(elements)),
        CollectionOperation::First => first(alloc, kind, elements),
        CollectionOperation::Last => last(alloc, kind, elements),
        CollectionOperation::At => at_argument(alloc, kind, elements, &argument(args)),
        CollectionOperation::Includes
        | CollectionOperation::Excludes
        | CollectionOperation::Count
        | CollectionOperation::Excluding => {
            with_datum(alloc, operation, kind, elements, argument(args))
        }
        CollectionOperation::IncludesAll
        | CollectionOperation::ExcludesAll
        | CollectionOperation::Intersection => {
            with_collection(alloc, operation, kind, elements, &argument(args))
        }
        CollectionOperation::Including
        | CollectionOperation::Append
        | CollectionOperation::Prepend
        | CollectionOperation::Union
        | CollectionOperation::AsSet
        | CollectionOperation::AsBag
        | CollectionOperation::AsSequence
        | CollectionOperation::AsOrderedSet => unreachable!(),
    }
}

fn grown_by(
    alloc: Global,
    operation: CollectionOperation,
    kind: Kind,
    elements: Seq<Datum>,
    argument: Out,
) -> Result<Out, NoMemory>
    ensures { IfOk result (λ out. out ≡ given (datum_of argument) (grown_by operation (record { kind = kind; elements = elements }))) }
{
    match (operation, argument) {
        (CollectionOperation::Including, Out::One(datum)) => including(
            alloc, kind, elements, datum,
        ),
        (CollectionOperation::Append, Out::One(datum)) => append(alloc, kind, elements, datum),
        (CollectionOperation::Prepend, Out::One(datum)) => prepend(alloc, kind, elements, datum),
        _ => Ok(Out::Invalid),
    }
}

fn united(alloc: Global, kind: Kind, elements: Seq<Datum>, argument: Out) -> Result<Out, NoMemory>
    ensures { IfOk result (λ out. out ≡ given (collection_of argument) (definitions.union (record { kind = kind; elements = elements }))) }
{
    match argument {
        Out::Many(other_kind, others) => union(alloc, kind, elements, other_kind, others),
        _ => Ok(Out::Invalid),
    }
}

/// An operation that makes its result of the collection.
fn made(
    alloc: Global,
    operation: CollectionOperation,
    kind: Kind,
    elements: Seq<Datum>,
    args: Seq<Out>,
) -> Result<Out, NoMemory>
    requires { is_reading operation ≡ false }
    ensures { IfOk result (λ out. out ≡ on_collection operation (record { kind = kind; elements = elements }) args) }
{
    match operation {
        CollectionOperation::AsSet => as_kind(alloc, Kind::Set, kind, elements),
        CollectionOperation::AsBag => as_kind(alloc, Kind::Bag, kind, elements),
        CollectionOperation::AsSequence => as_kind(alloc, Kind::Sequence, kind, elements),
        CollectionOperation::AsOrderedSet => as_kind(alloc, Kind::OrderedSet, kind, elements),
        CollectionOperation::Including
        | CollectionOperation::Append
        | CollectionOperation::Prepend => {
            grown_by(alloc, operation, kind, elements, argument(args))
        }
        CollectionOperation::Union => united(alloc, kind, elements, argument(args)),
        _ => unreachable!(),
    }
}

/// An operation on a collection, with its arguments (OCL 2.4, section 11.7): what its definition says, and invalid where an argument is
/// not of the kind that it asks for. It takes the time of its operands' elements, with a logarithm where repeats or an order matter.
pub fn on_collection(
    alloc: Global,
    operation: CollectionOperation,
    kind: Kind,
    elements: Seq<Datum>,
    args: Seq<Out>,
) -> Result<Out, NoMemory>
    ensures { IfOk result (λ out. out ≡ on_collection operation (record { kind = kind; elements = elements }) args) }
{
    if is_reading(operation) {
        read(alloc, operation, kind, elements.as_slice(), args)
    } else {
        made(alloc, operation, kind, elements, args)
    }
}

/// The same on a collection that stays: it is copied only where the operation makes its result of it.
pub(crate) fn on_lent_collection(
    alloc: Global,
    operation: CollectionOperation,
    kind: Kind,
    elements: &[Datum],
    args: Seq<Out>,
) -> Result<Out, NoMemory>
    ensures { IfOk result (λ out. out ≡ on_collection operation (record { kind = kind; elements = elements.now }) args) }
{
    if is_reading(operation) {
        read(alloc, operation, kind, elements, args)
    } else {
        made(
            alloc,
            operation,
            kind,
            duplicate_data(alloc, elements)?,
            args,
        )
    }
}
