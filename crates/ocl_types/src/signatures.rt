ghost use Rattle.std.specs.Prelude.{◌≡◌, IfOk};
ghost use Rattle.ocl_types.specs.Signatures.{is_receiver as receives, parameter_count as counted, parameter_type as parameter, result_type as type_given, argument_count as arguments_of, is_ordered as ordered, is_of_kind as of_kind, collection_result as collection_gives, collected_kind as collected};

use crate::collection_operations::{Argument, CollectionResult, Kinds};
use crate::operations::{OperationResult, Parameters, Receivers};
use mof_metamodel::{Boxed, NoMemory};
use ocl_environments::same_type;
use qv_syntax::{Kind, Ty};
use std::alloc::Global;

/// Whether values of this type are among the receivers of an operation.
pub(crate) fn is_receiver(receivers: Receivers, ty: &Ty) -> bool
    ensures { result ≡ receives receivers ty.now }
{
    match receivers {
        Receivers::Int => same_type(ty, &Ty::Int),
        Receivers::IntOrBool => same_type(ty, &Ty::Int) || same_type(ty, &Ty::Bool),
        Receivers::Str => same_type(ty, &Ty::Str),
        Receivers::Any => true,
    }
}

/// How many arguments an operation on single values has.
pub(crate) fn parameter_count(parameters: Parameters) -> usize
    ensures { result ≡ counted parameters }
{
    match parameters {
        Parameters::Nothing => 0,
        Parameters::Int | Parameters::Str => 1,
        Parameters::TwoInts => 2,
    }
}

/// The type of each of its arguments, where there is one.
pub(crate) fn parameter_type(parameters: Parameters) -> Ty
    ensures { result ≡ parameter parameters }
{
    match parameters {
        Parameters::Nothing | Parameters::Int | Parameters::TwoInts => Ty::Int,
        Parameters::Str => Ty::Str,
    }
}

/// A collection type.
pub(crate) fn collection(alloc: Global, kind: Kind, of: &Ty) -> Result<Ty, NoMemory>
    ensures { IfOk result (λ t. t ≡ Ty.Coll kind of.now) }
{
    let of = of.duplicate(alloc)?;
    Ok(Ty::Coll(kind, Boxed::new(alloc, of)?))
}

/// The type of its result, of that of the value.
pub(crate) fn result_type(alloc: Global, gives: OperationResult, ty: &Ty) -> Result<Ty, NoMemory>
    ensures { IfOk result (λ t. t ≡ type_given gives ty.now) }
{
    match gives {
        OperationResult::Int => Ok(Ty::Int),
        OperationResult::Str => Ok(Ty::Str),
        OperationResult::Bool => Ok(Ty::Bool),
        OperationResult::SetOfIt => collection(alloc, Kind::Set, ty),
    }
}

/// How many arguments an operation on a collection has.
pub(crate) fn argument_count(argument: Argument) -> usize
    ensures { result ≡ arguments_of argument }
{
    match argument {
        Argument::Nothing => 0,
        Argument::Element | Argument::Collection | Argument::SameKind | Argument::Index => 1,
    }
}

/// Whether the elements of a kind stand in an order.
fn is_ordered(kind: Kind) -> bool
    ensures { result ≡ ordered kind }
{
    match kind {
        Kind::Set | Kind::Bag => false,
        Kind::Sequence | Kind::OrderedSet => true,
    }
}

/// Whether collections of this kind are among the receivers of an operation.
pub(crate) fn is_of_kind(kinds: Kinds, kind: Kind) -> bool
    ensures { result ≡ of_kind kinds kind }
{
    match kinds {
        Kinds::Any => true,
        Kinds::Set => match kind {
            Kind::Set => true,
            Kind::Bag | Kind::Sequence | Kind::OrderedSet => false,
        },
        Kinds::Ordered => is_ordered(kind),
    }
}

/// The type of the result of an operation on a collection, of the type of its elements, and of that to which these and
/// what is given conform.
pub(crate) fn collection_result(
    alloc: Global,
    gives: CollectionResult,
    kind: Kind,
    of: &Ty,
    upper: &Ty,
) -> Result<Ty, NoMemory>
    ensures { IfOk result (λ t. t ≡ collection_gives gives kind of.now upper.now) }
{
    match gives {
        CollectionResult::Int => Ok(Ty::Int),
        CollectionResult::Bool => Ok(Ty::Bool),
        CollectionResult::Element => of.duplicate(alloc),
        CollectionResult::Same => collection(alloc, kind, of),
        CollectionResult::Wider => collection(alloc, kind, upper),
        CollectionResult::Set => collection(alloc, Kind::Set, of),
        CollectionResult::Bag => collection(alloc, Kind::Bag, of),
        CollectionResult::Sequence => collection(alloc, Kind::Sequence, of),
        CollectionResult::OrderedSet => collection(alloc, Kind::OrderedSet, of),
    }
}

/// The kind of collection that `collect` gives.
pub(crate) fn collected_kind(kind: Kind) -> Kind
    ensures { result ≡ collected kind }
{
    match kind {
        Kind::Set | Kind::Bag => Kind::Bag,
        Kind::Sequence | Kind::OrderedSet => Kind::Sequence,
    }
}
