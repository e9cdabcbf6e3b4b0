ghost use Rattle.std.specs.Prelude.{◌≡◌, false, IfOk, OnOk, Some, is_some};
ghost use Rattle.ocl_environments.specs.Environments.{is_bound};
ghost use Rattle.ocl_environments.specs.Scopes.{in_reach};
ghost use Rattle.mof_metamodel.specs.Giving.{Gives};
ghost use Rattle.ocl_environments.specs.Written.{fault_in};
ghost use Rattle.ocl_environments.specs.Agreement.{collection_parts as parts_meant};
ghost use Rattle.ocl_types.specs.TypingCollections.{kind_of as kind_meant, element_of as element_meant, gathered as gathered_from, given_elements as elements_given, given_type as type_given, given_types as types_given, summed as sum_asks, result_model as model_left, called_on as collection_called, operated_on as operated, collection_operation_by, collection_operation_rule as operation_meaning, variable_type as type_of_variable, iterator_variable as variable_of_iterator, iterated_type as iteration_gives, iterated_model as model_iterated, iterated as iteration, condition as asks_condition, iterator_rule as iterator_meaning};

use crate::collection_operations::{Argument, collection_operation_named, collection_row};
use crate::operations::{IteratorResult, iterator_named, iterator_row};
use crate::signatures::{
    argument_count, collected_kind, collection, collection_result, is_of_kind,
};
use crate::typing_scopes::declared_type;
use crate::typing_steps::counted;
use mof_metamodel::{Boxed, MetaModel, NoMemory, Seq, Text, or_drop};
use ocl_environments::{
    CallsSoFar, Env, Scope, TypeError, TypedPart, Variable, collection_parts, exactly, fits,
    free_name, model_for, one_model, same_kind, same_type, trees_of, unknown_name, upper,
    with_models, wrong_type,
};
use qv_syntax::{Call, CollectionOperation, IteratorKind, Kind, Operation, Ty, TypeTree};
use std::alloc::Global;

/// The kind of a collection; a single value is taken as a Set.
fn kind_of(ty: &Ty) -> Kind
    ensures { result ≡ kind_meant ty.now }
{
    match collection_parts(ty) {
        Some((kind, _)) => kind,
        None => Kind::Set,
    }
}

/// The type of the elements.
pub(crate) fn element_of(alloc: Global, ty: &Ty) -> Result<Ty, NoMemory>
    ensures { IfOk result (λ t. t ≡ element_meant ty.now) }
{
    match collection_parts(ty) {
        Some((_, inner)) => inner.duplicate(alloc),
        None => ty.duplicate(alloc),
    }
}

/// Whether a type is one of collections.
fn is_collection(ty: &Ty) -> bool
    ensures { result ≡ is_some (parts_meant ty.now) }
{
    collection_parts(ty).is_some()
}

/// The value as a collection.
fn gathered(alloc: Global, called: CallsSoFar) -> Result<CallsSoFar, NoMemory>
    ensures { IfOk result (λ c. c ≡ gathered_from called) }
{
    if is_collection(&called.ty) {
        return Ok(called);
    }
    let ty = collection(alloc, Kind::Set, &called.ty)?;
    let model = called.model;
    let call = Call::Operation {
        operation: Operation::AsSingletonSet,
        args: Seq::new(alloc),
    };
    called.and_called(alloc, call, ty, model)
}

/// Called on the collection, with a result of this type, whose objects are of this model.
fn called_on(
    alloc: Global,
    called: CallsSoFar,
    call: Call,
    ty: Ty,
    model: Option<u32>,
) -> Result<CallsSoFar, NoMemory>
    ensures { IfOk result (λ c. c ≡ collection_called called call ty model) }
{
    let model = model_for(&ty, model);
    gathered(alloc, called)?.and_called(alloc, call, ty, model)
}

/// The type to which the elements and those of a given collection conform.
fn given_elements(
    alloc: Global,
    metas: &[MetaModel],
    same: bool,
    kind: Kind,
    of: &Ty,
    ty: &Ty,
) -> Result<Ty, TypeError>
    ensures { Gives fault_in (λ x. x) result (elements_given metas.now same kind of.now ty.now (parts_meant ty.now)) }
{
    match collection_parts(ty) {
        Some((other, inner)) => {
            if same && !same_kind(kind, other) {
                let wanted = collection(alloc, kind, of)?;
                return Err(TypeError::Fault(wrong_type(alloc, metas, &wanted, ty)?));
            }
            upper(alloc, metas, of, inner)
        }
        None => {
            let wanted = collection(alloc, kind, of)?;
            Err(TypeError::Fault(wrong_type(alloc, metas, &wanted, ty)?))
        }
    }
}

/// The type to which the elements of a collection and what is given of this type conform.
fn given_type(
    alloc: Global,
    metas: &[MetaModel],
    argument: Argument,
    kind: Kind,
    of: &Ty,
    ty: &Ty,
) -> Result<Ty, TypeError>
    ensures { Gives fault_in (λ x. x) result (type_given metas.now argument kind of.now ty.now) }
{
    match argument {
        Argument::Nothing => Ok(of.duplicate(alloc)?),
        Argument::Element => upper(alloc, metas, of, ty),
        Argument::Collection => given_elements(alloc, metas, false, kind, of, ty),
        Argument::SameKind => given_elements(alloc, metas, true, kind, of, ty),
        Argument::Index => {
            exactly(alloc, metas, &Ty::Int, ty)?;
            Ok(of.duplicate(alloc)?)
        }
    }
}

/// The same of a list of arguments, of which the first counts.
fn given_types(
    alloc: Global,
    metas: &[MetaModel],
    argument: Argument,
    kind: Kind,
    of: &Ty,
    args: &[TypedPart],
) -> Result<Ty, TypeError>
    ensures { Gives fault_in (λ x. x) result (types_given metas.now argument kind of.now args.now) }
{
    match args {
        [] => Ok(of.duplicate(alloc)?),
        [arg, ..] => given_type(alloc, metas, argument, kind, of, &arg.ty),
    }
}

/// `sum` asks for Integers.
fn summed(
    alloc: Global,
    metas: &[MetaModel],
    operation: CollectionOperation,
    of: &Ty,
) -> Result<(), TypeError>
    ensures { Gives fault_in (λ x. x) result (sum_asks metas.now operation of.now) }
{
    match operation {
        CollectionOperation::Sum => exactly(alloc, metas, &Ty::Int, of),
        _ => Ok(()),
    }
}

/// The model of the result: `excluding` gives no new objects.
fn result_model(
    operation: CollectionOperation,
    model: Option<u32>,
    joined: Option<u32>,
) -> Option<u32>
    ensures { result ≡ model_left operation model joined }
{
    match operation {
        CollectionOperation::Excluding => model,
        _ => joined,
    }
}

/// An operation on a collection, of the type to which its elements and what is given conform.
fn operated_on(
    alloc: Global,
    called: CallsSoFar,
    operation: CollectionOperation,
    args: Seq<TypedPart>,
    upper: &Ty,
    joined: Option<u32>,
) -> Result<CallsSoFar, NoMemory>
    ensures { IfOk result (λ c. c ≡ operated called operation args (kind_meant called.ty) (element_meant called.ty) upper.now joined) }
{
    let of = or_drop!(element_of(alloc, &called.ty); called, args);
    let gives = collection_row(operation).result;
    let given = collection_result(alloc, gives, kind_of(&called.ty), &of, upper);
    drop(of);
    let ty = or_drop!(given; called, args);
    let model = result_model(operation, called.model, joined);
    let args = or_drop!(trees_of(alloc, args); called, ty);
    let call = Call::Collection { operation, args };
    called_on(alloc, called, call, ty, model)
}

/// An operation on a collection.
fn operate(
    alloc: Global,
    metas: &[MetaModel],
    name: &Text,
    called: CallsSoFar,
    args: Seq<TypedPart>,
    operation: CollectionOperation,
) -> Result<CallsSoFar, TypeError>
    ensures { Gives fault_in (λ x. x) result (collection_operation_by metas.now name.now called args (Some operation)) }
{
    let row = collection_row(operation);
    let kind = kind_of(&called.ty);
    if !is_of_kind(row.kinds, kind) {
        drop(called);
        drop(args);
        return Err(TypeError::Fault(unknown_name(alloc, name.as_str())?));
    }
    or_drop!(counted(alloc, name, argument_count(row.argument), args.as_slice()); called, args);
    let of = or_drop!(element_of(alloc, &called.ty); called, args);
    or_drop!(summed(alloc, metas, operation, &of); of, called, args);
    let upper =
        or_drop!(given_types(alloc, metas, row.argument, kind, &of, args.as_slice()); of, called, args);
    drop(of);
    let models = with_models(called.model, args.as_slice());
    let joined = or_drop!(one_model(alloc, name.as_str(), models); upper, called, args);
    let done = operated_on(alloc, called, operation, args, &upper, joined);
    drop(upper);
    Ok(done?)
}

/// `->name(args)`: an operation on the collection.
#[tactic(auto, unfolding(crate::specs::TypingCollections::collection_operation_rule))]
pub(crate) fn collection_operation_rule(
    alloc: Global,
    metas: &[MetaModel],
    name: &Text,
    called: CallsSoFar,
    args: Seq<TypedPart>,
) -> Result<CallsSoFar, TypeError>
    ensures { Gives fault_in (λ x. x) result (operation_meaning metas.now name.now called args) }
{
    match collection_operation_named(name.as_str()) {
        Some(operation) => operate(alloc, metas, name, called, args, operation),
        None => Err(TypeError::Fault(unknown_name(alloc, name.as_str())?)),
    }
}

/// The type of an iterator's variable: that of the elements, or a written one to which this conforms.
fn variable_type(
    alloc: Global,
    env: &Env<'_>,
    tree: &Option<TypeTree>,
    of: Ty,
) -> Result<Ty, TypeError>
    ensures { Gives fault_in (λ x. x) result (type_of_variable env.now tree.now of) }
{
    match tree {
        None => Ok(of),
        Some(tree) => {
            let ty = declared_type(alloc, env, tree)?;
            if !fits(env.metas(), &of, &ty) {
                return Err(TypeError::Fault(wrong_type(alloc, env.metas(), &ty, &of)?));
            }
            Ok(ty)
        }
    }
}

/// The same, with the names in reach within an expression.
fn variable_type_within(
    alloc: Global,
    scope: &Scope<'_>,
    tree: &Option<TypeTree>,
    of: Ty,
) -> Result<Ty, TypeError>
    ensures { Gives fault_in (λ x. x) result (type_of_variable (in_reach scope.now) tree.now of) }
{
    variable_type(alloc, scope.env(), tree, of)
}

/// The variable of an iterator over what was called so far.
#[tactic(auto, unfolding(crate::specs::TypingCollections::iterator_variable))]
pub(crate) fn iterator_variable(
    alloc: Global,
    scope: &Scope<'_>,
    name: &Text,
    tree: &Option<TypeTree>,
    called: &CallsSoFar,
) -> Result<Variable, TypeError>
    ensures given { Gives fault_in (λ x. x) result (variable_of_iterator (in_reach scope.now) name.now tree.now called.now) }
    ensures unbound { OnOk result (is_bound (in_reach scope.now) name.now ≡ false) }
{
    free_name(alloc, scope, name)?;
    let of = element_of(alloc, &called.ty)?;
    let ty = variable_type_within(alloc, scope, tree, of)?;
    Ok(Variable {
        ty,
        model: called.model,
    })
}

/// The type of an iterator's result, of that of its body.
fn iterated_type(
    alloc: Global,
    gives: IteratorResult,
    kind: Kind,
    of: &Ty,
    body: &Ty,
) -> Result<Ty, NoMemory>
    ensures { IfOk result (λ t. t ≡ iteration_gives gives kind of.now body.now) }
{
    match gives {
        IteratorResult::Same => collection(alloc, kind, of),
        IteratorResult::Collected => {
            let element = element_of(alloc, body)?;
            collection(alloc, collected_kind(kind), &element)
        }
        IteratorResult::Bool => Ok(Ty::Bool),
    }
}

/// The model of its objects, which are the collection's or the body's.
fn iterated_model(gives: IteratorResult, model: Option<u32>, body: Option<u32>) -> Option<u32>
    ensures { result ≡ model_iterated gives model body }
{
    match gives {
        IteratorResult::Collected => body,
        IteratorResult::Same | IteratorResult::Bool => model,
    }
}

/// An iterator over what was called so far.
fn iterated(
    alloc: Global,
    called: CallsSoFar,
    iterator: IteratorKind,
    variable: u32,
    body: TypedPart,
) -> Result<CallsSoFar, NoMemory>
    ensures { IfOk result (λ c. c ≡ iteration called iterator variable body) }
{
    let of = or_drop!(element_of(alloc, &called.ty); called, body);
    let gives = iterator_row(iterator).result;
    let given = iterated_type(alloc, gives, kind_of(&called.ty), &of, &body.ty);
    drop(of);
    let ty = or_drop!(given; called, body);
    let model = iterated_model(gives, called.model, body.model);
    let body = or_drop!(Boxed::new(alloc, body.into_tree()); called, ty);
    let call = Call::Iterator {
        iterator,
        variable,
        body,
    };
    called_on(alloc, called, call, ty, model)
}

/// A body that is a condition is a Boolean.
fn condition(
    alloc: Global,
    metas: &[MetaModel],
    conditional: bool,
    ty: &Ty,
) -> Result<(), TypeError>
    ensures { Gives fault_in (λ x. x) result (asks_condition metas.now conditional ty.now) }
{
    if conditional && !same_type(ty, &Ty::Bool) {
        return Err(TypeError::Fault(wrong_type(alloc, metas, &Ty::Bool, ty)?));
    }
    Ok(())
}

/// `->name(variable | body)`: an iterator, of its variable's number.
#[tactic(auto, unfolding(crate::specs::TypingCollections::iterator_rule))]
pub(crate) fn iterator_rule(
    alloc: Global,
    metas: &[MetaModel],
    name: &Text,
    variable: u32,
    called: CallsSoFar,
    body: TypedPart,
) -> Result<CallsSoFar, TypeError>
    ensures { Gives fault_in (λ x. x) result (iterator_meaning metas.now name.now variable called body) }
{
    match iterator_named(name.as_str()) {
        Some(iterator) => {
            or_drop!(condition(alloc, metas, iterator_row(iterator).conditional, &body.ty); called, body);
            Ok(iterated(alloc, called, iterator, variable, body)?)
        }
        None => {
            drop(called);
            drop(body);
            Err(TypeError::Fault(unknown_name(alloc, name.as_str())?))
        }
    }
}
