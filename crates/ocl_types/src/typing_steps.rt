ghost use Rattle.std.specs.Prelude.{◌≡◌, ◌<◌, Some, IfSome, IfOk};
ghost use Rattle.std.specs.Option.{option_map, option_and_then};
ghost use Rattle.mof_metamodel.specs.Metamodels.{prop_count, prop_number, class_count};
ghost use Rattle.ocl_environments.specs.Environments.{class_of as class_meant};
ghost use Rattle.ocl_environments.specs.Scopes.{in_reach};
ghost use Rattle.mof_metamodel.specs.Giving.{Gives};
ghost use Rattle.ocl_environments.specs.Written.{fault_in};
ghost use Rattle.ocl_types.specs.TypingSteps.{described as described_prop, class_property as property_of_class, property_of as property_meant, navigated_to, collected_from, property_rule as property_meaning, each_exactly as all_exactly, counted as has_count, called_with as value_called_with, operation_by, operation_rule as operation_meaning, class_at_path as path_class, is_of_meta as meta_is, tested as test_gives, tested_with as test_meaning, class_operation_rule as class_operation_meaning, model_or, extent_rule as extent_meaning, each_fits as all_fits, query_by, query_rule as query_meaning};

use crate::operations::{
    ClassResult, class_operation_named, class_row, operation_named, operation_row,
};
use crate::signatures::{
    collected_kind, is_receiver, parameter_count, parameter_type, result_type,
};
use mof_metamodel::{Boxed, ClassId, MetaModel, NoMemory, PropId, Seq, Text, or_drop};
use ocl_environments::{
    CallsSoFar, Env, Scope, Signature, TypeError, TypeFault, TypedPart, class_of, collection_parts,
    exactly, fits, model_for, navigated, path_text, prop_type, trees_of, unknown_name, values,
    wrong_count, wrong_type,
};
use qv_syntax::{Call, ClassOperation, Kind, Node, Operation, Path, Ty, Values};
use std::alloc::Global;

/// What navigation to a property gives, and the type of one value.
fn described(m: u32, meta: &MetaModel, p: PropId) -> (PropId, Values, Ty)
    requires { p.0 < prop_count meta.now }
    ensures { described_prop m meta.now p.0 ≡ Some result }
{
    (p, values(meta, p), prop_type(m, meta, p))
}

/// The property of this name of a class of a metamodel.
fn prop_named(meta: &MetaModel, c: ClassId, name: &Text) -> Option<PropId>
    requires { c.0 < class_count meta.now }
    ensures number { option_map (λ p. p.0) result ≡ prop_number meta.now c.0 name.now }
    ensures within { IfSome result (λ p. p.0 < prop_count meta.now) }
{
    meta.prop_of(c, name.as_str())
}

/// What navigation to the property of this name gives.
fn described_in(m: u32, meta: &MetaModel, c: ClassId, name: &Text) -> Option<(PropId, Values, Ty)>
    requires { c.0 < class_count meta.now }
    ensures { result ≡ option_and_then (described_prop m meta.now) (prop_number meta.now c.0 name.now) }
{
    match prop_named(meta, c, name) {
        Some(p) => Some(described(m, meta, p)),
        None => None,
    }
}

/// The property of this name of a class.
fn class_property(
    metas: &[MetaModel],
    m: u32,
    c: ClassId,
    name: &Text,
) -> Option<(PropId, Values, Ty)>
    ensures { result ≡ property_of_class metas.now m c name.now }
{
    let i = m as usize;
    if i < metas.len() && c.0 < metas[i].class_count() {
        described_in(m, &metas[i], c, name)
    } else {
        None
    }
}

/// The property of this name of a type, if it is a class that has it.
fn property_of(metas: &[MetaModel], ty: &Ty, name: &Text) -> Option<(PropId, Values, Ty)>
    ensures { result ≡ property_meant metas.now ty.now name.now }
{
    match class_of(ty) {
        Some((m, c)) => class_property(metas, m, c, name),
        None => None,
    }
}

/// Navigation to a property of an object.
fn navigate(
    alloc: Global,
    name: &Text,
    called: CallsSoFar,
    property: Option<(PropId, Values, Ty)>,
) -> Result<CallsSoFar, TypeError>
    ensures { Gives fault_in (λ x. x) result (navigated_to name.now called property) }
{
    match property {
        Some((prop, values, ty)) => {
            let model = model_for(&ty, called.model);
            let reached = navigated(alloc, values, ty)?;
            let call = Call::Property { prop, values };
            Ok(called.and_called(alloc, call, reached, model)?)
        }
        None => Err(TypeError::Fault(unknown_name(alloc, name.as_str())?)),
    }
}

/// Navigation to a property of each object of a collection.
fn collect(
    alloc: Global,
    name: &Text,
    called: CallsSoFar,
    kind: Kind,
    property: Option<(PropId, Values, Ty)>,
) -> Result<CallsSoFar, TypeError>
    ensures { Gives fault_in (λ x. x) result (collected_from name.now called kind property) }
{
    match property {
        Some((prop, values, ty)) => {
            let model = model_for(&ty, called.model);
            let reached = Ty::Coll(collected_kind(kind), Boxed::new(alloc, ty)?);
            let call = Call::CollectProperty { prop, values };
            Ok(called.and_called(alloc, call, reached, model)?)
        }
        None => Err(TypeError::Fault(unknown_name(alloc, name.as_str())?)),
    }
}

/// `.name` on an object, or on each object of a collection.
#[tactic(auto, unfolding(crate::specs::TypingSteps::property_rule))]
pub(crate) fn property_rule(
    alloc: Global,
    metas: &[MetaModel],
    name: &Text,
    called: CallsSoFar,
) -> Result<CallsSoFar, TypeError>
    ensures { Gives fault_in (λ x. x) result (property_meaning metas.now name.now called) }
{
    match collection_parts(&called.ty) {
        Some((kind, inner)) => {
            let property = property_of(metas, inner, name);
            collect(alloc, name, called, kind, property)
        }
        None => {
            let property = property_of(metas, &called.ty, name);
            navigate(alloc, name, called, property)
        }
    }
}

/// Called on the value, with a result of this type, whose objects are of the value's model.
fn called_with(
    alloc: Global,
    called: CallsSoFar,
    call: Call,
    ty: Ty,
) -> Result<CallsSoFar, NoMemory>
    ensures { IfOk result (λ c. c ≡ value_called_with called call ty) }
{
    let model = model_for(&ty, called.model);
    called.and_called(alloc, call, ty, model)
}

/// Each argument has this very type.
fn each_exactly(
    alloc: Global,
    metas: &[MetaModel],
    wanted: &Ty,
    args: &[TypedPart],
) -> Result<(), TypeError>
    ensures { Gives fault_in (λ x. x) result (all_exactly metas.now wanted.now args.now) }
{
    for arg in args {
        exactly(alloc, metas, wanted, &arg.ty)?;
    }
    Ok(())
}

/// So many arguments.
pub(crate) fn counted(
    alloc: Global,
    name: &Text,
    count: usize,
    args: &[TypedPart],
) -> Result<(), TypeError>
    ensures { Gives fault_in (λ x. x) result (has_count name.now count args.now) }
{
    if args.len() == count {
        Ok(())
    } else {
        Err(TypeError::Fault(wrong_count(alloc, name.as_str())?))
    }
}

/// An operation on the value.
fn operate(
    alloc: Global,
    metas: &[MetaModel],
    name: &Text,
    called: CallsSoFar,
    args: Seq<TypedPart>,
    operation: Operation,
) -> Result<CallsSoFar, TypeError>
    ensures { Gives fault_in (λ x. x) result (operation_by metas.now name.now called args (Some operation)) }
{
    let row = operation_row(operation);
    if !is_receiver(row.receivers, &called.ty) {
        drop(called);
        drop(args);
        return Err(TypeError::Fault(unknown_name(alloc, name.as_str())?));
    }
    or_drop!(counted(alloc, name, parameter_count(row.parameters), args.as_slice()); called, args);
    let asked = parameter_type(row.parameters);
    let fits = each_exactly(alloc, metas, &asked, args.as_slice());
    drop(asked);
    or_drop!(fits; called, args);
    let ty = or_drop!(result_type(alloc, row.result, &called.ty); called, args);
    let args = or_drop!(trees_of(alloc, args); called, ty);
    let call = Call::Operation { operation, args };
    Ok(called_with(alloc, called, call, ty)?)
}

/// `.name(args)`: an operation on the value.
#[tactic(auto, unfolding(crate::specs::TypingSteps::operation_rule))]
pub(crate) fn operation_rule(
    alloc: Global,
    metas: &[MetaModel],
    name: &Text,
    called: CallsSoFar,
    args: Seq<TypedPart>,
) -> Result<CallsSoFar, TypeError>
    ensures { Gives fault_in (λ x. x) result (operation_meaning metas.now name.now called args) }
{
    match operation_named(name.as_str()) {
        Some(operation) => operate(alloc, metas, name, called, args, operation),
        None => {
            drop(called);
            drop(args);
            Err(TypeError::Fault(unknown_name(alloc, name.as_str())?))
        }
    }
}

/// The class that a path names alone.
fn class_at_path(alloc: Global, env: &Env<'_>, path: &Path) -> Result<(u32, ClassId), TypeError>
    ensures { Gives fault_in (λ x. x) result (path_class env.now path.now) }
{
    match env.named_class(path) {
        Some(class) => Ok(class),
        None => Err(TypeError::Fault(TypeFault::UnknownName(path_text(alloc, path)?))),
    }
}

/// Whether a type is a class of this metamodel.
fn is_of_meta(m: u32, ty: &Ty) -> bool
    ensures { result ≡ meta_is m (class_meant ty.now) }
{
    match class_of(ty) {
        Some((n, _)) => n == m,
        None => false,
    }
}

/// The type of a test's result, or of a cast's.
fn tested(gives: ClassResult, class: (u32, ClassId)) -> Ty
    ensures { result ≡ test_gives gives class }
{
    match gives {
        ClassResult::Bool => Ty::Bool,
        ClassResult::Object => Ty::Class(class.0, class.1),
    }
}

/// A test or a cast with a class, which is one of the object's metamodel.
fn tested_with(
    alloc: Global,
    metas: &[MetaModel],
    called: CallsSoFar,
    operation: ClassOperation,
    class: (u32, ClassId),
) -> Result<CallsSoFar, TypeError>
    ensures { Gives fault_in (λ x. x) result (test_meaning metas.now called operation class) }
{
    if !is_of_meta(class.0, &called.ty) {
        let wanted = Ty::Class(class.0, class.1);
        let fault = wrong_type(alloc, metas, &wanted, &called.ty);
        drop(wanted);
        drop(called);
        return Err(TypeError::Fault(fault?));
    }
    let ty = tested(class_row(operation).result, class);
    let call = Call::Class {
        operation,
        class: class.1,
    };
    Ok(called_with(alloc, called, call, ty)?)
}

/// `.name(C)`: a type test or a cast.
#[tactic(auto, unfolding(crate::specs::TypingSteps::class_operation_rule))]
pub(crate) fn class_operation_rule(
    alloc: Global,
    scope: &Scope<'_>,
    name: &Text,
    path: &Path,
    called: CallsSoFar,
) -> Result<CallsSoFar, TypeError>
    ensures { Gives fault_in (λ x. x) result (class_operation_meaning (in_reach scope.now) name.now path.now called) }
{
    match class_operation_named(name.as_str()) {
        Some(operation) => {
            let class = or_drop!(class_at_path(alloc, scope.env(), path); called);
            tested_with(alloc, scope.env().metas(), called, operation, class)
        }
        None => {
            drop(called);
            Err(TypeError::Fault(unknown_name(alloc, name.as_str())?))
        }
    }
}

/// Each argument conforms to the type of its parameter.
fn each_fits(
    alloc: Global,
    metas: &[MetaModel],
    params: &[Ty],
    args: &[TypedPart],
) -> Result<(), TypeError>
    ensures { Gives fault_in (λ x. x) result (all_fits metas.now params.now args.now) }
{
    match params {
        [] => Ok(()),
        [ty, params @ ..] => match args {
            [] => Ok(()),
            [arg, args @ ..] => {
                if !fits(metas, &arg.ty, ty) {
                    return Err(TypeError::Fault(wrong_type(alloc, metas, ty, &arg.ty)?));
                }
                each_fits(alloc, metas, params, args)
            }
        },
    }
}

/// A call of the query of this number.
fn call_query(
    alloc: Global,
    metas: &[MetaModel],
    name: &Text,
    args: Seq<TypedPart>,
    number: u32,
    signature: &Signature,
) -> Result<TypedPart, TypeError>
    ensures { Gives fault_in (λ x. x) result (query_by metas.now name.now args (Some number) (Some signature.now)) }
{
    let params = signature.params.as_slice();
    counted(alloc, name, params.len(), args.as_slice())?;
    each_fits(alloc, metas, params, args.as_slice())?;
    let ty = signature.result.duplicate(alloc)?;
    let args = trees_of(alloc, args)?;
    Ok(TypedPart {
        ty,
        model: None,
        node: Node::Query {
            query: number,
            args,
        },
    })
}

/// `name(args)`: a call of a query.
#[tactic(auto, unfolding(crate::specs::TypingSteps::query_rule))]
pub(crate) fn query_rule(
    alloc: Global,
    scope: &Scope<'_>,
    name: &Text,
    args: Seq<TypedPart>,
) -> Result<TypedPart, TypeError>
    ensures { Gives fault_in (λ x. x) result (query_meaning (in_reach scope.now) name.now args) }
{
    match scope.env().query(name) {
        Some((number, signature)) => call_query(
            alloc,
            scope.env().metas(),
            name,
            args,
            number,
            signature,
        ),
        None => Err(TypeError::Fault(unknown_name(alloc, name.as_str())?)),
    }
}

/// The model, or the fault that there is none, or more than one.
fn model_found(alloc: Global, path: &Path, model: Option<u32>) -> Result<u32, TypeError>
    ensures { Gives fault_in (λ x. x) result (model_or path.now model) }
{
    match model {
        Some(model) => Ok(model),
        None => Err(TypeError::Fault(TypeFault::ModelMix(path_text(alloc, path)?))),
    }
}

/// `C.allInstances()`: the objects of the one model that has the metamodel of the class.
#[tactic(auto, unfolding(crate::specs::TypingSteps::extent_rule))]
pub(crate) fn extent_rule(
    alloc: Global,
    scope: &Scope<'_>,
    path: &Path,
) -> Result<TypedPart, TypeError>
    ensures { Gives fault_in (λ x. x) result (extent_meaning (in_reach scope.now) path.now) }
{
    let (meta, class) = class_at_path(alloc, scope.env(), path)?;
    let model = model_found(alloc, path, scope.env().only_model(meta))?;
    let of = Boxed::new(alloc, Ty::Class(meta, class))?;
    Ok(TypedPart {
        ty: Ty::Coll(Kind::Set, of),
        model: Some(model),
        node: Node::Extent { model, class },
    })
}
