ghost use Rattle.std.specs.Prelude.{◌≡◌, ◌≢◌, ◌⊎◌, ◌↔◌, ◌<◌, ℕ, List, All, Some, None, IsTrue, IfOk, OnOk, length, map, slice_get};
ghost use Rattle.qv_syntax.specs.declared.ty.Ty.TheVariants as types;
ghost use Rattle.qv_syntax.specs.declared.typed.Typed.{Typed as Tree};
ghost use Rattle.qv_syntax.specs.Types.{AreRelated};
ghost use Rattle.ocl_types.specs.HasType.{HasTree};
ghost use Rattle.script_scopes.specs.Conjuncts.{equation_of};
ghost use Rattle.ocl_environments.specs.declared.fault.TypeFault.TheVariants.{WrongCount, ModelMix};
ghost use Rattle.ocl_environments.specs.Environments.{AreWell, is_over};
ghost use Rattle.ocl_environments.specs.Outcomes.{wrong_type as wrong};
ghost use Rattle.ocl_environments.specs.Written.{IfFault};
ghost use Rattle.qvtr_types.specs.Expressions.{HaveTypes, IsCondition, StandsInCondition, IsEquated, IsGiven, StandsInGiven, AreArguments, StandsInArguments};

use mof_metamodel::{MetaModel, Seq, Text, or_drop};
use ocl_environments::{Env, TypeError, TypeFault, are_related, wrong_type};
use ocl_types::{one_type_is_had, type_whole};
use qv_syntax::{Expr, Ty, Typed, Var};
use std::alloc::Global;

/// Refuses a type that isn't Boolean.
fn refuse_no_boolean(alloc: Global, metas: &[MetaModel], found: &Ty) -> Result<(), TypeError>
    ensures boolean { OnOk result (found.now ≡ types.Bool) }
    ensures fault { IfFault result (λ f. (found.now ≢ types.Bool) × (f ≡ wrong metas.now types.Bool found.now)) }
{
    match found {
        Ty::Bool => Ok(()),
        _ => {
            let fault = wrong_type(alloc, metas, &Ty::Bool, found)?;
            Err(TypeError::Fault(fault))
        }
    }
}

/// The tree of a condition (QVT 1.3, section 7.11.1.4): an expression that is a Boolean.
///
/// # Errors
///
/// A fault that stands in the expression, `WrongType` where it is no Boolean, and `NoMemory`.
pub fn type_condition(alloc: Global, env: &Env<'_>, e: &Expr) -> Result<Typed, TypeError>
    ensures is { IfOk result (λ tree. IsCondition env.now e.now tree) }
    ensures fault { IfFault result (StandsInCondition env.now e.now) }
{
    let part = type_whole(alloc, env, e)?;
    or_drop!(refuse_no_boolean(alloc, env.metas(), &part.ty); part);
    Ok(part.into_tree())
}

/// The tree of the expression of a conjunct `v = e`, which is a condition: the variable may be compared with it.
///
/// # Errors
///
/// As those of `type_condition` of the conjunct.
pub fn type_equation(
    alloc: Global,
    env: &Env<'_>,
    conjunct: &Expr,
    e: &Expr,
) -> Result<Typed, TypeError>
    requires { (v : List ℕ) × (equation_of conjunct.now ≡ Some (v, e.now)) }
    ensures is { IfOk result (λ tree. HasTree env.now e.now tree) }
    ensures equated { IfOk result (λ tree. (v : List ℕ) → equation_of conjunct.now ≡ Some (v, e.now) → IsEquated env.now v e.now tree) }
    ensures condition { OnOk result ((tree : Tree) × IsCondition env.now conjunct.now tree) }
    ensures fault { IfFault result (StandsInCondition env.now conjunct.now) }
{
    one_type_is_had(env);
    let condition = type_condition(alloc, env, conjunct)?;
    drop(condition);
    let part = type_whole(alloc, env, e)?;
    Ok(part.into_tree())
}

/// Refuses a type that isn't related to the one that is asked for.
pub(crate) fn refuse_unrelated(
    alloc: Global,
    metas: &[MetaModel],
    wanted: &Ty,
    found: &Ty,
) -> Result<(), TypeError>
    requires well { AreWell metas.now }
    requires wanted { IsTrue (is_over metas.now wanted.now) }
    requires found { IsTrue (is_over metas.now found.now) }
    ensures related { OnOk result (AreRelated metas.now found.now wanted.now) }
    ensures fault { IfFault result (λ f. (¬ AreRelated metas.now found.now wanted.now) × (f ≡ wrong metas.now wanted.now found.now)) }
{
    if are_related(metas, found, wanted) {
        return Ok(());
    }
    let fault = wrong_type(alloc, metas, wanted, found)?;
    Err(TypeError::Fault(fault))
}

/// Whether objects of a model, if it is one, may stand where those of another are asked for.
fn is_model(wanted: Option<u32>, found: Option<u32>) -> bool
    ensures { IsTrue result ↔ ((found ≡ None) ⊎ (found ≡ wanted)) }
{
    match (found, wanted) {
        (None, _) => true,
        (Some(m), Some(n)) => m == n,
        (Some(_), None) => false,
    }
}

/// Refuses objects of another model, at the place of this name.
fn refuse_other_model(
    alloc: Global,
    wanted: Option<u32>,
    found: Option<u32>,
    name: &Text,
) -> Result<(), TypeError>
    ensures same { OnOk result ((found ≡ None) ⊎ (found ≡ wanted)) }
    ensures fault { IfFault result (λ f. ((m : ℕ) × (found ≡ Some m) × (wanted ≢ Some m)) × (f ≡ ModelMix name.now)) }
{
    if is_model(wanted, found) {
        return Ok(());
    }
    let text = name.duplicate(alloc)?;
    Err(TypeError::Fault(TypeFault::ModelMix(text)))
}

/// A place that asks for a type and the model of objects, with the name of what asks.
#[derive(Clone, Copy)]
pub struct WantedValue<'a> {
    pub ty: &'a Ty,
    pub model: Option<u32>,
    pub name: &'a Text,
}

/// The tree of an expression whose value is given where a type and a model are asked for: it has the type, or a related class, and no
/// other model.
///
/// # Errors
///
/// A fault that stands in the expression; `WrongType` and `ModelMix` where it doesn't fit; any one where several stand; and `NoMemory`.
pub fn type_given(
    alloc: Global,
    env: &Env<'_>,
    wanted: &WantedValue<'_>,
    e: &Expr,
) -> Result<Typed, TypeError>
    requires { IsTrue (is_over env.now.metas wanted.now.ty.now) }
    ensures is { IfOk result (λ tree. IsGiven env.now (record { ty = wanted.now.ty.now; model = wanted.now.model }) e.now tree) }
    ensures fault { IfFault result (StandsInGiven env.now (record { ty = wanted.now.ty.now; model = wanted.now.model }) wanted.now.name.now e.now) }
{
    let part = type_whole(alloc, env, e)?;
    or_drop!(refuse_unrelated(alloc, env.metas(), wanted.ty, &part.ty); part);
    or_drop!(refuse_other_model(alloc, wanted.model, part.model, wanted.name); part);
    Ok(part.into_tree())
}

/// The trees of arguments, of which there are as many as roots.
fn type_each(
    alloc: Global,
    env: &Env<'_>,
    called: &Text,
    roots: &[&Var],
    args: &[Expr],
) -> Result<Seq<Typed>, TypeError>
    requires count { length args.now ≡ length roots.now }
    requires types { HaveTypes env.now.metas (map (λ r. r.now) roots.now) }
    ensures are { IfOk result (λ trees. AreArguments env.now (map (λ r. r.now) roots.now) args.now trees) }
    ensures fault { IfFault result (StandsInArguments env.now called.now (map (λ r. r.now) roots.now) args.now) }
{
    let mut trees = Seq::new(alloc);
    for (place, e) in args.iter().enumerate() {
        let root = roots[place];
        let wanted = WantedValue {
            ty: &root.ty,
            model: root.model,
            name: called,
        };
        let tree = or_drop!(type_given(alloc, env, &wanted, e); trees);
        or_drop!(trees.push(tree); trees);
    }
    Ok(trees)
}

/// The trees of the arguments of a call, one for each root of the called relation, of its type and model (QVT 1.3, section 7.11.1.4).
///
/// # Errors
///
/// `WrongCount` with the name of the called relation where there are more or fewer arguments than roots; else as those of `type_given`.
pub fn type_arguments(
    alloc: Global,
    env: &Env<'_>,
    called: &Text,
    roots: &[&Var],
    args: &[Expr],
) -> Result<Seq<Typed>, TypeError>
    requires { HaveTypes env.now.metas (map (λ r. r.now) roots.now) }
    ensures are { IfOk result (λ trees. AreArguments env.now (map (λ r. r.now) roots.now) args.now trees) }
    ensures fault { IfFault result (StandsInArguments env.now called.now (map (λ r. r.now) roots.now) args.now) }
{
    if args.len() != roots.len() {
        let text = called.duplicate(alloc)?;
        return Err(TypeError::Fault(TypeFault::WrongCount(text)));
    }
    type_each(alloc, env, called, roots, args)
}
