//! Variables that stand alone as arguments of calls (QVT 1.3, section 7.11.1.4): their types are those of the roots in whose places they
//! stand, or related.
ghost use Rattle.std.specs.Prelude.{◌≡◌, map, length, IsTrue, All, OnOk};
ghost use Rattle.ocl_environments.specs.Written.{IfFault};
ghost use Rattle.ocl_environments.specs.Environments.{AreWell, is_over};
ghost use Rattle.script_scopes.specs.Conjuncts.{clause_conjuncts as all_conjuncts};
ghost use Rattle.qvtr_types.specs.Expressions.{HaveTypes};
ghost use Rattle.qvtr_types.specs.ResolvedConjuncts.{reach_of, HasRootTypes};
ghost use Rattle.qvtr_types.specs.LoneArguments.{IsRelatedName, IsUnrelatedName, IsRelated, IsUnrelated, AreRelatedTo, HasUnrelated, CallRelated, CallUnrelated, CallsRelated, CallsUnrelated, IsUnrelatedFault};

use crate::equations::Variables;
use crate::expressions::refuse_unrelated;
use crate::resolved_conjuncts::ClauseScope;
use mof_metamodel::{MetaModel, Text};
use ocl_environments::TypeError;
use qv_syntax::{BlockTree, Expr, Var};
use script_scopes::{call_of, clause_conjuncts, name_alone};
use std::alloc::Global;

/// Refuses a name of a variable that isn't related to a root.
fn refuse_name(
    alloc: Global,
    metas: &[MetaModel],
    variables: &Variables<'_>,
    name: &Text,
    root: &Var,
) -> Result<(), TypeError>
    requires well { AreWell metas.now }
    requires types { HaveTypes metas.now variables.now.vars.now }
    requires count { length variables.now.vars.now ≡ length variables.now.numbers.now }
    requires root { IsTrue (is_over metas.now root.now.ty) }
    ensures related { OnOk result (IsRelatedName metas.now (map (λ e. e.0) variables.now.numbers.now) variables.now.vars.now name.now root.now) }
    ensures fault { IfFault result (IsUnrelatedName metas.now (map (λ e. e.0) variables.now.numbers.now) variables.now.vars.now name.now root.now) }
{
    match variables.numbers.find(name) {
        Some((place, _)) => { refuse_unrelated(alloc, metas, &root.ty, &variables.vars[place].ty) }
        None => Ok(()),
    }
}

/// Refuses an argument that is a variable alone which isn't related to the root in whose place it stands.
fn refuse_argument(
    alloc: Global,
    metas: &[MetaModel],
    variables: &Variables<'_>,
    arg: &Expr,
    root: &Var,
) -> Result<(), TypeError>
    requires well { AreWell metas.now }
    requires types { HaveTypes metas.now variables.now.vars.now }
    requires count { length variables.now.vars.now ≡ length variables.now.numbers.now }
    requires root { IsTrue (is_over metas.now root.now.ty) }
    ensures related { OnOk result (IsRelated metas.now (map (λ e. e.0) variables.now.numbers.now) variables.now.vars.now arg.now root.now) }
    ensures fault { IfFault result (IsUnrelated metas.now (map (λ e. e.0) variables.now.numbers.now) variables.now.vars.now arg.now root.now) }
{
    match name_alone(arg) {
        Some(name) => refuse_name(alloc, metas, variables, name, root),
        None => Ok(()),
    }
}

/// The same of the arguments of a call.
fn refuse_arguments(
    alloc: Global,
    metas: &[MetaModel],
    variables: &Variables<'_>,
    args: &[Expr],
    roots: &[&Var],
) -> Result<(), TypeError>
    requires well { AreWell metas.now }
    requires types { HaveTypes metas.now variables.now.vars.now }
    requires count { length variables.now.vars.now ≡ length variables.now.numbers.now }
    requires roots { HaveTypes metas.now (map (λ r. r.now) roots.now) }
    ensures related { OnOk result (AreRelatedTo metas.now (map (λ e. e.0) variables.now.numbers.now) variables.now.vars.now args.now (map (λ r. r.now) roots.now)) }
    ensures fault { IfFault result (HasUnrelated metas.now (map (λ e. e.0) variables.now.numbers.now) variables.now.vars.now args.now (map (λ r. r.now) roots.now)) }
{
    for (place, arg) in args.iter().enumerate() {
        if place >= roots.len() {
            return Ok(());
        }
        refuse_argument(alloc, metas, variables, arg, roots[place])?;
    }
    Ok(())
}

/// The same of a call of a name.
fn refuse_call(
    alloc: Global,
    scope: &ClauseScope<'_>,
    call: (&Text, &[Expr]),
) -> Result<(), TypeError>
    requires types { HaveTypes scope.now.env.now.metas scope.now.variables.vars.now }
    requires count { length scope.now.variables.vars.now ≡ length scope.now.variables.numbers.now }
    requires roots { HasRootTypes (reach_of scope.now) }
    ensures related { OnOk result (CallRelated (reach_of scope.now) scope.now.variables.vars.now call.entry.0.now call.entry.1.now) }
    ensures fault { IfFault result (CallUnrelated (reach_of scope.now) scope.now.variables.vars.now call.entry.0.now call.entry.1.now) }
{
    let (name, args) = call;
    match scope.relations.find(name) {
        Some((place, _)) => {
            let roots = scope.roots[place].as_slice();
            refuse_arguments(alloc, scope.env.metas(), &scope.variables, args, roots)
        }
        None => Ok(()),
    }
}

/// The same of a conjunct.
fn refuse_conjunct(alloc: Global, scope: &ClauseScope<'_>, conjunct: &Expr) -> Result<(), TypeError>
    requires types { HaveTypes scope.now.env.now.metas scope.now.variables.vars.now }
    requires count { length scope.now.variables.vars.now ≡ length scope.now.variables.numbers.now }
    requires roots { HasRootTypes (reach_of scope.now) }
    ensures related { OnOk result (CallsRelated (reach_of scope.now) scope.now.variables.vars.now conjunct.now) }
    ensures fault { IfFault result (CallsUnrelated (reach_of scope.now) scope.now.variables.vars.now conjunct.now) }
{
    match call_of(conjunct) {
        Some(call) => refuse_call(alloc, scope, call),
        None => Ok(()),
    }
}

/// The same of conjuncts one behind the other.
fn refuse_listed(
    alloc: Global,
    scope: &ClauseScope<'_>,
    conjuncts: &[&Expr],
) -> Result<(), TypeError>
    requires types { HaveTypes scope.now.env.now.metas scope.now.variables.vars.now }
    requires count { length scope.now.variables.vars.now ≡ length scope.now.variables.numbers.now }
    requires roots { HasRootTypes (reach_of scope.now) }
    ensures related { OnOk result (All (CallsRelated (reach_of scope.now) scope.now.variables.vars.now) (map (λ e. e.now) conjuncts.now)) }
    ensures fault { IfFault result (IsUnrelatedFault (reach_of scope.now) scope.now.variables.vars.now (map (λ e. e.now) conjuncts.now)) }
{
    for conjunct in conjuncts {
        refuse_conjunct(alloc, scope, conjunct)?;
    }
    Ok(())
}

/// Refuses a clause in which a variable stands alone as an argument in the place of a domain whose root has another type, and no related
/// class. It takes time in proportion to the clause.
///
/// # Errors
///
/// `WrongType` with the types of such a root and of the variable, any one where several are, and `NoMemory`.
pub(crate) fn refuse_lone_arguments(
    alloc: Global,
    scope: &ClauseScope<'_>,
    clause: &Option<BlockTree>,
) -> Result<(), TypeError>
    requires types { HaveTypes scope.now.env.now.metas scope.now.variables.vars.now }
    requires count { length scope.now.variables.vars.now ≡ length scope.now.variables.numbers.now }
    requires roots { HasRootTypes (reach_of scope.now) }
    ensures related { OnOk result (All (CallsRelated (reach_of scope.now) scope.now.variables.vars.now) (all_conjuncts clause.now)) }
    ensures fault { IfFault result (IsUnrelatedFault (reach_of scope.now) scope.now.variables.vars.now (all_conjuncts clause.now)) }
{
    let conjuncts = clause_conjuncts(alloc, clause)?;
    refuse_listed(alloc, scope, conjuncts.as_slice())
}
