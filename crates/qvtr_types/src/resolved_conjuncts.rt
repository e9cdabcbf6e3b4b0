//! The conjuncts of when and where clauses, resolved (QVT 1.3, section 7.11.1.4): calls of relations, equations and conditions.
ghost use Rattle.std.specs.Prelude.{◌≡◌, ◌<◌, [], map, length, Some, None, IfOk, OnOk};
ghost use Rattle.std.specs.Option.{option_map};
ghost use Rattle.ocl_environments.specs.Written.{IfFault};
ghost use Rattle.script_scopes.specs.Conjuncts.{call_of as called, equation_of, clause_conjuncts as all_conjuncts};
ghost use Rattle.qvtr_types.specs.Equations.{equation_test, with_given, given_by as given, equation_behind, IsSaid};
ghost use Rattle.qvtr_types.specs.ResolvedConjuncts.{reach_of, called_number, HasRootTypes, IsCallWith, StandsInCallWith, IsResolved, StandsInConjunct, AreResolved, StandsInOne};

use crate::equations::{Variables, next_equation};
use crate::expressions::{type_arguments, type_condition, type_equation};
use mof_metamodel::{NameTable, Seq, Text, or_drop};
use ocl_environments::{Env, TypeError};
use qv_syntax::{BlockTree, Conj, Expr, Var};
use script_scopes::{call_of, clause_conjuncts, numbered, place_of};
use std::alloc::Global;

/// What a clause of a relation is resolved over: what its expressions may name, the variables of the relation, the relations of the script
/// by their names, and the roots of the domains of each.
#[derive(Clone, Copy)]
pub(crate) struct ClauseScope<'a> {
    pub env: &'a Env<'a>,
    pub variables: Variables<'a>,
    pub relations: &'a NameTable<u32>,
    pub roots: &'a [Seq<&'a Var>],
}

/// A call of the relation of this number, whose domains have these roots.
fn resolve_call(
    alloc: Global,
    scope: &ClauseScope<'_>,
    call: (&Text, &[Expr]),
    place: usize,
) -> Result<Conj, TypeError>
    requires within { place < length scope.now.relations.now }
    requires roots { HasRootTypes (reach_of scope.now) }
    ensures is { IfOk result (IsCallWith (reach_of scope.now) place call.entry.1.now) }
    ensures fault { IfFault result (StandsInCallWith (reach_of scope.now) place call.entry.0.now call.entry.1.now) }
{
    let (name, args) = call;
    let roots = scope.roots[place].as_slice();
    let trees = type_arguments(alloc, scope.env, name, roots, args)?;
    let number = or_drop!(numbered(place); trees);
    Ok(Conj::Call(number, trees))
}

/// The equation of a variable.
fn resolve_equation(
    alloc: Global,
    scope: &ClauseScope<'_>,
    said: (&Text, &Expr),
    conjunct: &Expr,
) -> Result<Conj, TypeError>
    requires uncalled { called_number (reach_of scope.now) conjunct.now ≡ None }
    requires said { equation_of conjunct.now ≡ Some (said.0.now, said.1.now) }
    ensures is { IfOk result (IsResolved (reach_of scope.now) (Some (said.entry.0.now, said.entry.1.now)) conjunct.now) }
    ensures fault { IfFault result (StandsInConjunct (reach_of scope.now) conjunct.now) }
{
    let (name, value) = said;
    let tree = type_equation(alloc, scope.env, conjunct, value)?;
    let number = or_drop!(place_of(scope.variables.numbers, name); tree);
    Ok(Conj::Equation(number, tree))
}

/// A conjunct that calls no relation.
fn resolve_other(
    alloc: Global,
    scope: &ClauseScope<'_>,
    equation: Option<(&Text, &Expr)>,
    conjunct: &Expr,
) -> Result<Conj, TypeError>
    requires uncalled { called_number (reach_of scope.now) conjunct.now ≡ None }
    requires said { IsSaid conjunct.now (option_map (λ p. (p.0.now, p.1.now)) equation) }
    ensures is { IfOk result (IsResolved (reach_of scope.now) (option_map (λ p. (p.0.now, p.1.now)) equation.entry) conjunct.now) }
    ensures fault { IfFault result (StandsInConjunct (reach_of scope.now) conjunct.now) }
{
    match equation {
        Some(said) => resolve_equation(alloc, scope, said, conjunct),
        None => {
            let tree = type_condition(alloc, scope.env, conjunct)?;
            Ok(Conj::Cond(tree))
        }
    }
}

/// A conjunct that calls a name: that of a relation, or of a query.
fn resolve_named(
    alloc: Global,
    scope: &ClauseScope<'_>,
    equation: Option<(&Text, &Expr)>,
    conjunct: &Expr,
    call: (&Text, &[Expr]),
) -> Result<Conj, TypeError>
    requires call { called conjunct.now ≡ Some (call.0.now, call.1.now) }
    requires said { IsSaid conjunct.now (option_map (λ p. (p.0.now, p.1.now)) equation) }
    requires roots { HasRootTypes (reach_of scope.now) }
    ensures is { IfOk result (IsResolved (reach_of scope.now) (option_map (λ p. (p.0.now, p.1.now)) equation.entry) conjunct.now) }
    ensures fault { IfFault result (StandsInConjunct (reach_of scope.now) conjunct.now) }
{
    match scope.relations.find(call.0) {
        Some((place, _)) => resolve_call(alloc, scope, call, place),
        None => resolve_other(alloc, scope, equation, conjunct),
    }
}

/// A conjunct: a call of a relation; else the equation, if it is one; else a condition.
fn resolve_conjunct(
    alloc: Global,
    scope: &ClauseScope<'_>,
    equation: Option<(&Text, &Expr)>,
    conjunct: &Expr,
) -> Result<Conj, TypeError>
    requires said { IsSaid conjunct.now (option_map (λ p. (p.0.now, p.1.now)) equation) }
    requires roots { HasRootTypes (reach_of scope.now) }
    ensures is { IfOk result (IsResolved (reach_of scope.now) (option_map (λ p. (p.0.now, p.1.now)) equation.entry) conjunct.now) }
    ensures fault { IfFault result (StandsInConjunct (reach_of scope.now) conjunct.now) }
{
    match call_of(conjunct) {
        Some(call) => resolve_named(alloc, scope, equation, conjunct, call),
        None => resolve_other(alloc, scope, equation, conjunct),
    }
}

/// The next conjunct of a clause, behind those that give the variables that are met.
#[tactic(auto, using(crate::proofs::GivenLaws::behind_said))]
fn resolve_next(
    alloc: Global,
    scope: &ClauseScope<'_>,
    wanted: bool,
    met: &mut NameTable<u32>,
    conjunct: &Expr,
) -> Result<Conj, TypeError>
    requires roots { HasRootTypes (reach_of scope.now) }
    ensures is { IfOk result (IsResolved (reach_of scope.now) (equation_behind (equation_test scope.now.variables wanted) (map (λ e. e.0) met.old) conjunct.now) conjunct.now) }
    ensures met { OnOk result (map (λ e. e.0) met.new ≡ with_given (map (λ e. e.0) met.old) (given conjunct.now)) }
    ensures fault { IfFault result (StandsInConjunct (reach_of scope.now) conjunct.now) }
{
    let equation = next_equation(alloc, &scope.variables, wanted, met, conjunct)?;
    resolve_conjunct(alloc, scope, equation, conjunct)
}

/// The conjuncts of a clause, in their order.
fn resolve_listed(
    alloc: Global,
    scope: &ClauseScope<'_>,
    wanted: bool,
    conjuncts: &[&Expr],
) -> Result<Seq<Conj>, TypeError>
    requires roots { HasRootTypes (reach_of scope.now) }
    ensures are { IfOk result (AreResolved (reach_of scope.now) (equation_test scope.now.variables wanted) [] (map (λ e. e.now) conjuncts.now)) }
    ensures fault { IfFault result (StandsInOne (reach_of scope.now) (map (λ e. e.now) conjuncts.now)) }
{
    let mut met = NameTable::new(alloc);
    let mut out = Seq::new(alloc);
    for conjunct in conjuncts {
        let resolved = or_drop!(resolve_next(alloc, scope, wanted, &mut met, conjunct); met, out);
        or_drop!(out.push(resolved); met, out);
    }
    drop(met);
    Ok(out)
}

/// The conjuncts of a clause: of when, whose equations are those of universal variables, or else of where, whose are those of existential
/// ones (QVT 1.3, section 7.11.1.4). It takes time in proportion to the clause.
///
/// # Errors
///
/// A fault that stands in a conjunct, any one where several do, and `NoMemory`.
pub(crate) fn resolve_conjuncts(
    alloc: Global,
    scope: &ClauseScope<'_>,
    wanted: bool,
    clause: &Option<BlockTree>,
) -> Result<Seq<Conj>, TypeError>
    requires roots { HasRootTypes (reach_of scope.now) }
    ensures are { IfOk result (AreResolved (reach_of scope.now) (equation_test scope.now.variables wanted) [] (all_conjuncts clause.now)) }
    ensures fault { IfFault result (StandsInOne (reach_of scope.now) (all_conjuncts clause.now)) }
{
    let conjuncts = clause_conjuncts(alloc, clause)?;
    resolve_listed(alloc, scope, wanted, conjuncts.as_slice())
}
