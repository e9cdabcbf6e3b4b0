//! The relations of a script, resolved (QVT 1.3, section 7.11.1).
ghost use Rattle.std.specs.Prelude.{◌≡◌, ◌⊎◌, [], map, length, chars, All, IfOk, OnOk};
ghost use Rattle.ocl_environments.specs.declared.fault.TypeFault.{TypeFault as Fault};
ghost use Rattle.ocl_environments.specs.Written.{IfFault};
ghost use Rattle.script_scopes.specs.ScriptNames.{each_once as distinct};
ghost use Rattle.script_scopes.specs.Conjuncts.{clause_conjuncts};
ghost use Rattle.script_scopes.specs.Divisions.{IsWhenEquation, IsWhereEquation};
ghost use Rattle.script_scopes.specs.Directions.{IsStratum};
ghost use Rattle.script_scopes.specs.Occurrences.{variables_of as variables_named};
ghost use Rattle.script_scopes.specs.UniversalNames.{universal_names as universals};
ghost use Rattle.script_scopes.specs.Environments.{Setting, named_variables};
ghost use Rattle.script_scopes.specs.Resolutions.{IsData, AreDomains, AreConjuncts, IsRelation};
ghost use Rattle.script_scopes.specs.Faults.{StandsInExpressions};
ghost use Rattle.script_variables.specs.SettledRelations.{IsSettled};
ghost use Rattle.qvtr_types.specs.Expressions.{HaveTypes};
ghost use Rattle.qvtr_types.specs.ResolvedConjuncts.{reach_of, HasRootTypes};
ghost use Rattle.qvtr_types.specs.LoneArguments.{CallsRelated, IsUnrelatedFault};
ghost use Rattle.qvtr_types.specs.ScriptScopes.{IsDeclared, IsScriptScopeOf, scope_roots, HasRelatedArguments, IsRelationReach};
ghost use Rattle.qvtr_types.specs.ResolvedRelations.{AreParts, IsMadeOf};

use crate::clauses::{Clauses, resolve_clauses};
use crate::domains::{RelationScope, resolve_domains};
use crate::equations::Variables;
use crate::laws::expression_faults_are_told;
use crate::lone_arguments::refuse_lone_arguments;
use crate::relation_scope::bind_variables;
use crate::resolved_conjuncts::ClauseScope;
use mof_metamodel::{NameTable, NoMemory, Seq, or_drop};
use ocl_environments::{Env, TypeError};
use qv_syntax::{Dom, Rel, RelationTree, Var};
use script_scopes::{
    ModelNames, division_of, each_once, is_in_direction, universal_names, variables_listed,
    variables_of,
};
use std::alloc::Global;

/// What the relations of a script are resolved over: the name of the target, the models, and the relations by their names with the roots
/// of their domains.
#[derive(Clone, Copy)]
pub(crate) struct ScriptScope<'a> {
    pub target: &'a str,
    pub names: &'a ModelNames,
    pub relations: &'a NameTable<u32>,
    pub roots: &'a [Seq<&'a Var>],
}

/// A relation with the number of its stratum and its variables.
#[derive(Clone, Copy)]
pub(crate) struct TypedRelation<'a> {
    pub tree: &'a RelationTree,
    pub stratum: u32,
    pub vars: &'a [Var],
}

/// The domains and the clauses of a relation.
#[derive(Drop)]
struct RelationParts {
    domains: Seq<Dom>,
    clauses: Clauses,
}

/// A variable once more.
fn copy_of(alloc: Global, var: &Var) -> Result<Var, NoMemory>
    ensures { IfOk result (λ v. v ≡ var.now) }
{
    let name = var.name.duplicate(alloc)?;
    let ty = var.ty.duplicate(alloc)?;
    Ok(Var {
        name,
        ty,
        model: var.model,
    })
}

/// Variables once more.
fn copies_of(alloc: Global, vars: &[Var]) -> Result<Seq<Var>, NoMemory>
    ensures { IfOk result (λ vs. vs ≡ vars.now) }
{
    let mut out = Seq::new(alloc);
    for var in vars {
        out.push(copy_of(alloc, var)?)?;
    }
    Ok(out)
}

/// Refuses a relation in whose clauses a variable stands alone in the place of a domain whose root isn't related.
fn refuse_unrelated(
    alloc: Global,
    scope: &ClauseScope<'_>,
    r: &RelationTree,
) -> Result<(), TypeError>
    requires types { HaveTypes scope.now.env.now.metas scope.now.variables.vars.now }
    requires count { length scope.now.variables.vars.now ≡ length scope.now.variables.numbers.now }
    requires roots { HasRootTypes (reach_of scope.now) }
    ensures whens { OnOk result (All (CallsRelated (reach_of scope.now) scope.now.variables.vars.now) (clause_conjuncts r.now.when)) }
    ensures wheres { OnOk result (All (CallsRelated (reach_of scope.now) scope.now.variables.vars.now) (clause_conjuncts r.now.wheres)) }
    ensures fault { IfFault result (λ f. IsUnrelatedFault (reach_of scope.now) scope.now.variables.vars.now (clause_conjuncts r.now.when) f ⊎ IsUnrelatedFault (reach_of scope.now) scope.now.variables.vars.now (clause_conjuncts r.now.wheres) f) }
{
    refuse_lone_arguments(alloc, scope, &r.when)?;
    refuse_lone_arguments(alloc, scope, &r.wheres)
}

/// The clauses of a relation before its variables are in reach.
fn refuse_arguments(
    alloc: Global,
    env: &Env<'_>,
    scope: &ScriptScope<'_>,
    variables: &Variables<'_>,
    r: &RelationTree,
) -> Result<(), TypeError>
    requires numbers { map (λ e. e.0) variables.now.numbers.now ≡ variables_named r.now }
    requires setting { (s : Setting) × IsScriptScopeOf s env.now scope.now × IsDeclared s r.now variables.now.vars.now }
    ensures related { OnOk result ((s : Setting) → IsScriptScopeOf s env.now scope.now → IsDeclared s r.now variables.now.vars.now → HasRelatedArguments s r.now variables.now.vars.now (scope_roots scope.now)) }
    ensures fault { IfFault result (λ f. (s : Setting) → IsScriptScopeOf s env.now scope.now → IsDeclared s r.now variables.now.vars.now → StandsInExpressions s r.now variables.now.vars.now f) }
{
    let over = ClauseScope {
        env,
        variables: *variables,
        relations: scope.relations,
        roots: scope.roots,
    };
    refuse_unrelated(alloc, &over, r)
}

/// Brings the variables of a relation into reach.
fn bring_in(
    alloc: Global,
    env: &mut Env<'_>,
    scope: &ScriptScope<'_>,
    variables: &Variables<'_>,
    r: &RelationTree,
) -> Result<(), TypeError>
    requires empty { env.old.variables ≡ [] }
    requires numbers { map (λ e. e.0) variables.now.numbers.now ≡ variables_named r.now }
    requires setting { (s : Setting) × IsScriptScopeOf s env.old scope.now × IsDeclared s r.now variables.now.vars.now }
    ensures bound { OnOk result (env.new ≡ record env.old { variables = named_variables (variables_named r.now) variables.now.vars.now }) }
    ensures related { OnOk result ((s : Setting) → IsScriptScopeOf s env.old scope.now → IsDeclared s r.now variables.now.vars.now → HasRelatedArguments s r.now variables.now.vars.now (scope_roots scope.now)) }
    ensures fault { IfFault result (λ f. (s : Setting) → IsScriptScopeOf s env.old scope.now → IsDeclared s r.now variables.now.vars.now → StandsInExpressions s r.now variables.now.vars.now f) }
{
    refuse_arguments(alloc, env, scope, variables, r)?;
    let listed = variables_listed(alloc, r)?;
    Ok(bind_variables(alloc, env, listed.as_slice(), variables.vars)?)
}

/// The domains and the clauses of a relation whose variables are in reach.
fn parts_of(
    alloc: Global,
    env: &Env<'_>,
    scope: &ScriptScope<'_>,
    variables: &Variables<'_>,
    r: &RelationTree,
) -> Result<RelationParts, TypeError>
    requires numbers { map (λ e. e.0) variables.now.numbers.now ≡ variables_named r.now }
    requires universal { map (λ e. e.0) variables.now.universal.now ≡ distinct (universals (chars scope.now.target.now) r.now) }
    requires setting { (s : Setting) × IsRelationReach s r.now variables.now.vars.now env.now scope.now }
    ensures domains { IfOk result (λ p. (s : Setting) → IsRelationReach s r.now variables.now.vars.now env.now scope.now → AreDomains s r.now variables.now.vars.now p.domains) }
    ensures whens { IfOk result (λ p. (s : Setting) → IsRelationReach s r.now variables.now.vars.now env.now scope.now → AreConjuncts s r.now variables.now.vars.now (IsWhenEquation (IsData s r.now) s.target r.now) (clause_conjuncts r.now.when) p.clauses.whens) }
    ensures wheres { IfOk result (λ p. (s : Setting) → IsRelationReach s r.now variables.now.vars.now env.now scope.now → AreConjuncts s r.now variables.now.vars.now (IsWhereEquation (IsData s r.now) s.target r.now) (clause_conjuncts r.now.wheres) p.clauses.wheres) }
    ensures none { OnOk result ((s : Setting) (f : Fault) → IsRelationReach s r.now variables.now.vars.now env.now scope.now → HasRelatedArguments s r.now variables.now.vars.now (scope_roots scope.now) → ¬ StandsInExpressions s r.now variables.now.vars.now f) }
    ensures fault { IfFault result (λ f. (s : Setting) → IsRelationReach s r.now variables.now.vars.now env.now scope.now → StandsInExpressions s r.now variables.now.vars.now f) }
{
    expression_faults_are_told(env);
    let within = RelationScope {
        env,
        names: scope.names,
        variables: variables.numbers,
    };
    let domains = resolve_domains(alloc, &within, r)?;
    let over = ClauseScope {
        env,
        variables: *variables,
        relations: scope.relations,
        roots: scope.roots,
    };
    let clauses = or_drop!(resolve_clauses(alloc, &over, r); domains);
    Ok(RelationParts { domains, clauses })
}

/// A relation of these parts.
fn with_parts(
    alloc: Global,
    target: &str,
    relation: &TypedRelation<'_>,
    parts: RelationParts,
) -> Result<Rel, NoMemory>
    ensures { IfOk result (IsMadeOf (chars target.now) relation.now.tree.now relation.now.stratum relation.now.vars.now parts.domains parts.clauses.whens parts.clauses.wheres) }
{
    let r = relation.tree;
    let name = or_drop!(r.name.text.duplicate(alloc); parts);
    let vars = or_drop!(copies_of(alloc, relation.vars); parts, name);
    let division = or_drop!(division_of(alloc, target, r); parts, name, vars);
    Ok(Rel {
        name,
        top: r.top,
        in_direction: is_in_direction(target, r),
        stratum: relation.stratum,
        vars,
        universal: division.universal,
        existential: division.existential,
        domains: parts.domains,
        whens: parts.clauses.whens,
        wheres: parts.clauses.wheres,
    })
}

/// The parts of a relation, whose variables are out of reach again afterwards.
fn resolve_parts(
    alloc: Global,
    env: &mut Env<'_>,
    scope: &ScriptScope<'_>,
    variables: &Variables<'_>,
    r: &RelationTree,
) -> Result<RelationParts, TypeError>
    requires empty { env.old.variables ≡ [] }
    requires numbers { map (λ e. e.0) variables.now.numbers.now ≡ variables_named r.now }
    requires universal { map (λ e. e.0) variables.now.universal.now ≡ distinct (universals (chars scope.now.target.now) r.now) }
    requires setting { (s : Setting) × IsScriptScopeOf s env.old scope.now × IsDeclared s r.now variables.now.vars.now }
    ensures parts { IfOk result (λ p. (s : Setting) → IsScriptScopeOf s env.old scope.now → IsDeclared s r.now variables.now.vars.now → AreParts s r.now variables.now.vars.now p.domains p.clauses.whens p.clauses.wheres) }
    ensures none { OnOk result ((s : Setting) (f : Fault) → IsScriptScopeOf s env.old scope.now → IsDeclared s r.now variables.now.vars.now → ¬ StandsInExpressions s r.now variables.now.vars.now f) }
    ensures fault { IfFault result (λ f. (s : Setting) → IsScriptScopeOf s env.old scope.now → IsDeclared s r.now variables.now.vars.now → StandsInExpressions s r.now variables.now.vars.now f) }
    ensures settled { OnOk result ((s : Setting) → IsScriptScopeOf s env.old scope.now → IsDeclared s r.now variables.now.vars.now → IsSettled s r.now variables.now.vars.now) }
    ensures kept { OnOk result (env.new ≡ env.old) }
{
    bring_in(alloc, env, scope, variables, r)?;
    env.in_order();
    let parts = parts_of(alloc, env, scope, variables, r)?;
    env.forget_variables(alloc);
    Ok(parts)
}

/// A relation, resolved. It takes time in proportion to its text.
///
/// # Errors
///
/// A fault that stands in the expressions of the relation, any one where several do, and `NoMemory`.
pub(crate) fn resolve_relation(
    alloc: Global,
    env: &mut Env<'_>,
    scope: &ScriptScope<'_>,
    relation: &TypedRelation<'_>,
) -> Result<Rel, TypeError>
    requires empty { env.old.variables ≡ [] }
    requires setting { (s : Setting) × IsScriptScopeOf s env.old scope.now × IsDeclared s relation.now.tree.now relation.now.vars.now }
    ensures is { IfOk result (λ rel. (s : Setting) → IsScriptScopeOf s env.old scope.now → IsDeclared s relation.now.tree.now relation.now.vars.now → IsStratum s.script relation.now.tree.now relation.now.stratum → IsRelation s relation.now.tree.now rel) }
    ensures vars { IfOk result (λ rel. rel.vars ≡ relation.now.vars.now) }
    ensures none { OnOk result ((s : Setting) (f : Fault) → IsScriptScopeOf s env.old scope.now → IsDeclared s relation.now.tree.now relation.now.vars.now → ¬ StandsInExpressions s relation.now.tree.now relation.now.vars.now f) }
    ensures fault { IfFault result (λ f. (s : Setting) → IsScriptScopeOf s env.old scope.now → IsDeclared s relation.now.tree.now relation.now.vars.now → StandsInExpressions s relation.now.tree.now relation.now.vars.now f) }
    ensures settled { OnOk result ((s : Setting) → IsScriptScopeOf s env.old scope.now → IsDeclared s relation.now.tree.now relation.now.vars.now → IsSettled s relation.now.tree.now relation.now.vars.now) }
    ensures kept { OnOk result (env.new ≡ env.old) }
{
    let r = relation.tree;
    let named = universal_names(alloc, scope.target, r)?;
    let universal = each_once(alloc, named)?;
    let numbers = or_drop!(variables_of(alloc, r); universal);
    let variables = Variables {
        numbers: &numbers,
        vars: relation.vars,
        universal: &universal,
    };
    let parts = resolve_parts(alloc, env, scope, &variables, r);
    drop(universal);
    drop(numbers);
    let parts = parts?;
    let rel = with_parts(alloc, scope.target, relation, parts)?;
    Ok(rel)
}
