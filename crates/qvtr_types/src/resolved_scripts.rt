//! Scripts, resolved (QVT 1.3, section 7.11).
ghost use Rattle.std.specs.Prelude.{◌≡◌, ◌≤◌, ℕ, List, [], map, length, chars, Contains, IfOk, OnOk};
ghost use Rattle.std.specs.List.{AllZip};
ghost use Rattle.mof_metamodel.specs.NameTables.{value_of};
ghost use Rattle.qv_syntax.specs.declared.script.RelationTree.{RelationTree as Relation};
ghost use Rattle.ocl_environments.specs.declared.fault.TypeFault.{TypeFault as Fault};
ghost use Rattle.ocl_environments.specs.Environments.{most};
ghost use Rattle.ocl_environments.specs.Written.{IfFault};
ghost use Rattle.script_scopes.specs.Occurrences.{relations_of as relations_in};
ghost use Rattle.script_scopes.specs.FirstEntries.{first_entries};
ghost use Rattle.script_scopes.specs.ModelLists.{named_relations as by_name};
ghost use Rattle.script_scopes.specs.VariableTypes.{metamodel_numbers};
ghost use Rattle.script_scopes.specs.Directions.{IsStratum, IsOnWhenCycle};
ghost use Rattle.script_scopes.specs.Declarations.{global_names, IsRepeated};
ghost use Rattle.script_scopes.specs.Environments.{Setting, in_script, metamodel_names as metamodels, slots_of as slots};
ghost use Rattle.script_scopes.specs.Faults.{HasQueries, StandsInScript};
ghost use Rattle.script_scopes.specs.Resolutions.{IsResolution};
ghost use Rattle.qvtr_types.specs.ScriptScopes.{IsDeclared, IsScriptScopeOf};
ghost use Rattle.qvtr_types.specs.ResolvedScripts.{setting_of, IsFaultOf, IsScriptReach, IsResolvedTo, program_of};

use crate::declared_variables::all_variables;
use crate::keys::resolve_keys;
use crate::relations::{ScriptScope, TypedRelation, resolve_relation};
use crate::roots::all_roots;
use crate::script_queries::resolve_queries;
use crate::well_formed_laws::resolutions_are_well_formed;
use mof_metamodel::{NoMemory, Seq, or_drop};
use ocl_environments::{Env, Metas, TypeError};
use ocl_types::query_typing_is_told;
use qv_syntax::{Key, Program, Query, Rel, RelationTree, Script, Var};
use script_scopes::{
    metamodel_names, model_place, numbered, refuse_calls, refuse_names, relation_strata,
    relation_table, relations_of, slots_of,
};
use script_variables::{ScriptTables, script_tables};
use std::alloc::Global;

/// What a script resolves to, but for its own name and its models.
#[derive(Drop)]
struct ScriptParts {
    keys: Seq<Key>,
    rels: Seq<Rel>,
    queries: Seq<Query>,
}

/// Relations one behind the other, resolved, with their strata and their variables.
fn resolve_each(
    alloc: Global,
    env: &mut Env<'_>,
    scope: &ScriptScope<'_>,
    relations: &[&RelationTree],
    strata: &[u32],
    vars: &[Seq<Var>],
) -> Result<Seq<Rel>, TypeError>
    requires empty { env.old.variables ≡ [] }
    requires layers { length strata.now ≡ length relations.now }
    requires count { length vars.now ≡ length relations.now }
    requires setting { (s : Setting) × IsScriptScopeOf s env.old scope.now × AllZip (IsDeclared s) (map (λ r. r.now) relations.now) vars.now }
    ensures are { IfOk result (λ rels. (s : Setting) → IsScriptScopeOf s env.old scope.now → AllZip (IsDeclared s) (map (λ r. r.now) relations.now) vars.now → AllZip (IsStratum s.script) (map (λ r. r.now) relations.now) strata.now → AllZip (IsResolvedTo s) (map (λ r. r.now) relations.now) rels) }
    ensures fault { IfFault result (λ f. (s : Setting) → IsScriptScopeOf s env.old scope.now → AllZip (IsDeclared s) (map (λ r. r.now) relations.now) vars.now → HasQueries s → StandsInScript s f) }
    ensures kept { OnOk result (env.new ≡ env.old) }
{
    let mut out = Seq::new(alloc);
    for (place, tree) in relations.iter().enumerate() {
        let relation = TypedRelation {
            tree,
            stratum: strata[place],
            vars: vars[place].as_slice(),
        };
        let rel = or_drop!(resolve_relation(alloc, env, scope, &relation); out);
        or_drop!(out.push(rel); out);
    }
    Ok(out)
}

/// The relations of a script, with their strata and their variables, towards a target and over the tables of the script.
fn resolve_typed(
    alloc: Global,
    env: &mut Env<'_>,
    script: &Script,
    over: (&str, &ScriptTables<'_>),
    listed: (&[&RelationTree], &[u32]),
    vars: &[Seq<Var>],
) -> Result<Seq<Rel>, TypeError>
    requires empty { env.old.variables ≡ [] }
    requires listed { map (λ r. r.now) listed.0.now ≡ relations_in script.now }
    requires layers { AllZip (IsStratum script.now) (relations_in script.now) listed.1.now }
    requires models { over.1.now.names.models ≡ first_entries (metamodel_numbers (slots script.now)) }
    requires metas { over.1.now.names.metas ≡ metamodels script.now }
    requires setting { (s : Setting) × IsScriptReach s env.old script.now (chars over.0.now) × AllZip (IsDeclared s) (relations_in script.now) vars.now }
    ensures are { IfOk result (λ rels. (s : Setting) → IsScriptReach s env.old script.now (chars over.entry.0.now) → AllZip (IsDeclared s) (relations_in script.now) vars.now → AllZip (IsResolvedTo s) (relations_in script.now) rels) }
    ensures fault { IfFault result (λ f. (s : Setting) → IsScriptReach s env.old script.now (chars over.entry.0.now) → AllZip (IsDeclared s) (relations_in script.now) vars.now → StandsInScript s f) }
    ensures kept { OnOk result (env.new ≡ env.old) }
{
    let numbers = relation_table(alloc, script)?;
    let roots = or_drop!(all_roots(alloc, listed.0, vars); numbers);
    let scope = ScriptScope {
        target: over.0,
        names: &over.1.names,
        relations: &numbers,
        roots: roots.as_slice(),
    };
    let rels = resolve_each(alloc, env, &scope, listed.0, listed.1, vars);
    drop(roots);
    drop(numbers);
    rels
}

/// The relations of a script, with their strata, towards a target and over the tables of the script.
fn resolve_listed(
    alloc: Global,
    env: &mut Env<'_>,
    script: &Script,
    over: (&str, &ScriptTables<'_>),
    listed: (&[&RelationTree], &[u32]),
) -> Result<Seq<Rel>, TypeError>
    requires empty { env.old.variables ≡ [] }
    requires listed { map (λ r. r.now) listed.0.now ≡ relations_in script.now }
    requires layers { AllZip (IsStratum script.now) (relations_in script.now) listed.1.now }
    requires models { over.1.now.names.models ≡ first_entries (metamodel_numbers (slots script.now)) }
    requires metas { over.1.now.names.metas ≡ metamodels script.now }
    requires finds { (n : List ℕ) → value_of (map (λ e. (e.0, e.1.now)) over.1.now.relations) n ≡ value_of (by_name (relations_in script.now)) n }
    requires setting { (s : Setting) × IsScriptReach s env.old script.now (chars over.0.now) }
    ensures are { IfOk result (λ rels. (s : Setting) → IsScriptReach s env.old script.now (chars over.entry.0.now) → AllZip (IsResolvedTo s) (relations_in script.now) rels) }
    ensures fault { IfFault result (λ f. (s : Setting) → IsScriptReach s env.old script.now (chars over.entry.0.now) → StandsInScript s f) }
    ensures kept { OnOk result (env.new ≡ env.old) }
{
    let vars = all_variables(alloc, env, over.1, over.0, listed.0)?;
    let rels = resolve_typed(alloc, env, script, over, listed, vars.as_slice());
    drop(vars);
    rels
}

/// The relations of a script whose names and calls are in order and whose queries are in reach.
fn resolve_relations(
    alloc: Global,
    env: &mut Env<'_>,
    script: &Script,
    target: &str,
) -> Result<Seq<Rel>, TypeError>
    requires empty { env.old.variables ≡ [] }
    requires setting { (s : Setting) × IsScriptReach s env.old script.now (chars target.now) }
    ensures are { IfOk result (λ rels. (s : Setting) → IsScriptReach s env.old script.now (chars target.now) → AllZip (IsResolvedTo s) (relations_in script.now) rels) }
    ensures layers { OnOk result ((r : Relation) → Contains (relations_in script.now) r → ¬ IsOnWhenCycle script.now r) }
    ensures fault { IfFault result (λ f. (s : Setting) → IsScriptReach s env.old script.now (chars target.now) → StandsInScript s f) }
    ensures kept { OnOk result (env.new ≡ env.old) }
{
    let strata = relation_strata(alloc, script)?;
    let tables = or_drop!(script_tables(alloc, script); strata);
    let relations = or_drop!(relations_of(alloc, script); strata, tables);
    let listed = (relations.as_slice(), strata.as_slice());
    let rels = resolve_listed(alloc, env, script, (target, &tables), listed);
    drop(relations);
    drop(tables);
    drop(strata);
    rels
}

/// The keys, relations and queries of a script, over its metamodels and models alone.
fn resolve_parts(
    alloc: Global,
    env: &mut Env<'_>,
    script: &Script,
    target: &str,
) -> Result<ScriptParts, TypeError>
    requires { env.old ≡ in_script (setting_of env.old.metas script.now (chars target.now) []) }
    ensures ok { IfOk result (λ p. IsResolution (setting_of env.old.metas script.now (chars target.now) p.queries) (program_of script.now (chars target.now) p.keys p.rels p.queries)) }
    ensures distinct { OnOk result ((name : List ℕ) → ¬ IsRepeated (global_names script.now) name) }
    ensures none { OnOk result ((f : Fault) → ¬ IsFaultOf env.old.metas script.now (chars target.now) f) }
    ensures fault { IfFault result (IsFaultOf env.old.metas script.now (chars target.now)) }
    ensures few { IfOk result (λ p. length p.queries ≤ most) }
{
    query_typing_is_told(env);
    refuse_names(alloc, script, target)?;
    refuse_calls(alloc, script, target)?;
    let queries = resolve_queries(alloc, env, script)?;
    let keys = resolve_keys(alloc, env, script)?;
    let rels = resolve_relations(alloc, env, script, target)?;
    env.in_order();
    resolutions_are_well_formed();
    Ok(ScriptParts {
        keys,
        rels,
        queries,
    })
}

/// The metamodels and the models of a script in reach, and nothing else.
fn script_reach<'a>(alloc: Global, script: &Script, metas: &'a Metas) -> Result<Env<'a>, NoMemory>
    requires { length (metamodels script.now) ≡ length metas.now }
    ensures { IfOk result (λ env. env ≡ record { metas = metas.now; names = metamodels script.now; models = slots script.now; variables = []; queries = [] }) }
{
    let names = metamodel_names(alloc, script)?;
    let models = slots_of(alloc, script)?;
    Env::over(alloc, metas, names, models)
}

/// The program of these parts.
fn with_parts(
    alloc: Global,
    script: &Script,
    target: &str,
    parts: ScriptParts,
) -> Result<Program, NoMemory>
    ensures is { IfOk result (λ program. program ≡ program_of script.now (chars target.now) parts.keys parts.rels parts.queries) }
    ensures few { IfOk result (λ program. length program.rels ≤ most) }
{
    or_drop!(numbered(parts.rels.len()); parts);
    let name = or_drop!(script.name.text.duplicate(alloc); parts);
    let models = or_drop!(slots_of(alloc, script); parts, name);
    let place = model_place(script, target).unwrap_or(0);
    let target = or_drop!(numbered(place); parts, name, models);
    let ScriptParts {
        keys,
        rels,
        queries,
    } = parts;
    Ok(Program {
        name,
        models,
        target,
        keys,
        rels,
        queries,
    })
}

/// What a script resolves to in the direction towards a target, over the metamodels that it names, by their numbers (QVT 1.3, section
/// 7.11). It takes time in proportion to the script's text, but for what typing takes.
///
/// # Errors
///
/// A fault that stands in the script, any one where several do, and `NoMemory`.
pub fn resolve(
    alloc: Global,
    script: &Script,
    metas: &Metas,
    target: &str,
) -> Result<Program, TypeError>
    requires named { length (metamodels script.now) ≡ length metas.now }
    ensures ok { IfOk result (λ program. IsResolution (setting_of metas.now script.now (chars target.now) program.queries) program) }
    ensures distinct { OnOk result ((name : List ℕ) → ¬ IsRepeated (global_names script.now) name) }
    ensures none { OnOk result ((f : Fault) → ¬ IsFaultOf metas.now script.now (chars target.now) f) }
    ensures fault { IfFault result (IsFaultOf metas.now script.now (chars target.now)) }
    ensures few { IfOk result (λ program. length program.rels ≤ most) }
    ensures few_queries { IfOk result (λ program. length program.queries ≤ most) }
{
    let mut env = script_reach(alloc, script, metas)?;
    let parts = resolve_parts(alloc, &mut env, script, target);
    drop(env);
    let parts = parts?;
    let program = with_parts(alloc, script, target, parts)?;
    Ok(program)
}
