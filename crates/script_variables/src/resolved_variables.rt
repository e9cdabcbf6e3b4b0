//! The variables of a relation with their types and models (QVT 1.3, sections 7.11.1 and 7.11.2), or a fault that stands in its declarations.
ghost use Rattle.std.specs.Prelude.{◌≡◌, ◌↔◌, ◌⊎◌, ℕ, List, true, false, is_some, chars, map, slice_index_or, All, IfOk, OnOk};
ghost use Rattle.std.specs.List.{AllZip};
ghost use Rattle.mof_metamodel.specs.NameTables.{value_of};
ghost use Rattle.qv_syntax.specs.declared.program.Var.{Var as Variable};
ghost use Rattle.ocl_environments.specs.declared.fault.TypeFault.{TypeFault as Fault};
ghost use Rattle.ocl_environments.specs.Written.{IfFault};
ghost use Rattle.script_scopes.specs.ScriptNames.{each_once as distinct};
ghost use Rattle.script_scopes.specs.Occurrences.{relations_of as all_relations, variables_of as variables_named};
ghost use Rattle.script_scopes.specs.UniversalNames.{universal_names as universals};
ghost use Rattle.script_scopes.specs.Environments.{Setting, slots_of as slots, metamodel_names as metamodels};
ghost use Rattle.script_scopes.specs.Faults.{StandsInDeclarations, AreVariables};
ghost use Rattle.script_scopes.specs.FirstEntries.{first_entries};
ghost use Rattle.script_scopes.specs.VariableTypes.{metamodel_numbers};
ghost use Rattle.script_scopes.specs.ModelLists.{named_relations as by_name};
ghost use Rattle.script_variables.specs.Bindings.{binding_rules as all_rules, IsDerivedNumber, IsBoundVariable, IsUnboundVariable};
ghost use Rattle.script_variables.specs.ScriptSettings.{IsOneOf};
ghost use Rattle.script_variables.specs.Variables.{IsVarOf, IsModelFault};
ghost use Rattle.script_variables.specs.SettledRelations.{HaveOneType, AllBound};

use crate::bindings::{binding_rules, refuse_unbound};
use crate::derivations::derived;
use crate::variable_types::variable_types;
use crate::variables::variables;
use mof_metamodel::{NameTable, NoMemory, Seq, Text};
use ocl_environments::{Env, TypeError};
use qv_syntax::{RelationTree, Script, Ty, Var};
use script_scopes::{
    ModelNames, each_once, model_names, named_relations, relations_of, universal_names,
    variable_models, variables_listed,
};
use std::alloc::Global;

/// What a script has once for all its relations: its models, metamodels and relations by their names.
#[derive(Drop)]
pub struct ScriptTables<'a> {
    pub names: ModelNames,
    pub relations: NameTable<&'a RelationTree>,
}

/// The tables of a script.
pub fn script_tables<'a>(alloc: Global, script: &'a Script) -> Result<ScriptTables<'a>, NoMemory>
    ensures models { IfOk result (λ t. t.names.models ≡ first_entries (metamodel_numbers (slots script.now))) }
    ensures metas { IfOk result (λ t. t.names.metas ≡ metamodels script.now) }
    ensures relations { IfOk result (λ t. (n : List ℕ) → value_of (map (λ e. (e.0, e.1.now)) t.relations) n ≡ value_of (by_name (all_relations script.now)) n) }
{
    let names = model_names(alloc, script)?;
    let listed = relations_of(alloc, script)?;
    let relations = named_relations(alloc, listed.as_slice())?;
    Ok(ScriptTables { names, relations })
}

/// For the number of each data variable whether it is bound.
fn bound_data(
    alloc: Global,
    target: &str,
    types: &NameTable<Ty>,
    r: &RelationTree,
) -> Result<Vec<bool>, NoMemory>
    ensures { IfOk result (λ bound. (n : ℕ) → (slice_index_or bound.items n false ≡ true) ↔ IsDerivedNumber (all_rules types.now (distinct (universals (chars target.now) r.now)) (chars target.now) r.now) n) }
{
    let named = universal_names(alloc, target, r)?;
    let universal = each_once(alloc, named)?;
    let rules = binding_rules(alloc, target, types, &universal, r)?;
    derived(alloc, types.len(), rules)
}

/// Refuses data variables of which one isn't bound.
fn refuse_data(
    alloc: Global,
    target: &str,
    types: &NameTable<Ty>,
    r: &RelationTree,
    listed: &[Text],
) -> Result<(), TypeError>
    ensures bound { OnOk result (All (IsBoundVariable types.now (distinct (universals (chars target.now) r.now)) (chars target.now) r.now) listed.now) }
    ensures fault { IfFault result (IsUnboundVariable types.now (distinct (universals (chars target.now) r.now)) (chars target.now) r.now listed.now) }
{
    let bound = bound_data(alloc, target, types, r)?;
    refuse_unbound(alloc, types, bound.as_slice(), listed)
}

/// The variables of a relation with their types and models, if each data variable is bound.
fn bound_variables(
    alloc: Global,
    names: &ModelNames,
    target: &str,
    types: &NameTable<Ty>,
    models: &NameTable<Text>,
    r: &RelationTree,
) -> Result<Seq<Var>, TypeError>
    requires { All (λ v. is_some (value_of types.now v) ≡ true) (variables_named r.now) }
    ensures vars { IfOk result (AllZip (IsVarOf types.now models.now (map (λ e. e.0) names.now.models)) (variables_named r.now)) }
    ensures bound { OnOk result (All (IsBoundVariable types.now (distinct (universals (chars target.now) r.now)) (chars target.now) r.now) (variables_named r.now)) }
    ensures fault { IfFault result (λ f. IsModelFault types.now models.now (variables_named r.now) f ⊎ IsUnboundVariable types.now (distinct (universals (chars target.now) r.now)) (chars target.now) r.now (variables_named r.now) f) }
{
    let listed = variables_listed(alloc, r)?;
    let named = listed.as_slice();
    refuse_data(alloc, target, types, r, named)?;
    variables(alloc, types, models, names, named)
}

/// The variables of a relation, in the order of their first occurrence, with their types and models (QVT 1.3, sections 7.11.1 and
/// 7.11.2). It takes time in proportion to the relation's text.
///
/// # Errors
///
/// A fault that stands in the declarations of the relation, any one where several do, and `NoMemory`.
pub fn relation_variables(
    alloc: Global,
    env: &Env<'_>,
    tables: &ScriptTables<'_>,
    target: &str,
    r: &RelationTree,
) -> Result<Seq<Var>, TypeError>
    requires { (s : Setting) × IsOneOf s env.now tables.now (chars target.now) r.now }
    ensures variables { IfOk result (λ vars. (s : Setting) → IsOneOf s env.now tables.now (chars target.now) r.now → AreVariables s r.now vars) }
    ensures only { IfOk result (λ vars. (s : Setting) (other : List Variable) → IsOneOf s env.now tables.now (chars target.now) r.now → AreVariables s r.now other → other ≡ vars) }
    ensures one { IfOk result (λ vars. (s : Setting) → IsOneOf s env.now tables.now (chars target.now) r.now → HaveOneType s r.now vars) }
    ensures bound { OnOk result ((s : Setting) → IsOneOf s env.now tables.now (chars target.now) r.now → AllBound s r.now) }
    ensures none { OnOk result ((s : Setting) (f : Fault) → IsOneOf s env.now tables.now (chars target.now) r.now → ¬ StandsInDeclarations s r.now f) }
    ensures fault { IfFault result (λ f. (s : Setting) → IsOneOf s env.now tables.now (chars target.now) r.now → StandsInDeclarations s r.now f) }
{
    let types = variable_types(alloc, env, &tables.names, r)?;
    let models = variable_models(alloc, &tables.relations, &types, r)?;
    bound_variables(alloc, &tables.names, target, &types, &models, r)
}
