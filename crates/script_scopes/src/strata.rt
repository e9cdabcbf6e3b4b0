ghost use Rattle.std.specs.Prelude.{◌≡◌, ◌++◌, ℕ, List, map, position, Contains, IfOk, OnOk};
ghost use Rattle.std.specs.List.{flat_map, AllZip};
ghost use Rattle.std.specs.Option.{option_to_list};
ghost use Rattle.mof_metamodel.specs.Characters.{same_name};
ghost use Rattle.qv_syntax.specs.declared.script.RelationTree.{RelationTree as Relation};
ghost use Rattle.call_graph.specs.Strata.{AreLayers};
ghost use Rattle.call_graph.specs.declared.layers.Layers.TheVariants as layered;
ghost use Rattle.ocl_environments.specs.Written.{IfFault};
ghost use Rattle.ocl_environments.specs.declared.fault.TypeFault.TheVariants as faults;
ghost use Rattle.script_scopes.specs.Occurrences.{relations_of as all_relations};
ghost use Rattle.script_scopes.specs.Declarations.{relation_names, global_names, IsRepeated};
ghost use Rattle.script_scopes.specs.Directions.{IsStratum, IsOnWhenCycle};
ghost use Rattle.script_scopes.specs.Environments.{Setting};
ghost use Rattle.script_scopes.specs.Faults.{StandsInScript};
ghost use Rattle.script_scopes.specs.ScriptNames.{each_once as distinct};
ghost use Rattle.script_scopes.specs.CallRows.{conjunct_numbers, clause_numbers as numbers_of_clause, when_rows as rows_of_whens, where_rows as rows_of_wheres, IsAmong, IsCycleFault};

use crate::conjuncts::{call_of, clause_conjuncts};
use crate::declared::relations_of;
use crate::distinct::each_once;
use crate::script_names::{names_of_relations, numbered};
use call_graph::{Layers, strata};
use mof_metamodel::{NameTable, NoMemory, Seq, Text};
use ocl_environments::{TypeError, TypeFault};
use qv_syntax::{BlockTree, Expr, RelationTree, Script};
use std::alloc::Global;

/// The names of the relations of a script, each with its number.
pub fn relation_table(alloc: Global, script: &Script) -> Result<NameTable<u32>, NoMemory>
    ensures { IfOk result (λ names. map (λ e. e.0) names ≡ distinct (relation_names script.now)) }
{
    let named = names_of_relations(alloc, script)?;
    each_once(alloc, named)
}

/// Puts the number of a name, if it is among these, behind others.
fn push_number(names: &NameTable<u32>, name: &Text, out: &mut Seq<u32>) -> Result<(), NoMemory>
    ensures { OnOk result (out.new ≡ out.old ++ option_to_list (position (same_name name.now) (map (λ e. e.0) names.now))) }
{
    match names.find(name) {
        Some((number, _)) => out.push(numbered(number)?),
        None => Ok(()),
    }
}

/// Puts the number of the relation that a conjunct calls, if it calls one, behind others.
fn push_conjunct_number(
    names: &NameTable<u32>,
    conjunct: &Expr,
    out: &mut Seq<u32>,
) -> Result<(), NoMemory>
    ensures { OnOk result (out.new ≡ out.old ++ conjunct_numbers (map (λ e. e.0) names.now) conjunct.now) }
{
    match call_of(conjunct) {
        Some((name, _)) => push_number(names, name, out),
        None => Ok(()),
    }
}

/// The same of conjuncts one behind the other.
fn numbers_of(
    alloc: Global,
    names: &NameTable<u32>,
    conjuncts: &[&Expr],
) -> Result<Seq<u32>, NoMemory>
    ensures { IfOk result (λ row. row ≡ flat_map (conjunct_numbers (map (λ e. e.0) names.now)) (map (λ r. r.now) conjuncts.now)) }
{
    let mut out = Seq::new(alloc);
    for conjunct in conjuncts {
        push_conjunct_number(names, conjunct, &mut out)?;
    }
    Ok(out)
}

/// The numbers of the relations that the conjuncts of a clause call.
fn clause_numbers(
    alloc: Global,
    names: &NameTable<u32>,
    clause: &Option<BlockTree>,
) -> Result<Seq<u32>, NoMemory>
    ensures { IfOk result (λ row. row ≡ numbers_of_clause (map (λ e. e.0) names.now) clause.now) }
{
    let conjuncts = clause_conjuncts(alloc, clause)?;
    numbers_of(alloc, names, conjuncts.as_slice())
}

/// For each relation the numbers of those that it calls in its when clause.
fn when_rows(
    alloc: Global,
    names: &NameTable<u32>,
    relations: &[&RelationTree],
) -> Result<Seq<Seq<u32>>, NoMemory>
    ensures { IfOk result (λ rows. rows ≡ rows_of_whens (map (λ e. e.0) names.now) (map (λ r. r.now) relations.now)) }
{
    let mut rows = Seq::new(alloc);
    for relation in relations {
        rows.push(clause_numbers(alloc, names, &relation.when)?)?;
    }
    Ok(rows)
}

/// And in its where clause.
fn where_rows(
    alloc: Global,
    names: &NameTable<u32>,
    relations: &[&RelationTree],
) -> Result<Seq<Seq<u32>>, NoMemory>
    ensures { IfOk result (λ rows. rows ≡ rows_of_wheres (map (λ e. e.0) names.now) (map (λ r. r.now) relations.now)) }
{
    let mut rows = Seq::new(alloc);
    for relation in relations {
        rows.push(clause_numbers(alloc, names, &relation.wheres)?)?;
    }
    Ok(rows)
}

/// The strata of relations, which have these names, or one on a cycle.
fn layers_of(
    alloc: Global,
    names: &NameTable<u32>,
    relations: &[&RelationTree],
) -> Result<Layers, NoMemory>
    ensures { IfOk result (AreLayers (rows_of_whens (map (λ e. e.0) names.now) (map (λ r. r.now) relations.now)) (rows_of_wheres (map (λ e. e.0) names.now) (map (λ r. r.now) relations.now))) }
{
    let whens = when_rows(alloc, names, relations)?;
    let wheres = where_rows(alloc, names, relations)?;
    strata(alloc, whens.as_slice(), wheres.as_slice())
}

/// Strata as numbers of 32 bits.
fn numbered_strata(alloc: Global, strata: &[usize]) -> Result<Seq<u32>, NoMemory>
    ensures { IfOk result (λ numbers. numbers ≡ strata.now) }
{
    let mut out = Seq::new(alloc);
    for stratum in strata {
        out.push(numbered(*stratum)?)?;
    }
    Ok(out)
}

/// That a relation lies on a cycle with a when call.
fn cycle_fault(alloc: Global, relation: &RelationTree) -> Result<TypeFault, NoMemory>
    ensures { IfOk result (λ f. f ≡ faults.WhenCycle relation.now.name.text) }
{
    Ok(TypeFault::WhenCycle(relation.name.text.duplicate(alloc)?))
}

/// The strata, or the fault that a relation lies on a cycle.
fn refuse_cycle(
    alloc: Global,
    relations: &[&RelationTree],
    layers: Layers,
) -> Result<Seq<u32>, TypeError>
    requires { IsAmong (map (λ r. r.now) relations.now) layers }
    ensures none { IfOk result (λ strata. layers ≡ layered.Layered strata) }
    ensures fault { IfFault result (IsCycleFault (map (λ r. r.now) relations.now) layers) }
{
    match layers {
        Layers::Cyclic(u) => Err(TypeError::Fault(cycle_fault(alloc, relations[u])?)),
        Layers::Layered(strata) => Ok(numbered_strata(alloc, strata.as_slice())?),
    }
}

/// The strata of the relations of a script, in the order of the text: for each the greatest number of when calls on a path of calls from
/// it (QVT 1.3, sections 7.2 and 7.11.1). Refuses a script in which a when call lies on a cycle of calls. It takes time in proportion to the
/// text.
///
/// # Errors
///
/// `WhenCycle` with the name of a relation on such a cycle, any one where several are, and `NoMemory`.
pub fn relation_strata(alloc: Global, script: &Script) -> Result<Seq<u32>, TypeError>
    requires { (name : List ℕ) → ¬ IsRepeated (global_names script.now) name }
    ensures strata { IfOk result (AllZip (IsStratum script.now) (all_relations script.now)) }
    ensures none { OnOk result ((r : Relation) → Contains (all_relations script.now) r → ¬ IsOnWhenCycle script.now r) }
    ensures fault { IfFault result (λ f. (s : Setting) → s.script ≡ script.now → StandsInScript s f) }
{
    let relations = relations_of(alloc, script)?;
    let listed = relations.as_slice();
    let names = relation_table(alloc, script)?;
    let layers = layers_of(alloc, &names, listed)?;
    refuse_cycle(alloc, listed, layers)
}
