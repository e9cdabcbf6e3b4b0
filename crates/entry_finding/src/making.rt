//! The entry of one binding.
ghost use Rattle.std.specs.Prelude.{◌≡◌, ◌++◌, ◌∷◌, [], ◌<◌, ◌≤◌, ◌^◌, List, length, map, slice_get, Some, IfOk, OnOk};
ghost use Rattle.std.specs.List.{filter_map};
ghost use Rattle.repair_semantics.specs.declared.term.Term.{Term};
ghost use Rattle.repair_semantics.specs.TargetItems.{target_metamodel};
ghost use Rattle.repair_semantics.specs.Entries.{calls_in};
ghost use Rattle.term_table.specs.TermTables.{values_in, IsGrown};
ghost use Rattle.entry_making.specs.Numbered.{known_of};
ghost use Rattle.entry_making.specs.Recipes.{IsRecipe};
ghost use Rattle.entry_making.specs.CallNumbers.{call_of};
ghost use Rattle.entry_finding.specs.Made.{numbered_entry, IsMadeBy, IsOutcomeBy, IsOutcome, IsBindingIn};

use crate::found::UnmetEntry;
use crate::made::{Made, MetEntry};
use crate::numbered_entry::NumberedEntry;
use crate::values::{duplicate_values, other_values};
use entry_making::{
    ItemDemand, NumberedCall, NumberedKnown, Recipe, calls_made, demands_made, known_in,
    unmet_place,
};
use mof_metamodel::{NoMemory, Seq};
use ocl_eval::Models;
use qv_syntax::Program;
use std::alloc::Global;
use term_table::{NumberedValue, TermTable};

/// By what the entries of a relation are made.
#[derive(Clone, Copy)]
pub(crate) struct Making<'a, 'p, 'm> {
    pub(crate) alloc: Global,
    pub(crate) program: &'a Program,
    pub(crate) models: &'a Models<'m>,
    pub(crate) recipe: &'a Recipe<'p>,
    pub(crate) rel: u32,
    pub(crate) called: bool,
}

/// The entry with these values of its binding, in which all variables have these, and with these demands.
fn numbered_entry(
    task: &Making<'_, '_, '_>,
    b: &[Option<NumberedValue>],
    all: &[Option<NumberedValue>],
    demands: Seq<ItemDemand>,
) -> Result<NumberedEntry, NoMemory>
    ensures { IfOk result (λ e. e ≡ numbered_entry task.now.rel task.now.called b.now all.now demands) }
{
    let values = duplicate_values(task.alloc, b)?;
    let made = other_values(task.alloc, b, all)?;
    Ok(NumberedEntry {
        rel: task.rel,
        called: task.called,
        values,
        made,
        demands,
    })
}

/// Puts a call behind others, if it is made.
fn push_call(call: Option<NumberedCall>, calls: &mut Seq<NumberedCall>) -> Result<(), NoMemory>
    ensures { OnOk result (calls.new ≡ calls.old ++ filter_map (λ c. c) (call ∷ [])) }
{
    match call {
        Some(call) => calls.push(call),
        None => Ok(()),
    }
}

/// The calls that are made.
fn given_calls(
    alloc: Global,
    calls: Seq<Option<NumberedCall>>,
) -> Result<Seq<NumberedCall>, NoMemory>
    ensures { IfOk result (λ given. given ≡ filter_map (λ c. c) calls) }
{
    let mut given = Seq::new(alloc);
    for call in calls.into_vec() {
        push_call(call, &mut given)?;
    }
    Ok(given)
}

/// The calls of the where clause.
fn where_calls(
    task: &Making<'_, '_, '_>,
    known: &mut NumberedKnown,
) -> Result<Seq<NumberedCall>, NoMemory>
    ensures calls { IfOk result (λ cs. (terms : List Term) → map (call_of terms) cs ≡ filter_map (λ c. c) (calls_in task.now.program.now task.now.models.now (known_of terms known.old) task.now.recipe.now.rel.now.wheres)) }
    ensures kept { OnOk result (known.new ≡ known.old) }
{
    let clause = task.recipe.rel.wheres.as_slice();
    let calls = calls_made(task.alloc, task.program, task.models, known, clause)?;
    given_calls(task.alloc, calls)
}

/// The entry with its calls and demands.
fn met_entry(
    task: &Making<'_, '_, '_>,
    b: &[Option<NumberedValue>],
    known: &mut NumberedKnown,
) -> Result<MetEntry, NoMemory>
    requires recipe { IsRecipe task.now.program.now (target_metamodel task.now.program.now task.now.models.now) task.now.recipe.now.rel.now task.now.recipe.now }
    requires places { length b.now ≡ length task.now.recipe.now.rel.now.vars }
    ensures { IfOk result (λ m. (terms : List Term) → IsMadeBy task.now.program.now task.now.models.now task.now.rel task.now.recipe.now.rel.now task.now.called (values_in terms b.now) (known_of terms known.old) terms m) }
{
    let calls = where_calls(task, known)?;
    let demands = demands_made(task.alloc, task.program, task.models, task.recipe, known)?;
    let entry = numbered_entry(task, b, known.values.as_slice(), demands)?;
    Ok(MetEntry { entry, calls })
}

/// The entry that is unmet at a place.
fn unmet_entry(
    task: &Making<'_, '_, '_>,
    b: &[Option<NumberedValue>],
    all: &[Option<NumberedValue>],
) -> Result<NumberedEntry, NoMemory>
    ensures { IfOk result (λ e. e ≡ numbered_entry task.now.rel task.now.called b.now all.now []) }
{
    numbered_entry(task, b, all, Seq::new(task.alloc))
}

/// What is found of a binding by what is known in its entry.
fn made_by(
    task: &Making<'_, '_, '_>,
    b: &[Option<NumberedValue>],
    known: &mut NumberedKnown,
) -> Result<Made, NoMemory>
    requires recipe { IsRecipe task.now.program.now (target_metamodel task.now.program.now task.now.models.now) task.now.recipe.now.rel.now task.now.recipe.now }
    requires short { length task.now.recipe.now.rel.now.wheres < 2 ^ 32 }
    requires places { length b.now ≡ length task.now.recipe.now.rel.now.vars }
    ensures { IfOk result (λ m. (terms : List Term) → IsOutcomeBy task.now.program.now task.now.models.now task.now.rel task.now.recipe.now.rel.now task.now.called (values_in terms b.now) (known_of terms known.old) terms m) }
{
    match unmet_place(task.alloc, task.program, task.models, task.recipe, known)? {
        Some(place) => {
            let entry = unmet_entry(task, b, known.values.as_slice())?;
            Ok(Made::Unmet(UnmetEntry { entry, place }))
        }
        None => {
            let met = met_entry(task, b, known)?;
            Ok(Made::Met(met))
        }
    }
}

/// What is found of a binding. New terms go into the table.
pub(crate) fn entry_made(
    task: &Making<'_, '_, '_>,
    table: &mut TermTable,
    b: &[Option<NumberedValue>],
) -> Result<Made, NoMemory>
    requires recipe { IsRecipe task.now.program.now (target_metamodel task.now.program.now task.now.models.now) task.now.recipe.now.rel.now task.now.recipe.now }
    requires found { slice_get task.now.program.now.rels task.now.rel ≡ Some task.now.recipe.now.rel.now }
    requires short { length task.now.recipe.now.rel.now.wheres < 2 ^ 32 }
    requires few { length task.now.recipe.now.rel.now.vars ≤ 2 ^ 32 }
    requires binding { IsBindingIn task.now.program.now task.now.recipe.now.rel.now table.old b.now }
    ensures made { IfOk result (IsOutcome task.now.program.now task.now.models.now table.new task.now.rel task.now.recipe.now.rel.now task.now.called (values_in table.old b.now)) }
    ensures grown { IsGrown table.old table.new }
{
    let mut known = known_in(task.alloc, task.program, task.models, task.recipe, table, b)?;
    made_by(task, b, &mut known)
}
