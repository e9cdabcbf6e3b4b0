//! The entries of all bindings.
ghost use Rattle.std.specs.Prelude.{◌≡◌, ◌++◌, ◌∷◌, [], ◌<◌, ◌≤◌, ◌^◌, length, map, slice_get, Some, All, IfOk, OnOk};
ghost use Rattle.repair_semantics.specs.TargetItems.{target_metamodel};
ghost use Rattle.term_table.specs.TermTables.{values_in, IsGrown};
ghost use Rattle.entry_making.specs.Recipes.{IsRecipe};
ghost use Rattle.entry_finding.specs.Found.{IfMet, IfUnmet};
ghost use Rattle.entry_finding.specs.Made.{IsBindingIn, AreMade, IsOneUnmet};

use crate::found::{Finding, Found};
use crate::made::{Made, MetEntry};
use crate::making::{Making, entry_made};
use entry_making::NumberedCall;
use mof_metamodel::{NoMemory, Seq};
use term_table::{NumberedValue, TermTable};

/// Puts these calls behind the others.
fn append_calls(calls: &mut Seq<NumberedCall>, more: Seq<NumberedCall>) -> Result<(), NoMemory>
    ensures { OnOk result (calls.new ≡ calls.old ++ more) }
{
    for call in more.into_vec() {
        calls.push(call)?;
    }
    Ok(())
}

/// Puts an entry behind the others, with its calls.
fn put_met(found: &mut Found, met: MetEntry) -> Result<(), NoMemory>
    ensures entries { OnOk result (found.new.entries ≡ found.old.entries ++ met.entry ∷ []) }
    ensures calls { OnOk result (found.new.calls ≡ found.old.calls ++ met.calls) }
{
    let MetEntry { entry, calls } = met;
    append_calls(&mut found.calls, calls)?;
    found.entries.push(entry)
}

/// The entries of these bindings, or the first that is unmet. New terms go into the table.
pub(crate) fn all_made(
    task: &Making<'_, '_, '_>,
    table: &mut TermTable,
    bs: &[Seq<Option<NumberedValue>>],
) -> Result<Finding, NoMemory>
    requires recipe { IsRecipe task.now.program.now (target_metamodel task.now.program.now task.now.models.now) task.now.recipe.now.rel.now task.now.recipe.now }
    requires found { slice_get task.now.program.now.rels task.now.rel ≡ Some task.now.recipe.now.rel.now }
    requires short { length task.now.recipe.now.rel.now.wheres < 2 ^ 32 }
    requires few { length task.now.recipe.now.rel.now.vars ≤ 2 ^ 32 }
    requires bindings { All (IsBindingIn task.now.program.now task.now.recipe.now.rel.now table.old) bs.now }
    ensures met { IfOk result (IfMet (AreMade task.now.program.now task.now.models.now table.new task.now.rel task.now.recipe.now.rel.now task.now.called (map (values_in table.old) bs.now))) }
    ensures unmet { IfOk result (IfUnmet (IsOneUnmet task.now.program.now task.now.models.now table.new task.now.rel task.now.recipe.now.rel.now task.now.called (map (values_in table.old) bs.now))) }
    ensures grown { IsGrown table.old table.new }
{
    let mut found = Found {
        entries: Seq::new(task.alloc),
        calls: Seq::new(task.alloc),
    };
    for b in bs {
        match entry_made(task, table, b.as_slice())? {
            Made::Met(met) => put_met(&mut found, met)?,
            Made::Unmet(unmet) => return Ok(Finding::Unmet(unmet)),
        }
    }
    Ok(Finding::Met(found))
}
