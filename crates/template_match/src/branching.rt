//! The next variable, with its candidates.
ghost use Rattle.std.specs.Prelude.{◌≡◌, ◌++◌, true, false, map, slice_get, Some, Contains, IfOk, OnOk};
ghost use Rattle.std.specs.Option.{option_copied};
ghost use Rattle.qvtr_semantics.specs.declared.datum.Datum.TheVariants.{Obj};
ghost use Rattle.qvtr_semantics.specs.Expressions.{setting, value_for};
ghost use Rattle.qvtr_semantics.specs.Outs.{datum_of};
ghost use Rattle.qvtr_semantics.specs.Objects.{held_by};
ghost use Rattle.qv_syntax.specs.declared.program.Conj.{Conj};
ghost use Rattle.template_match.specs.declared.link.Link.{Link};
ghost use Rattle.template_match.specs.Branches.{branch_of, IsBranch, IsNext};
ghost use Rattle.template_match.specs.Prepared.{problem_in, IsPrepared};
ghost use Rattle.template_match.specs.Rows.{one_datum, cells_in};
ghost use Rattle.template_match.specs.Search.{conjuncts_in, usable_link, usable_conjunct, extent_for, some_data, data_in};
ghost use Rattle.template_match.specs.Tasks.{problem_of};
ghost use Rattle.template_match.specs.Untried.{HasObjects};

use crate::branch::Branch;
use crate::candidates::Candidates;
use crate::choice::Choice;
use crate::choosing::best_choice;
use crate::expressions::saying;
use crate::match_table::MatchTable;
use crate::opening::{extent_for, usable_conjunct, usable_variable};
use crate::prepared::Prepared;
use crate::row_order::cell_at;
use crate::task::Task;
use crate::untried::Untried;
use key_index::Holder;
use mof_metamodel::{ClassId, NoMemory, PropId, Seq};
use object_tables::ObjId;
use ocl_eval::{datum_of, duplicate_datum, eval, extent_of, held_at, set_in_order};
use qv_syntax::{Conj, Typed};
use qvtr_semantics::{Binding, Datum};
use std::alloc::Global;

// ---- candidates

/// The data, or none.
fn some_data(alloc: Global, slot: Option<Seq<Datum>>) -> Seq<Datum>
    ensures { result ≡ some_data slot }
{
    match slot {
        Some(data) => data,
        None => Seq::new(alloc),
    }
}

/// The data in a slot of an object of the model of this number.
fn slot_data(
    task: &Task<'_, '_>,
    model: u32,
    object: ObjId,
    prop: PropId,
) -> Result<Seq<Datum>, NoMemory>
    ensures { IfOk result (λ ds. ds ≡ some_data (held_by (setting task.now.program.now task.now.models.now) model object.0 prop.0)) }
{
    let holder = Datum::Obj(model, object);
    let slot = held_at(task.alloc, task.program, task.models, &holder, prop)?;
    Ok(some_data(task.alloc, slot))
}

/// The objects of the model of this number that hold a value.
fn holder_data(alloc: Global, model: u32, holders: &[Holder]) -> Result<Seq<Datum>, NoMemory>
    ensures { IfOk result (λ ds. ds ≡ map (λ h. Obj model h.object) holders.now) }
{
    let mut data = Seq::new(alloc);
    for holder in holders {
        data.push(Datum::Obj(model, holder.object))?;
    }
    Ok(data)
}

/// Puts the datum behind others, if there is one.
fn add_datum(alloc: Global, listed: &mut Seq<Datum>, datum: Option<&Datum>) -> Result<(), NoMemory>
    ensures { OnOk result (listed.new ≡ listed.old ++ one_datum (option_copied datum.entry)) }
{
    match datum {
        Some(datum) => {
            listed.push(duplicate_datum(alloc, datum)?)?;
            Ok(())
        }
        None => Ok(()),
    }
}

/// The data in a column of rows.
fn row_data(
    alloc: Global,
    table: &MatchTable,
    column: usize,
    numbers: &[usize],
) -> Result<Seq<Datum>, NoMemory>
    ensures { IfOk result (λ ds. ds ≡ cells_in table.now column numbers.now) }
{
    let mut data = Seq::new(alloc);
    for number in numbers {
        add_datum(alloc, &mut data, cell_at(table.rows(), column, *number))?;
    }
    Ok(data)
}

/// The candidates.
fn data_in(task: &Task<'_, '_>, candidates: &Candidates<'_>) -> Result<Seq<Datum>, NoMemory>
    ensures { IfOk result (λ ds. ds ≡ data_in (setting task.now.program.now task.now.models.now) candidates.now) }
{
    match candidates {
        Candidates::Nowhere => Ok(Seq::new(task.alloc)),
        Candidates::Slot {
            model,
            object,
            prop,
        } => slot_data(task, *model, *object, *prop),
        Candidates::Holders { model, holders } => holder_data(task.alloc, *model, holders),
        Candidates::Rows {
            table,
            column,
            numbers,
        } => Ok(set_in_order(row_data(task.alloc, table, *column, numbers)?)),
    }
}

/// The variable of a choice, with its candidates.
pub(crate) fn chosen_branch<'a>(
    task: &Task<'a, '_>,
    choice: &Choice<'a>,
) -> Result<Branch<'a>, NoMemory>
    ensures { IfOk result (λ b. b ≡ branch_of (problem_of task.now) choice.now) }
{
    let candidates = data_in(task, &choice.candidates)?;
    Ok(Branch {
        variable: choice.variable,
        candidates: Untried::listed(candidates),
    })
}

/// The datum alone, if there is one.
fn one_datum(alloc: Global, datum: Option<&Datum>) -> Result<Seq<Datum>, NoMemory>
    ensures { IfOk result (λ ds. ds ≡ one_datum (option_copied datum.entry)) }
{
    let mut data = Seq::new(alloc);
    add_datum(alloc, &mut data, datum)?;
    Ok(data)
}

/// The variable of `v = e`, with the value of `e`.
fn saying_branch<'a>(
    task: &Task<'a, '_>,
    binding: &Binding,
    variable: u32,
    e: &Typed,
) -> Result<Branch<'a>, NoMemory>
    ensures { IfOk result (λ b. b ≡ record { variable = variable; candidates = one_datum (datum_of (value_for task.now.program.now task.now.models.now e.now binding.now.values)) }) }
{
    let out = eval(task.alloc, task.program, e, task.models, binding)?;
    let candidates = one_datum(task.alloc, datum_of(&out))?;
    Ok(Branch {
        variable,
        candidates: Untried::listed(candidates),
    })
}

/// The objects of a class in the model of this number.
fn objects_in<'a>(task: &Task<'a, '_>, number: u32, class: ClassId) -> Result<Untried<'a>, NoMemory>
    ensures { IfOk result (HasObjects task.now.models.now (Some (number, class))) }
{
    match task.models.get(number as usize) {
        Some(model) => match task.models.index_of(number) {
            Some(index) => {
                let extent = index.extent(model, class);
                Ok(Untried::objects(task.alloc, number, extent))
            }
            None => Ok(Untried::listed(extent_of(task.alloc, number, model, class)?)),
        },
        None => Ok(Untried::listed(Seq::new(task.alloc))),
    }
}

/// The objects of an extent.
fn objects_of<'a>(
    task: &Task<'a, '_>,
    extent: Option<(u32, ClassId)>,
) -> Result<Untried<'a>, NoMemory>
    ensures { IfOk result (HasObjects task.now.models.now extent) }
{
    match extent {
        Some((model, class)) => objects_in(task, model, class),
        None => Ok(Untried::listed(Seq::new(task.alloc))),
    }
}

/// A variable, with the objects of its class.
pub(crate) fn object_branch<'a>(task: &Task<'a, '_>, variable: u32) -> Result<Branch<'a>, NoMemory>
    ensures variable { IfOk result (λ b. b.variable ≡ variable) }
    ensures candidates { IfOk result (λ b. HasObjects task.now.models.now (extent_for (slice_get task.now.rel.now.vars variable)) b.candidates) }
{
    let candidates = objects_of(task, extent_for(task.rel, variable))?;
    Ok(Branch {
        variable,
        candidates,
    })
}

// ---- the next variable

/// The next variable, where neither a conjunct nor a value says what one is: the first one for objects.
fn branch_without_value<'a>(
    prepared: &Prepared<'_, 'a, '_>,
    binding: &Binding,
) -> Result<Option<Branch<'a>>, NoMemory>
    requires prepared { IsPrepared prepared.now binding.now.values }
    requires links { (l : Link) → Contains prepared.now.task.now.links.now l → usable_link (problem_in prepared.now) binding.now.values l ≡ false }
    requires conjuncts { (c : Conj) → Contains (conjuncts_in (problem_in prepared.now)) c → usable_conjunct (problem_in prepared.now) binding.now.values c ≡ false }
    ensures { IfOk result (IsNext (problem_in prepared.now) binding.now.values) }
{
    match usable_variable(prepared, binding) {
        Some(variable) => Ok(Some(object_branch(prepared.task, variable)?)),
        None => Ok(None),
    }
}

/// The next variable, where no conjunct says what one is: one with few candidates, if a value tells any.
fn branch_without_conjunct<'a>(
    prepared: &Prepared<'_, 'a, '_>,
    binding: &Binding,
) -> Result<Option<Branch<'a>>, NoMemory>
    requires prepared { IsPrepared prepared.now binding.now.values }
    requires conjuncts { (c : Conj) → Contains (conjuncts_in (problem_in prepared.now)) c → usable_conjunct (problem_in prepared.now) binding.now.values c ≡ false }
    ensures { IfOk result (IsNext (problem_in prepared.now) binding.now.values) }
{
    match best_choice(prepared, binding)? {
        Some(choice) => Ok(Some(chosen_branch(prepared.task, &choice)?)),
        None => branch_without_value(prepared, binding),
    }
}

/// The variable of a conjunct that says what one is.
pub(crate) fn said_branch<'a>(
    prepared: &Prepared<'_, 'a, '_>,
    binding: &Binding,
    conjunct: &Conj,
) -> Result<Branch<'a>, NoMemory>
    requires prepared { IsPrepared prepared.now binding.now.values }
    requires conjunct { Contains (conjuncts_in (problem_in prepared.now)) conjunct.now }
    requires usable { usable_conjunct (problem_in prepared.now) binding.now.values conjunct.now ≡ true }
    ensures { IfOk result (IsBranch (problem_in prepared.now) binding.now.values) }
{
    match saying(conjunct) {
        Some((variable, e)) => saying_branch(prepared.task, binding, variable, e),
        None => unreachable!(),
    }
}

/// The next variable, with its candidates.
pub(crate) fn next_branch<'a>(
    prepared: &Prepared<'_, 'a, '_>,
    binding: &Binding,
) -> Result<Option<Branch<'a>>, NoMemory>
    requires prepared { IsPrepared prepared.now binding.now.values }
    ensures { IfOk result (IsNext (problem_in prepared.now) binding.now.values) }
{
    match usable_conjunct(prepared, binding) {
        Some(conjunct) => Ok(Some(said_branch(prepared, binding, conjunct)?)),
        None => branch_without_conjunct(prepared, binding),
    }
}
