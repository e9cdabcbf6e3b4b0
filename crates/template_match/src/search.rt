//! The search: it gives one variable a value after another, and keeps what it has yet to try in a list of levels.
ghost use Rattle.std.specs.Prelude.{◌≡◌, ◌++◌, ◌∷◌, ◌↔◌, false, reverse, Contains, IfOk, OnOk};
ghost use Rattle.qvtr_semantics.specs.Templates.{Values};
ghost use Rattle.template_match.specs.Branches.{IsFound};
ghost use Rattle.template_match.specs.Levels.{IsBegun, AreLevels, AreMore, IsStep, IsFoundOrOwed};
ghost use Rattle.template_match.specs.Prepared.{problem_in, IsPrepared};
ghost use Rattle.template_match.specs.Search.{fits, tested, values_of};
ghost use Rattle.template_match.specs.Tasks.{problem_of};

use crate::agenda::Agenda;
use crate::allowing::is_allowed;
use crate::branch::Branch;
use crate::branching::next_branch;
use crate::joins::are_joined;
use crate::meeting::meets;
use crate::opening::is_any_open;
use crate::prepared::Prepared;
use crate::task::Task;
use crate::telling::planned_branch;
use crate::values::{duplicate_binding, with_value};
use mof_metamodel::{NoMemory, Seq};
use qvtr_semantics::Binding;

/// Whether the binding meets the side, and stands in a row of each join.
fn fits(task: &Task<'_, '_>, binding: &Binding) -> Result<bool, NoMemory>
    ensures { IfOk result (λ b. b ≡ fits (problem_of task.now) binding.now.values) }
{
    if are_joined(task.joins, binding) {
        meets(task, binding)
    } else {
        Ok(false)
    }
}

/// Puts the binding behind others, if it is one that is looked for.
pub(crate) fn add_tested(
    task: &Task<'_, '_>,
    binding: &Binding,
    found: &mut Seq<Binding>,
) -> Result<(), NoMemory>
    ensures { OnOk result (values_of found.new ≡ values_of found.old ++ tested (problem_of task.now) binding.now.values) }
{
    if fits(task, binding)? {
        found.push(duplicate_binding(task.alloc, binding)?)?;
    }
    Ok(())
}

/// Looks at a binding: where a variable is open, the next one with its candidates, unless nothing is found from
/// here on. Where none is, the binding is found, if it is one that is looked for.
fn begin<'a>(
    prepared: &Prepared<'_, 'a, '_>,
    binding: &Binding,
    agenda: &mut Agenda,
    found: &mut Seq<Binding>,
) -> Result<Option<Branch<'a>>, NoMemory>
    requires prepared { IsPrepared prepared.now binding.now.values }
    ensures { IfOk result (IsBegun (problem_in prepared.now) binding.now.values (values_of found.old) (values_of found.new)) }
{
    if agenda.is_full() {
        return begin_unplanned(prepared, binding, found);
    }
    match planned_branch(prepared, binding, agenda)? {
        Some(level) => Ok(Some(level)),
        None => begin_unplanned(prepared, binding, found),
    }
}

/// The same where the agenda leads to no variable. Where a program is well formed none is open then; nothing that
/// is proved rests on that.
fn begin_unplanned<'a>(
    prepared: &Prepared<'_, 'a, '_>,
    binding: &Binding,
    found: &mut Seq<Binding>,
) -> Result<Option<Branch<'a>>, NoMemory>
    requires prepared { IsPrepared prepared.now binding.now.values }
    ensures { IfOk result (IsBegun (problem_in prepared.now) binding.now.values (values_of found.old) (values_of found.new)) }
{
    if is_any_open(prepared, binding) {
        next_branch(prepared, binding)
    } else {
        add_tested(prepared.task, binding, found)?;
        Ok(None)
    }
}

/// Looks at a binding, and puts a level for the next variable behind those that led to it.
fn enter<'a>(
    prepared: &Prepared<'_, 'a, '_>,
    binding: &Binding,
    levels: &mut Seq<Branch<'a>>,
    agenda: &mut Agenda,
    found: &mut Seq<Binding>,
) -> Result<(), NoMemory>
    requires prepared { IsPrepared prepared.now binding.now.values }
    requires levels { AreLevels prepared.now binding.now.values (reverse levels.old) }
    ensures { OnOk result (AreMore prepared.now binding.now.values (reverse levels.old) (values_of found.old) (reverse levels.new) (values_of found.new)) }
{
    match begin(prepared, binding, agenda, found)? {
        Some(level) => {
            agenda.open_level(level.variable)?;
            levels.push(level)
        }
        None => Ok(()),
    }
}

/// The same, unless a part that says something of the values that are there is against the binding: of all, or of
/// those that name the variable that was given one.
fn enter_allowed<'a>(
    prepared: &Prepared<'_, 'a, '_>,
    binding: &Binding,
    given: Option<u32>,
    levels: &mut Seq<Branch<'a>>,
    agenda: &mut Agenda,
    found: &mut Seq<Binding>,
) -> Result<(), NoMemory>
    requires prepared { IsPrepared prepared.now binding.now.values }
    requires levels { AreLevels prepared.now binding.now.values (reverse levels.old) }
    ensures { OnOk result (AreMore prepared.now binding.now.values (reverse levels.old) (values_of found.old) (reverse levels.new) (values_of found.new)) }
{
    let allowed = is_allowed(prepared, binding, agenda, given)?;
    if allowed {
        enter(prepared, binding, levels, agenda, found)
    } else {
        Ok(())
    }
}

/// Gives the variable of the last level the next of the candidates that are left for it, or where none is left
/// takes its value away. Answers the binding that it comes to.
fn step<'a>(
    prepared: &Prepared<'_, 'a, '_>,
    binding: Binding,
    levels: &mut Seq<Branch<'a>>,
    mut last: Branch<'a>,
    agenda: &mut Agenda,
    found: &mut Seq<Binding>,
) -> Result<Binding, NoMemory>
    requires { AreLevels prepared.now binding.values (last ∷ reverse levels.old) }
    ensures { IfOk result (λ c. IsStep prepared.now binding.values (last.entry ∷ reverse levels.old) (values_of found.old) c.values (reverse levels.new) (values_of found.new)) }
{
    let variable = last.variable;
    match last.candidates.pop() {
        Some(datum) => {
            let next = with_value(binding, variable, Some(datum));
            levels.push(last)?;
            agenda.restart();
            enter_allowed(prepared, &next, Some(variable), levels, agenda, found)?;
            Ok(next)
        }
        None => {
            agenda.close_level(variable);
            Ok(with_value(binding, variable, None))
        }
    }
}

/// Goes through levels until none is left. Behind 2^64 steps it would answer want of memory: no machine makes so
/// many.
fn search_levels<'a>(
    prepared: &Prepared<'_, 'a, '_>,
    roots: Binding,
    levels: &mut Seq<Branch<'a>>,
    agenda: &mut Agenda,
    found: &mut Seq<Binding>,
) -> Result<(), NoMemory>
    requires { AreLevels prepared.now roots.values (reverse levels.old) }
    ensures { OnOk result ((b : Values) → Contains (values_of found.new) b ↔ IsFoundOrOwed (problem_in prepared.now) roots.values (reverse levels.old) (values_of found.old) b) }
{
    let mut binding = roots;
    'steps: for _ in 0..u64::MAX {
        match levels.pop() {
            Some(last) => binding = step(prepared, binding, levels, last, agenda, found)?,
            None => return Ok(()),
        }
    }
    Err(NoMemory)
}

/// Puts the bindings that are found from this one on behind others. What it has yet to try stands in a list of
/// levels, one for each variable that has got a value, and not in calls within one another: so the stack doesn't
/// bound how many variables there are. There may be 2^64 steps, each with a candidate, or to the level before.
pub(crate) fn search_from(
    prepared: &Prepared<'_, '_, '_>,
    binding: &Binding,
    agenda: &mut Agenda,
    found: &mut Seq<Binding>,
) -> Result<(), NoMemory>
    requires prepared { IsPrepared prepared.now binding.now.values }
    ensures { OnOk result (IsFound (problem_in prepared.now) binding.now.values (values_of found.old) (values_of found.new)) }
{
    let mut levels = Seq::new(prepared.task.alloc);
    enter_allowed(prepared, binding, None, &mut levels, agenda, found)?;
    let roots = duplicate_binding(prepared.task.alloc, binding)?;
    search_levels(prepared, roots, &mut levels, agenda, found)
}
