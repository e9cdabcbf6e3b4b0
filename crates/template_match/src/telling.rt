//! The next variable with few candidates, as the parts on the agenda tell.
ghost use Rattle.std.specs.Prelude.{◌≡◌, ◌⊎◌, true, IfSome, IfOk};
ghost use Rattle.template_match.specs.Branches.{IsBranch, IsChoice, Tells};
ghost use Rattle.qvtr_semantics.specs.Templates.{Values};
ghost use Rattle.template_match.specs.Prepared.{problem_in, IsPrepared};
ghost use Rattle.template_match.specs.Problems.{Problem};
ghost use Rattle.template_match.specs.Search.{usable_variable};

use crate::agenda::{Agenda, COMPARED_PARTS};
use crate::branch::Branch;
use crate::branching::{chosen_branch, object_branch, said_branch};
use crate::choice::Choice;
use crate::choosing::{asked_choice, link_choice};
use crate::join_choosing::{best_whole, bound_choice};
use crate::opening::{is_usable_conjunct, is_usable_variable};
use crate::part::{Part, numbered};
use crate::prepared::Prepared;
use crate::sides::clause_of;
use crate::told::Told;
use mof_metamodel::NoMemory;
use qvtr_semantics::Binding;

// ---- what a part tells

/// What a choice tells, if there is one.
fn told_choice<'a>(choice: Option<Choice<'a>>) -> Told<'a>
    ensures { (p : Problem) (a : Values) → IfSome choice.entry (IsChoice p a) → Tells p a result }
{
    match choice {
        Some(choice) => Told::Chosen(choice),
        None => Told::Nothing,
    }
}

/// What a link tells.
fn link_told<'a>(prepared: &Prepared<'_, 'a, '_>, binding: &Binding, number: usize) -> Told<'a>
    requires prepared { IsPrepared prepared.now binding.now.values }
    ensures { Tells (problem_in prepared.now) binding.now.values result }
{
    match numbered(prepared.task.links, number) {
        Some(link) => told_choice(link_choice(prepared, binding, link)),
        None => Told::Nothing,
    }
}

/// What tells that which is asked of a slot.
fn asked_told<'a>(
    prepared: &Prepared<'_, 'a, '_>,
    binding: &Binding,
    number: usize,
) -> Result<Told<'a>, NoMemory>
    requires prepared { IsPrepared prepared.now binding.now.values }
    ensures { IfOk result (Tells (problem_in prepared.now) binding.now.values) }
{
    match numbered(prepared.asked, number) {
        Some(asked) => Ok(told_choice(asked_choice(prepared, binding, asked)?)),
        None => Ok(Told::Nothing),
    }
}

/// What a conjunct tells.
fn conjunct_told<'a>(prepared: &Prepared<'_, 'a, '_>, binding: &Binding, number: usize) -> Told<'a>
    requires prepared { IsPrepared prepared.now binding.now.values }
    ensures { Tells (problem_in prepared.now) binding.now.values result }
{
    match numbered(clause_of(prepared.task.side, prepared.task.rel), number) {
        Some(conjunct) => {
            if is_usable_conjunct(prepared, binding, conjunct) {
                Told::Said(conjunct)
            } else {
                Told::Nothing
            }
        }
        None => Told::Nothing,
    }
}

/// What the rows of a join tell with the values of the binding.
fn join_told<'a>(prepared: &Prepared<'_, 'a, '_>, binding: &Binding, number: usize) -> Told<'a>
    requires prepared { IsPrepared prepared.now binding.now.values }
    ensures { Tells (problem_in prepared.now) binding.now.values result }
{
    match numbered(prepared.task.joins, number) {
        Some(join) => told_choice(bound_choice(prepared, binding, join)),
        None => Told::Nothing,
    }
}

/// What a part tells.
fn part_told<'a>(
    prepared: &Prepared<'_, 'a, '_>,
    binding: &Binding,
    part: Part,
) -> Result<Told<'a>, NoMemory>
    requires prepared { IsPrepared prepared.now binding.now.values }
    ensures { IfOk result (Tells (problem_in prepared.now) binding.now.values) }
{
    match part {
        Part::Shape(_) => Ok(Told::Nothing),
        Part::Link(number) => Ok(link_told(prepared, binding, number)),
        Part::Asked(number) => asked_told(prepared, binding, number),
        Part::Conjunct(number) => Ok(conjunct_told(prepared, binding, number)),
        Part::Join(number) => Ok(join_told(prepared, binding, number)),
    }
}

// ---- the fewest

/// Whether at most one candidate is told.
fn is_single(told: &Told<'_>) -> bool {
    match told {
        Told::Nothing => false,
        Told::Said(_) => true,
        Told::Chosen(choice) => choice.count <= 1,
    }
}

/// Of two the one that tells fewer candidates.
fn better<'a>(one: Told<'a>, other: Told<'a>) -> Told<'a>
    ensures { (result ≡ one.entry) ⊎ (result ≡ other.entry) }
{
    match (one, other) {
        (Told::Nothing, _) => other,
        (Told::Chosen(a), Told::Chosen(b)) => { if b.count < a.count { other } else { one } }
        (_, Told::Said(_)) => other,
        _ => one,
    }
}

/// What a part on the agenda tells. It is kept there where that is more than one candidate.
fn look_at<'a>(
    prepared: &Prepared<'_, 'a, '_>,
    binding: &Binding,
    agenda: &mut Agenda,
    number: usize,
) -> Result<Told<'a>, NoMemory>
    requires prepared { IsPrepared prepared.now binding.now.values }
    ensures { IfOk result (Tells (problem_in prepared.now) binding.now.values) }
{
    let told = match agenda.part(number) {
        Some(part) => part_told(prepared, binding, part)?,
        None => Told::Nothing,
    };
    if let Told::Chosen(choice) = &told {
        if choice.count > 1 {
            agenda.keep(number)?;
        }
    }
    Ok(told)
}

/// Whether no more parts are to be looked at.
fn is_enough(agenda: &Agenda, best: &Told<'_>) -> bool {
    is_single(best) || agenda.kept_count() >= COMPARED_PARTS
}

/// The fewest candidates that parts on the agenda tell.
fn best_told<'a>(
    prepared: &Prepared<'_, 'a, '_>,
    binding: &Binding,
    agenda: &mut Agenda,
) -> Result<Told<'a>, NoMemory>
    requires prepared { IsPrepared prepared.now binding.now.values }
    ensures { IfOk result (Tells (problem_in prepared.now) binding.now.values) }
{
    let mut best = Told::Nothing;
    for _ in 0..agenda.len() {
        if is_enough(agenda, &best) {
            break;
        }
        match agenda.take() {
            Some(number) => best = better(best, look_at(prepared, binding, agenda, number)?),
            None => break,
        }
    }
    agenda.put_back()?;
    Ok(best)
}

// ---- the next variable

/// The next variable, as parts on the agenda tell.
fn told_branch<'a>(
    prepared: &Prepared<'_, 'a, '_>,
    binding: &Binding,
    agenda: &mut Agenda,
) -> Result<Option<Branch<'a>>, NoMemory>
    requires prepared { IsPrepared prepared.now binding.now.values }
    ensures { IfOk result (λ o. IfSome o (IsBranch (problem_in prepared.now) binding.now.values)) }
{
    match best_told(prepared, binding, agenda)? {
        Told::Nothing => Ok(None),
        Told::Said(conjunct) => Ok(Some(said_branch(prepared, binding, conjunct)?)),
        Told::Chosen(choice) => Ok(Some(chosen_branch(prepared.task, &choice)?)),
    }
}

/// The first variable for objects that is open, from a place on before which there is none.
fn open_object(
    prepared: &Prepared<'_, '_, '_>,
    binding: &Binding,
    agenda: &mut Agenda,
) -> Option<u32>
    requires prepared { IsPrepared prepared.now binding.now.values }
    ensures { IfSome result (λ v. usable_variable (problem_in prepared.now) binding.now.values v ≡ true) }
{
    let variables = prepared.task.variables;
    for place in agenda.place()..variables.len() {
        let variable = variables[place];
        if is_usable_variable(prepared, binding, variable) {
            agenda.set_place(place);
            return Some(variable);
        }
    }
    agenda.set_place(variables.len());
    None
}

/// The next variable, where no part tells one: one of a join, or else one for objects.
fn untold_branch<'a>(
    prepared: &Prepared<'_, 'a, '_>,
    binding: &Binding,
    agenda: &mut Agenda,
) -> Result<Option<Branch<'a>>, NoMemory>
    requires prepared { IsPrepared prepared.now binding.now.values }
    ensures { IfOk result (λ o. IfSome o (IsBranch (problem_in prepared.now) binding.now.values)) }
{
    match best_whole(prepared, binding, agenda) {
        Some(choice) => Ok(Some(chosen_branch(prepared.task, &choice)?)),
        None => match open_object(prepared, binding, agenda) {
            Some(variable) => Ok(Some(object_branch(prepared.task, variable)?)),
            None => Ok(None),
        },
    }
}

/// The next variable, with its candidates, unless the agenda leads to none.
pub(crate) fn planned_branch<'a>(
    prepared: &Prepared<'_, 'a, '_>,
    binding: &Binding,
    agenda: &mut Agenda,
) -> Result<Option<Branch<'a>>, NoMemory>
    requires prepared { IsPrepared prepared.now binding.now.values }
    ensures { IfOk result (λ o. IfSome o (IsBranch (problem_in prepared.now) binding.now.values)) }
{
    match told_branch(prepared, binding, agenda)? {
        Some(branch) => Ok(Some(branch)),
        None => untold_branch(prepared, binding, agenda),
    }
}
