//! Which parts of what a search asks are against a binding in which some variables have no value yet.
ghost use Rattle.std.specs.Prelude.{◌≡◌, ◌||◌, not, false, Contains, IfOk};
ghost use Rattle.std.specs.Option.{option_copied};
ghost use Rattle.qvtr_semantics.specs.Expressions.{setting, value_for};
ghost use Rattle.qvtr_semantics.specs.Objects.{held_at};
ghost use Rattle.qvtr_semantics.specs.Outs.{datum_of};
ghost use Rattle.qvtr_semantics.specs.Templates.{value_at, has};
ghost use Rattle.template_match.specs.Asked.{asked_value};
ghost use Rattle.template_match.specs.Branches.{IsBarren};
ghost use Rattle.template_match.specs.Prepared.{problem_in, IsPrepared};
ghost use Rattle.template_match.specs.Pruning.{may_shape, may_link, may_asked, may_be_one, may_conjunct};
ghost use Rattle.template_match.specs.Ready.{is_ready};
ghost use Rattle.template_match.specs.Shapes.{has_feature};
ghost use Rattle.template_match.specs.Tasks.{problem_of};

use crate::asked::{Asked, AskedBy};
use crate::joins::may_join;
use crate::link::Link;
use crate::meeting::{are_one, expression_stands, is_empty_at};
use crate::part::{Part, numbered};
use crate::prepared::Prepared;
use crate::readiness::is_ready;
use crate::shape::{Feature, Shape};
use crate::sides::clause_of;
use crate::standing::may_stand_at;
use crate::task::Task;
use crate::values::value_at;
use mof_metamodel::{NoMemory, PropId};
use ocl_eval::{datum_of, eval, holds, is_of_class};
use qv_syntax::{Conj, Typed};
use qvtr_semantics::{Binding, Datum};

// ---- templates

/// Whether the object has the feature.
fn has_feature(task: &Task<'_, '_>, datum: &Datum, feature: Feature) -> Result<bool, NoMemory>
    ensures { IfOk result (λ b. b ≡ has_feature (setting task.now.program.now task.now.models.now) datum.now feature) }
{
    match feature {
        Feature::Class(class) => Ok(is_of_class(task.models, class, datum)),
        Feature::Empty(prop) => is_empty_at(task, datum, prop),
    }
}

/// Whether the object of the variable is as the template asks, if it has been chosen.
fn shape_may_be(task: &Task<'_, '_>, shape: &Shape, binding: &Binding) -> Result<bool, NoMemory>
    ensures { IfOk result (λ b. b ≡ may_shape (problem_of task.now) binding.now.values shape.now) }
{
    match value_at(binding, shape.holder) {
        Some(datum) => has_feature(task, datum, shape.feature),
        None => Ok(true),
    }
}

/// Whether a value stands in the slot of an object, if both are known.
fn link_may_hold(task: &Task<'_, '_>, link: &Link, binding: &Binding) -> Result<bool, NoMemory>
    ensures { IfOk result (λ b. b ≡ may_link (problem_of task.now) binding.now.values link.now) }
{
    match value_at(binding, link.holder) {
        Some(datum) => may_stand_at(task, datum, link.prop, value_at(binding, link.variable)),
        None => Ok(true),
    }
}

/// Whether the value of an expression, if it is settled, stands at a property of an object.
fn expression_may_stand(
    task: &Task<'_, '_>,
    e: &Typed,
    binding: &Binding,
    datum: &Datum,
    prop: PropId,
) -> Result<bool, NoMemory>
    ensures { IfOk result (λ b. b ≡ (not (is_ready binding.now.values e.now) || has (held_at (setting task.now.program.now task.now.models.now) datum.now prop.0) (datum_of (value_for task.now.program.now task.now.models.now e.now binding.now.values)))) }
{
    if is_ready(binding, e) {
        expression_stands(task, e, binding, datum, prop)
    } else {
        Ok(true)
    }
}

/// Whether what an item asks stands in the slot of an object, if both are known. What a conjunct asks of a slot
/// is asked with the conjunct.
fn asked_may_stand(
    task: &Task<'_, '_>,
    asked: &Asked<'_>,
    binding: &Binding,
) -> Result<bool, NoMemory>
    ensures { IfOk result (λ b. b ≡ may_asked (problem_of task.now) binding.now.values (asked_value asked.now)) }
{
    match value_at(binding, asked.holder) {
        Some(datum) => match asked.by {
            AskedBy::Item(e) => expression_may_stand(task, e, binding, datum, asked.prop),
            AskedBy::Condition(_) => Ok(true),
            AskedBy::Equation(_) => Ok(true),
        },
        None => Ok(true),
    }
}

// ---- conjuncts

/// Whether there is no first datum yet, or the two are one.
pub(crate) fn may_be_one(one: Option<&Datum>, other: Option<&Datum>) -> bool
    ensures { result ≡ may_be_one (option_copied one.entry) (option_copied other.entry) }
{
    match one {
        Some(d) => are_one(Some(d), other),
        None => true,
    }
}

/// Whether the value of the expression is that of the variable, if there is one yet.
fn equation_may_hold(
    task: &Task<'_, '_>,
    variable: u32,
    e: &Typed,
    binding: &Binding,
) -> Result<bool, NoMemory>
    ensures { IfOk result (λ b. b ≡ may_be_one (value_at binding.now.values variable) (datum_of (value_for task.now.program.now task.now.models.now e.now binding.now.values))) }
{
    let out = eval(task.alloc, task.program, e, task.models, binding)?;
    Ok(may_be_one(value_at(binding, variable), datum_of(&out)))
}

/// Whether a conjunct may hold, as far as all that it names has a value.
fn may_conjunct(task: &Task<'_, '_>, conjunct: &Conj, binding: &Binding) -> Result<bool, NoMemory>
    ensures { IfOk result (λ b. b ≡ may_conjunct (problem_of task.now) binding.now.values conjunct.now) }
{
    match conjunct {
        Conj::Cond(e) => {
            if is_ready(binding, e) {
                holds(task.alloc, task.program, e, task.models, binding)
            } else {
                Ok(true)
            }
        }
        Conj::Equation(variable, e) => {
            if is_ready(binding, e) {
                equation_may_hold(task, *variable, e, binding)
            } else {
                Ok(true)
            }
        }
        Conj::Call(..) => Ok(true),
    }
}

// ---- parts

/// Whether what a template asks of its object alone may hold; where it can't, no binding is found from here on.
fn shape_part_may_hold(
    prepared: &Prepared<'_, '_, '_>,
    binding: &Binding,
    number: usize,
) -> Result<bool, NoMemory>
    requires prepared { IsPrepared prepared.now binding.now.values }
    ensures { IfOk result (λ b. b ≡ false → IsBarren (problem_in prepared.now) binding.now.values) }
{
    match numbered(prepared.shapes, number) {
        Some(shape) => shape_may_be(prepared.task, shape, binding),
        None => Ok(true),
    }
}

/// The same of a link.
fn link_part_may_hold(
    prepared: &Prepared<'_, '_, '_>,
    binding: &Binding,
    number: usize,
) -> Result<bool, NoMemory>
    requires prepared { IsPrepared prepared.now binding.now.values }
    ensures { IfOk result (λ b. b ≡ false → IsBarren (problem_in prepared.now) binding.now.values) }
{
    match numbered(prepared.task.links, number) {
        Some(link) => link_may_hold(prepared.task, link, binding),
        None => Ok(true),
    }
}

/// The same of what is asked of a slot.
fn asked_part_may_hold(
    prepared: &Prepared<'_, '_, '_>,
    binding: &Binding,
    number: usize,
) -> Result<bool, NoMemory>
    requires prepared { IsPrepared prepared.now binding.now.values }
    ensures { IfOk result (λ b. b ≡ false → IsBarren (problem_in prepared.now) binding.now.values) }
{
    match numbered(prepared.asked, number) {
        Some(asked) => asked_may_stand(prepared.task, asked, binding),
        None => Ok(true),
    }
}

/// The same of a conjunct.
fn conjunct_part_may_hold(
    prepared: &Prepared<'_, '_, '_>,
    binding: &Binding,
    number: usize,
) -> Result<bool, NoMemory>
    requires prepared { IsPrepared prepared.now binding.now.values }
    ensures { IfOk result (λ b. b ≡ false → IsBarren (problem_in prepared.now) binding.now.values) }
{
    match numbered(clause_of(prepared.task.side, prepared.task.rel), number) {
        Some(conjunct) => may_conjunct(prepared.task, conjunct, binding),
        None => Ok(true),
    }
}

/// The same of a join.
fn join_part_may_hold(prepared: &Prepared<'_, '_, '_>, binding: &Binding, number: usize) -> bool
    requires prepared { IsPrepared prepared.now binding.now.values }
    ensures { result ≡ false → IsBarren (problem_in prepared.now) binding.now.values }
{
    match numbered(prepared.task.joins, number) {
        Some(join) => may_join(join, binding),
        None => true,
    }
}

/// Whether a part may hold; where it can't, no binding is found from here on.
pub(crate) fn part_may_hold(
    prepared: &Prepared<'_, '_, '_>,
    binding: &Binding,
    part: Part,
) -> Result<bool, NoMemory>
    requires prepared { IsPrepared prepared.now binding.now.values }
    ensures { IfOk result (λ b. b ≡ false → IsBarren (problem_in prepared.now) binding.now.values) }
{
    match part {
        Part::Shape(number) => shape_part_may_hold(prepared, binding, number),
        Part::Link(number) => link_part_may_hold(prepared, binding, number),
        Part::Asked(number) => asked_part_may_hold(prepared, binding, number),
        Part::Conjunct(number) => conjunct_part_may_hold(prepared, binding, number),
        Part::Join(number) => Ok(join_part_may_hold(prepared, binding, number)),
    }
}
