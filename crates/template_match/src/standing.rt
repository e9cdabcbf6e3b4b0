//! Whether a datum stands at a property of an object. Of a reference its links tell it, so that no slot is listed for it.
ghost use Rattle.std.specs.Prelude.{◌≡◌, ◌↔◌, IsTrue, Some, IfOk, IfSome};
ghost use Rattle.std.specs.Option.{option_copied};
ghost use Rattle.object_tables.specs.Models.{IsReferenceOf, IsLinked};
ghost use Rattle.qvtr_semantics.specs.declared.datum.Datum.TheVariants.{Obj};
ghost use Rattle.qvtr_semantics.specs.Expressions.{setting};
ghost use Rattle.qvtr_semantics.specs.Objects.{held_by, held_at};
ghost use Rattle.qvtr_semantics.specs.Templates.{has};
ghost use Rattle.template_match.specs.Pruning.{may_have};

use crate::meeting::has;
use crate::task::Task;
use mof_metamodel::{NoMemory, PropId};
use object_tables::{Model, ObjId};
use ocl_eval::held_at;
use qvtr_semantics::Datum;

/// Whether an object has a partner at a property, if links can tell it.
fn linked(model: &Model<'_>, object: ObjId, prop: PropId, partner: ObjId) -> Option<bool>
    ensures { IfSome result (λ b. IsReferenceOf model.now object.0 prop.0 × (IsTrue b ↔ IsLinked model.now prop.0 object.0 partner.0)) }
{
    if !model.has_reference(object, prop) {
        return None;
    }
    if !model.is_live(partner) {
        return None;
    }
    Some(model.linked(prop, object, partner))
}

/// The same of two objects of the model of this number.
fn linked_in(
    task: &Task<'_, '_>,
    number: u32,
    object: ObjId,
    prop: PropId,
    partner: ObjId,
) -> Option<bool>
    ensures { IfSome result (λ b. b ≡ has (held_by (setting task.now.program.now task.now.models.now) number object.0 prop.0) (Some (Obj number partner))) }
{
    match task.models.get(number as usize) {
        Some(model) => linked(model, object, prop, partner),
        None => None,
    }
}

/// Whether a datum stands at a property of another, if links can tell it.
fn told_by_links(task: &Task<'_, '_>, datum: &Datum, prop: PropId, other: &Datum) -> Option<bool>
    ensures { IfSome result (λ b. b ≡ has (held_at (setting task.now.program.now task.now.models.now) datum.now prop.0) (Some other.now)) }
{
    match (datum, other) {
        (Datum::Obj(number, object), Datum::Obj(model, partner)) => {
            if *number == *model {
                linked_in(task, *number, *object, prop, *partner)
            } else {
                None
            }
        }
        _ => None,
    }
}

/// Whether a datum stands at a property of another.
fn datum_stands(
    task: &Task<'_, '_>,
    datum: &Datum,
    prop: PropId,
    other: &Datum,
) -> Result<bool, NoMemory>
    ensures { IfOk result (λ b. b ≡ has (held_at (setting task.now.program.now task.now.models.now) datum.now prop.0) (Some other.now)) }
{
    if let Some(told) = told_by_links(task, datum, prop, other) {
        return Ok(told);
    }
    let slot = held_at(task.alloc, task.program, task.models, datum, prop)?;
    Ok(has(&slot, Some(other)))
}

/// Whether a datum, if there is one, stands at a property of another.
#[tactic(auto, using(crate::proofs::StandingLaws::nothing_stands))]
pub(crate) fn stands_at(
    task: &Task<'_, '_>,
    datum: &Datum,
    prop: PropId,
    other: Option<&Datum>,
) -> Result<bool, NoMemory>
    ensures { IfOk result (λ b. b ≡ has (held_at (setting task.now.program.now task.now.models.now) datum.now prop.0) (option_copied other.entry)) }
{
    match other {
        Some(other) => datum_stands(task, datum, prop, other),
        None => Ok(false),
    }
}

/// Whether a datum, if there is one yet, stands at a property of another.
pub(crate) fn may_stand_at(
    task: &Task<'_, '_>,
    datum: &Datum,
    prop: PropId,
    other: Option<&Datum>,
) -> Result<bool, NoMemory>
    ensures { IfOk result (λ b. b ≡ may_have (held_at (setting task.now.program.now task.now.models.now) datum.now prop.0) (option_copied other.entry)) }
{
    match other {
        Some(other) => datum_stands(task, datum, prop, other),
        None => Ok(true),
    }
}
