ghost use Rattle.std.specs.Prelude.{◌≡◌, option_map, IfOk};
ghost use Rattle.repair_semantics.specs.Images.{holds, holds_key};
ghost use Rattle.term_images.specs.KeyReadings.{as_held, asked, is_held};
ghost use Rattle.term_images.specs.ClassIndexes.{number_of, numbers_of, first_holding};

use crate::held::held_at;
use crate::target::Target;
use mof_metamodel::{NoMemory, PropId};
use object_tables::ObjId;
use term_table::NumberedValue;

/// Whether the value is among those that are held.
fn is_held(value: &NumberedValue, held: &[NumberedValue]) -> bool
    ensures { result ≡ is_held value.now held.now }
{
    for one in held {
        if value == one {
            return true;
        }
    }
    false
}

/// Whether an object holds the value at the property.
fn holds(
    target: &Target<'_, '_>,
    object: ObjId,
    prop: PropId,
    value: &NumberedValue,
) -> Result<bool, NoMemory>
    ensures { IfOk result (λ one. one ≡ holds target.now.program.now target.now.model.now object.0 prop.0 (as_held value.now)) }
{
    let held = held_at(target, object, prop)?;
    Ok(is_held(value, held.as_slice()))
}

/// Whether an object holds the values at the properties of a key, as many as there are.
#[tactic(auto, using(crate::proofs::KeyLaws::holds_not, crate::proofs::KeyLaws::holds_ended))]
fn holds_key(
    target: &Target<'_, '_>,
    object: ObjId,
    props: &[PropId],
    values: &[NumberedValue],
) -> Result<bool, NoMemory>
    ensures { IfOk result (λ one. one ≡ holds_key target.now.program.now target.now.model.now object.0 props.now (asked values.now)) }
{
    if props.len() != values.len() {
        return Ok(false);
    }
    for place in 0..props.len() {
        if !holds(target, object, props[place], &values[place])? {
            return Ok(false);
        }
    }
    Ok(true)
}

/// The first of the objects that holds the values at the properties of a key.
pub(crate) fn first_holding(
    target: &Target<'_, '_>,
    objects: &[ObjId],
    props: &[PropId],
    values: &[NumberedValue],
) -> Result<Option<ObjId>, NoMemory>
    ensures { IfOk result (λ first. option_map number_of first ≡ first_holding target.now.program.now target.now.model.now props.now values.now (numbers_of objects.now)) }
{
    for object in objects {
        if holds_key(target, *object, props, values)? {
            return Ok(Some(*object));
        }
    }
    Ok(None)
}
