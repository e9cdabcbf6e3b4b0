ghost use Rattle.std.specs.Prelude.{◌≡◌, map, IfOk, option_to_list};
ghost use Rattle.std.specs.List.{find};
ghost use Rattle.std.specs.Option.{option_copied};
ghost use Rattle.repair_semantics.specs.TargetItems.{is_key_of, key_of};
ghost use Rattle.repair_semantics.specs.Images.{held_in};
ghost use Rattle.term_images.specs.KeyReadings.{as_held, HasKeyValues};

use crate::held::{held_at, target_meta_number};
use crate::target::Target;
use mof_metamodel::{ClassId, NoMemory, PropId, Seq};
use object_tables::ObjId;
use qv_syntax::{Key, Program};
use term_table::NumberedValue;

/// Why a key gives an object no list of single values.
#[derive(Drop)]
pub(crate) enum Unkeyed {
    /// The object has several values or partners at a property of the key.
    Several,
    NoMemory,
}

impl From<NoMemory> for Unkeyed {
    fn from(_error: NoMemory) -> Unkeyed {
        Unkeyed::NoMemory
    }
}

/// Whether the key is that of a class of the target.
fn is_key_of(program: &Program, class: ClassId, key: &Key) -> bool
    ensures { result ≡ is_key_of program.now class.0 key.now }
{
    key.meta == target_meta_number(program) && key.class.0 == class.0
}

/// The key of a class of the target.
fn class_key<'p>(program: &'p Program, class: ClassId) -> Option<&'p Key>
    ensures { option_copied result ≡ find (is_key_of program.now class.0) program.now.keys }
{
    for key in program.keys.as_slice() {
        if is_key_of(program, class, key) {
            return Some(key);
        }
    }
    None
}

/// The properties of the key of a class of the target.
pub(crate) fn key_of<'p>(program: &'p Program, class: ClassId) -> Option<&'p [PropId]>
    ensures { option_copied result ≡ key_of program.now class.0 }
{
    match class_key(program, class) {
        Some(key) => Some(key.props.as_slice()),
        None => None,
    }
}

/// The one value, if there is any.
fn only_one(mut held: Seq<NumberedValue>) -> Result<Option<NumberedValue>, Unkeyed>
    ensures { IfOk result (λ one. held ≡ option_to_list one) }
{
    let last = held.pop();
    if held.is_empty() {
        Ok(last)
    } else {
        Err(Unkeyed::Several)
    }
}

/// The one value of an object at a property, if it has any.
fn one_at(
    target: &Target<'_, '_>,
    object: ObjId,
    prop: PropId,
) -> Result<Option<NumberedValue>, Unkeyed>
    ensures { IfOk result (λ one. held_in target.now.program.now target.now.model.now object.0 prop.0 ≡ map as_held (option_to_list one)) }
{
    only_one(held_at(target, object, prop)?)
}

/// The values of an object at the properties of a key, if it has one at each.
pub(crate) fn key_values(
    target: &Target<'_, '_>,
    object: ObjId,
    props: &[PropId],
) -> Result<Option<Seq<NumberedValue>>, Unkeyed>
    ensures { IfOk result (HasKeyValues target.now.program.now target.now.model.now object.0 props.now) }
{
    let mut values = Seq::new(target.alloc);
    for prop in props {
        match one_at(target, object, *prop)? {
            Some(value) => values.push(value)?,
            None => return Ok(None),
        }
    }
    Ok(Some(values))
}
