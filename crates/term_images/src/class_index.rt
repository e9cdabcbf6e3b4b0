ghost use Rattle.std.specs.Prelude.{◌≡◌, Some, option_map, IfOk, OnOk, IsSome};
ghost use Rattle.std.specs.BTreeMap.{get};
ghost use Rattle.std.specs.Ordering.{nat_cmp};
ghost use Rattle.repair_semantics.specs.TargetItems.{key_of};
ghost use Rattle.term_images.specs.ClassIndexes.{number_of, numbers_of, object_holding, PutsFirst, HasFirsts, IsIndexOf, AreIndexes};

use crate::extent::objects_of;
use crate::keys::{Unkeyed, key_of, key_values};
use crate::passing::first_holding;
use crate::target::Target;
use mof_metamodel::{ClassId, NoMemory, PropId, Seq};
use object_tables::ObjId;
use std::collections::BTreeMap;
use term_table::{NumberedTerm, NumberedValue};

/// The objects of a class by their key values.
#[derive(Drop)]
pub(crate) enum ClassIndex {
    /// The first object with each list of key values, in which objects go by their numbers.
    Firsts(BTreeMap<NumberedTerm, ObjId>),
    /// All objects of the class: one of them has several values or partners at a property of the key.
    Objects(Seq<ObjId>),
}

/// Puts an object behind its key values, if none stands there yet.
fn put_first(
    firsts: &mut BTreeMap<NumberedTerm, ObjId>,
    key: NumberedTerm,
    object: ObjId,
) -> Result<(), NoMemory>
    ensures { OnOk result (PutsFirst key object firsts.old firsts.new) }
{
    if firsts.contains_key(&key) {
        return Ok(());
    }
    firsts.insert(key, object)?;
    Ok(())
}

/// The first of the objects with each list of key values, if each object has at most one value at each property of the key.
fn firsts_of(
    target: &Target<'_, '_>,
    class: ClassId,
    props: &[PropId],
    objects: &[ObjId],
) -> Result<BTreeMap<NumberedTerm, ObjId>, Unkeyed>
    ensures { IfOk result (HasFirsts target.now.program.now target.now.model.now class.0 props.now (numbers_of objects.now)) }
{
    let mut firsts = BTreeMap::new(target.alloc);
    for object in objects {
        if let Some(keys) = key_values(target, *object, props)? {
            put_first(&mut firsts, NumberedTerm { class, keys }, *object)?;
        }
    }
    Ok(firsts)
}

/// The index of the objects of a class whose key has these properties.
fn index_by(
    target: &Target<'_, '_>,
    class: ClassId,
    props: &[PropId],
) -> Result<ClassIndex, NoMemory>
    requires { key_of target.now.program.now class.0 ≡ Some props.now }
    ensures { IfOk result (IsIndexOf target.now.program.now target.now.model.now class.0) }
{
    let objects = objects_of(target, class)?;
    match firsts_of(target, class, props, objects.as_slice()) {
        Ok(firsts) => Ok(ClassIndex::Firsts(firsts)),
        Err(Unkeyed::Several) => Ok(ClassIndex::Objects(objects)),
        Err(Unkeyed::NoMemory) => Err(NoMemory),
    }
}

/// The index of the objects of a class; one without a key has no object with a key.
fn index_of(target: &Target<'_, '_>, class: ClassId) -> Result<ClassIndex, NoMemory>
    ensures { IfOk result (IsIndexOf target.now.program.now target.now.model.now class.0) }
{
    match key_of(target.program, class) {
        Some(props) => index_by(target, class, props),
        None => Ok(ClassIndex::Firsts(BTreeMap::new(target.alloc))),
    }
}

/// Sees to it that the class has an index.
pub(crate) fn add_index(
    target: &Target<'_, '_>,
    indexes: &mut BTreeMap<u32, ClassIndex>,
    class: ClassId,
) -> Result<(), NoMemory>
    requires { AreIndexes target.now.program.now target.now.model.now indexes.old }
    ensures all { OnOk result (AreIndexes target.now.program.now target.now.model.now indexes.new) }
    ensures added { OnOk result (IsSome (get nat_cmp indexes.new class.0)) }
{
    if indexes.contains_key(&class.0) {
        return Ok(());
    }
    let index = index_of(target, class)?;
    indexes.insert(class.0, index)?;
    Ok(())
}

/// The object of least number that conforms to the class and holds the key values.
pub(crate) fn object_holding(
    target: &Target<'_, '_>,
    index: &ClassIndex,
    class: ClassId,
    values: Seq<NumberedValue>,
) -> Result<Option<ObjId>, NoMemory>
    requires { IsIndexOf target.now.program.now target.now.model.now class.0 index.now }
    ensures { IfOk result (λ first. option_map number_of first ≡ object_holding target.now.program.now target.now.model.now class.0 values) }
{
    match index {
        ClassIndex::Firsts(firsts) => {
            let keys = values;
            Ok(firsts.get(&NumberedTerm { class, keys }).copied())
        }
        ClassIndex::Objects(objects) => match key_of(target.program, class) {
            Some(props) => first_holding(target, objects.as_slice(), props, values.as_slice()),
            None => Ok(None),
        },
    }
}
