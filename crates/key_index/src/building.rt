ghost use Rattle.std.specs.Prelude.{◌≡◌, ◌++◌, map, OnOk, IfOk};
ghost use Rattle.std.specs.List.Sorted.{IsPermutation, IsNonDecreasingBy, IsStrictlySortedBy};
ghost use Rattle.key_index.specs.Entries.{entry, entries_at, entries_of, entries};
ghost use Rattle.key_index.specs.HolderOrder.{holder_order};
ghost use Rattle.key_index.specs.Holders.{AreAllHolders};
ghost use Rattle.key_index.specs.Instances.{instances_of, instances, class_number, AreInstances};

use crate::holder::Holder;
use crate::instance::Instance;
use crate::order::{in_order, without_neighbours};
use mof_metamodel::{NoMemory, PropId};
use object_tables::{Model, ObjId, Value};
use std::alloc::Global;

/// Puts an entry for each of these values of an object at an attribute behind the others.
fn put_values(
    alloc: Global,
    holders: &mut Vec<Holder>,
    object: ObjId,
    prop: PropId,
    values: &[Value],
) -> Result<(), NoMemory>
    ensures { OnOk result (holders.new.items ≡ holders.old.items ++ map (entry object.0 prop.0) values.now) }
{
    for value in values {
        let holder = Holder {
            prop,
            value: value.duplicate(alloc)?,
            object,
        };
        holders.push(holder)?;
    }
    Ok(())
}

/// The same for what an object holds at a property.
fn put_slot(
    alloc: Global,
    holders: &mut Vec<Holder>,
    model: &Model<'_>,
    object: ObjId,
    prop: PropId,
) -> Result<(), NoMemory>
    ensures { OnOk result (holders.new.items ≡ holders.old.items ++ entries_at model.now object.0 prop.0) }
{
    // What every model keeps is known here.
    let _ = model.end();
    if model.has_attribute(object, prop) {
        put_values(alloc, holders, object, prop, model.attr(object, prop))
    } else {
        Ok(())
    }
}

/// The same for all that an object holds.
fn put_object(
    alloc: Global,
    holders: &mut Vec<Holder>,
    model: &Model<'_>,
    object: ObjId,
) -> Result<(), NoMemory>
    ensures { OnOk result (holders.new.items ≡ holders.old.items ++ entries_of model.now object.0) }
{
    if model.is_live(object) {
        for prop in model.meta().props(model.class_of(object)) {
            put_slot(alloc, holders, model, object, *prop)?;
        }
    }
    Ok(())
}

/// The entries of all objects of a model.
fn all_entries(alloc: Global, model: &Model<'_>) -> Result<Vec<Holder>, NoMemory>
    ensures { IfOk result (λ holders. holders.items ≡ entries model.now) }
{
    let mut holders = Vec::new(alloc);
    for object in 0..model.end() {
        put_object(alloc, &mut holders, model, ObjId(object))?;
    }
    Ok(holders)
}

/// The same in their order, each once.
pub(crate) fn sorted_entries(alloc: Global, model: &Model<'_>) -> Result<Vec<Holder>, NoMemory>
    ensures index { IfOk result (λ holders. AreAllHolders model.now holders.items) }
    ensures sorted { IfOk result (λ holders. IsStrictlySortedBy holder_order holders.items) }
{
    // What every model keeps is known here.
    let _ = model.end();
    let holders = all_entries(alloc, model)?;
    Ok(without_neighbours(in_order(holders)))
}

/// Puts an object with its class behind others, if it is live.
fn put_instance(
    instances: &mut Vec<Instance>,
    model: &Model<'_>,
    object: ObjId,
) -> Result<(), NoMemory>
    ensures { OnOk result (instances.new.items ≡ instances.old.items ++ instances_of model.now object.0) }
{
    if model.is_live(object) {
        let class = model.class_of(object);
        instances.push(Instance { class, object })?;
    }
    Ok(())
}

/// All objects of a model with their classes.
fn all_instances(alloc: Global, model: &Model<'_>) -> Result<Vec<Instance>, NoMemory>
    ensures { IfOk result (λ them. them.items ≡ instances model.now) }
{
    let mut instances = Vec::new(alloc);
    for object in 0..model.end() {
        put_instance(&mut instances, model, ObjId(object))?;
    }
    Ok(instances)
}

/// Instances in the order of their classes.
fn by_class(instances: Vec<Instance>) -> Vec<Instance>
    ensures same { IsPermutation instances.items result.items }
    ensures sorted { IsNonDecreasingBy class_number result.items }
{
    let mut instances = instances;
    instances.sort_unstable_by_key(|instance| instance.class.0);
    instances
}

/// All objects of a model with their classes, in the order of these.
pub(crate) fn ordered_instances(alloc: Global, model: &Model<'_>) -> Result<Vec<Instance>, NoMemory>
    ensures instances { IfOk result (λ them. AreInstances model.now them.items) }
    ensures sorted { IfOk result (λ them. IsNonDecreasingBy class_number them.items) }
{
    let instances = all_instances(alloc, model)?;
    Ok(by_class(instances))
}
