//! Whether a value of JSON has the form of a model, and where it first differs.
ghost use Rattle.std.specs.Prelude.{◌≡◌, [], drop, Option, None, Some, IfOk};
ghost use Rattle.std.specs.Option.{option_map};
ghost use Rattle.serde_json.specs.View.{view, items_view, members_view};
ghost use Rattle.model_files.specs.Shape as shape;
ghost use Rattle.model_files.specs.ShapeSteps.{object_from, model_from, next_name, amiss_by_name, amiss_by_value, amiss_next, amiss_at_end};

use mof_metamodel::{NoMemory, Text};
use serde_json::{Map, Value};
use std::alloc::Global;
use std::cmp::Ordering;

/// A member of an object of the list, in the order of their names.
#[derive(Clone, Copy)]
enum ObjectMember {
    Class,
    Id,
    Slots,
}

/// A member of the whole value, in the order of their names.
#[derive(Clone, Copy)]
enum ModelMember {
    Metamodel,
    Objects,
    Version,
}

/// The path of a member.
fn at_member(alloc: Global, path: &Text, name: &str) -> Result<Text, NoMemory>
    ensures { IfOk result (λ p. p ≡ shape.at_member path.now name.now) }
{
    let mut place = path.duplicate(alloc)?;
    place.push('/')?;
    place.push_str(name)?;
    Ok(place)
}

/// The path of an item of a list.
#[tactic(auto, using(crate::proofs::ShapeLaws::decimal_characters))]
fn at_item(alloc: Global, path: &Text, number: usize) -> Result<Text, NoMemory>
    ensures { IfOk result (λ p. p ≡ shape.at_item path.now number) }
{
    let step = format!(in alloc; "{number}")?;
    at_member(alloc, path, step.as_str())
}

/// The path of a member, unless it is as it has to be.
fn unless(alloc: Global, holds: bool, path: &Text, name: &str) -> Result<Option<Text>, NoMemory>
    ensures { IfOk result (λ p. p ≡ shape.unless holds (shape.at_member path.now name.now)) }
{
    if holds {
        Ok(None)
    } else {
        Ok(Some(at_member(alloc, path, name)?))
    }
}

/// Where an object is amiss by the name of its next member, if `wanted` is the name that is expected.
fn amiss_by_name(
    alloc: Global,
    path: &Text,
    wanted: Option<&str>,
    name: &str,
) -> Result<Option<Text>, NoMemory>
    ensures { IfOk result (λ p. p ≡ amiss_by_name path.now (option_map (λ w. w.now) wanted.entry) name.now) }
{
    let Some(wanted) = wanted else {
        return Ok(Some(at_member(alloc, path, name)?));
    };
    match name.cmp(wanted) {
        Ordering::Less => Ok(Some(at_member(alloc, path, name)?)),
        Ordering::Equal => Ok(None),
        Ordering::Greater => Ok(Some(at_member(alloc, path, wanted)?)),
    }
}

/// Where an object is amiss that has no more members, if `wanted` is the name that is expected.
fn amiss_at_end(alloc: Global, path: &Text, wanted: Option<&str>) -> Result<Option<Text>, NoMemory>
    ensures { IfOk result (λ p. p ≡ amiss_at_end path.now (option_map (λ w. w.now) wanted.entry)) }
{
    match wanted {
        Some(wanted) => Ok(Some(at_member(alloc, path, wanted)?)),
        None => Ok(None),
    }
}

impl ObjectMember {
    /// The name of an expected member.
    fn name_of(wanted: Option<ObjectMember>) -> Option<&'static str>
        ensures { option_map (λ w. w.now) result ≡ next_name (object_from wanted) }
    {
        match wanted {
            Some(ObjectMember::Class) => Some("class"),
            Some(ObjectMember::Id) => Some("id"),
            Some(ObjectMember::Slots) => Some("slots"),
            None => None,
        }
    }

    /// What is expected behind it.
    fn behind(wanted: Option<ObjectMember>) -> Option<ObjectMember>
        ensures { object_from result ≡ drop 1 (object_from wanted) }
    {
        match wanted {
            Some(ObjectMember::Class) => Some(ObjectMember::Id),
            Some(ObjectMember::Id) => Some(ObjectMember::Slots),
            Some(ObjectMember::Slots) => None,
            None => None,
        }
    }
}

impl ModelMember {
    /// The name of an expected member.
    fn name_of(wanted: Option<ModelMember>) -> Option<&'static str>
        ensures { option_map (λ w. w.now) result ≡ next_name (model_from wanted) }
    {
        match wanted {
            Some(ModelMember::Metamodel) => Some("metamodel"),
            Some(ModelMember::Objects) => Some("objects"),
            Some(ModelMember::Version) => Some("version"),
            None => None,
        }
    }

    /// What is expected behind it.
    fn behind(wanted: Option<ModelMember>) -> Option<ModelMember>
        ensures { model_from result ≡ drop 1 (model_from wanted) }
    {
        match wanted {
            Some(ModelMember::Metamodel) => Some(ModelMember::Objects),
            Some(ModelMember::Objects) => Some(ModelMember::Version),
            Some(ModelMember::Version) => None,
            None => None,
        }
    }
}

/// Where slots are amiss: the first that is no list.
fn amiss_slot_members(
    alloc: Global,
    path: &Text,
    slots: &Map<String, Value>,
) -> Result<Option<Text>, NoMemory>
    ensures { IfOk result (λ p. p ≡ shape.amiss_slots_in path.now (members_view slots.now.entries)) }
{
    for (name, value) in slots.iter() {
        if !value.is_array() {
            return Ok(Some(at_member(alloc, path, name.as_str())?));
        }
    }
    Ok(None)
}

/// Where the slots of an object are amiss.
fn amiss_slots(alloc: Global, path: &Text, value: &Value) -> Result<Option<Text>, NoMemory>
    ensures { IfOk result (λ p. p ≡ shape.amiss_slots path.now (view value.now)) }
{
    match value {
        Value::Object(slots) => amiss_slot_members(alloc, path, slots),
        _ => Ok(Some(path.duplicate(alloc)?)),
    }
}

/// Where the value of an expected member of an object is amiss.
fn amiss_object_value(
    alloc: Global,
    wanted: Option<ObjectMember>,
    path: &Text,
    name: &str,
    value: &Value,
) -> Result<Option<Text>, NoMemory>
    ensures { IfOk result (λ p. p ≡ amiss_by_value (object_from wanted) (shape.at_member path.now name.now) (view value.now)) }
{
    match wanted {
        Some(ObjectMember::Class) => unless(alloc, value.is_string(), path, name),
        Some(ObjectMember::Id) => unless(alloc, value.is_string(), path, name),
        Some(ObjectMember::Slots) => {
            let place = at_member(alloc, path, name)?;
            amiss_slots(alloc, &place, value)
        }
        None => Ok(None),
    }
}

/// Where an object of the list is amiss by its next member.
fn amiss_object_next(
    alloc: Global,
    wanted: Option<ObjectMember>,
    path: &Text,
    name: &str,
    value: &Value,
) -> Result<Option<Text>, NoMemory>
    ensures { IfOk result (λ p. p ≡ amiss_next path.now (object_from wanted) name.now (view value.now)) }
{
    match amiss_by_name(alloc, path, ObjectMember::name_of(wanted), name)? {
        Some(place) => Ok(Some(place)),
        None => amiss_object_value(alloc, wanted, path, name, value),
    }
}

/// Where the members of an object of the list are amiss.
fn amiss_object_members(
    alloc: Global,
    path: &Text,
    members: &Map<String, Value>,
) -> Result<Option<Text>, NoMemory>
    ensures { IfOk result (λ p. p ≡ shape.amiss_in path.now shape.object_members (members_view members.now.entries)) }
{
    let mut wanted = Some(ObjectMember::Class);
    for (name, value) in members.iter() {
        if let Some(place) = amiss_object_next(alloc, wanted, path, name.as_str(), value)? {
            return Ok(Some(place));
        }
        wanted = ObjectMember::behind(wanted);
    }
    amiss_at_end(alloc, path, ObjectMember::name_of(wanted))
}

/// Where an object of the list is amiss.
fn amiss_object(alloc: Global, path: &Text, value: &Value) -> Result<Option<Text>, NoMemory>
    ensures { IfOk result (λ p. p ≡ shape.amiss_object shape.object_members path.now (view value.now)) }
{
    match value {
        Value::Object(members) => amiss_object_members(alloc, path, members),
        _ => Ok(Some(path.duplicate(alloc)?)),
    }
}

/// Where the objects of a list are amiss.
fn amiss_object_items(
    alloc: Global,
    path: &Text,
    values: &[Value],
) -> Result<Option<Text>, NoMemory>
    ensures { IfOk result (λ p. p ≡ shape.amiss_objects_in path.now 0 (items_view values.now)) }
{
    for number in 0..values.len() {
        let place = at_item(alloc, path, number)?;
        if let Some(found) = amiss_object(alloc, &place, &values[number])? {
            return Ok(Some(found));
        }
    }
    Ok(None)
}

/// Where the list of objects is amiss.
fn amiss_objects(alloc: Global, path: &Text, value: &Value) -> Result<Option<Text>, NoMemory>
    ensures { IfOk result (λ p. p ≡ shape.amiss_objects path.now (view value.now)) }
{
    match value {
        Value::Array(values) => amiss_object_items(alloc, path, values.as_slice()),
        _ => Ok(Some(path.duplicate(alloc)?)),
    }
}

/// Whether a value is the number 1.
fn is_one(value: &Value) -> bool
    ensures { result ≡ shape.is_one (view value.now) }
{
    match value.as_u64() {
        Some(number) => number == 1,
        None => false,
    }
}

/// Where the value of an expected member of the whole value is amiss.
fn amiss_model_value(
    alloc: Global,
    wanted: Option<ModelMember>,
    path: &Text,
    name: &str,
    value: &Value,
) -> Result<Option<Text>, NoMemory>
    ensures { IfOk result (λ p. p ≡ amiss_by_value (model_from wanted) (shape.at_member path.now name.now) (view value.now)) }
{
    match wanted {
        Some(ModelMember::Metamodel) => unless(alloc, value.is_string(), path, name),
        Some(ModelMember::Objects) => {
            let place = at_member(alloc, path, name)?;
            amiss_objects(alloc, &place, value)
        }
        Some(ModelMember::Version) => unless(alloc, is_one(value), path, name),
        None => Ok(None),
    }
}

/// Where the whole value is amiss by its next member.
fn amiss_model_next(
    alloc: Global,
    wanted: Option<ModelMember>,
    path: &Text,
    name: &str,
    value: &Value,
) -> Result<Option<Text>, NoMemory>
    ensures { IfOk result (λ p. p ≡ amiss_next path.now (model_from wanted) name.now (view value.now)) }
{
    match amiss_by_name(alloc, path, ModelMember::name_of(wanted), name)? {
        Some(place) => Ok(Some(place)),
        None => amiss_model_value(alloc, wanted, path, name, value),
    }
}

/// Where the members of the whole value are amiss.
fn amiss_model_members(
    alloc: Global,
    path: &Text,
    members: &Map<String, Value>,
) -> Result<Option<Text>, NoMemory>
    ensures { IfOk result (λ p. p ≡ shape.amiss_in path.now shape.model_members (members_view members.now.entries)) }
{
    let mut wanted = Some(ModelMember::Metamodel);
    for (name, value) in members.iter() {
        if let Some(place) = amiss_model_next(alloc, wanted, path, name.as_str(), value)? {
            return Ok(Some(place));
        }
        wanted = ModelMember::behind(wanted);
    }
    amiss_at_end(alloc, path, ModelMember::name_of(wanted))
}

/// Where the whole value is amiss.
fn amiss_model(alloc: Global, path: &Text, value: &Value) -> Result<Option<Text>, NoMemory>
    ensures { IfOk result (λ p. p ≡ shape.amiss_object shape.model_members path.now (view value.now)) }
{
    match value {
        Value::Object(members) => amiss_model_members(alloc, path, members),
        _ => Ok(Some(path.duplicate(alloc)?)),
    }
}

/// The path of the whole value.
#[tactic(auto, using(crate::proofs::AsciiLaws::no_characters))]
fn empty_path(alloc: Global) -> Result<Text, NoMemory>
    ensures { IfOk result (λ p. p ≡ []) }
{
    Text::new(alloc, "")
}

/// The path at which a value of JSON first differs from the form of a model.
pub(crate) fn first_amiss(alloc: Global, value: &Value) -> Result<Option<Text>, NoMemory>
    ensures { IfOk result (λ p. p ≡ shape.first_amiss (view value.now)) }
{
    let path = empty_path(alloc)?;
    amiss_model(alloc, &path, value)
}
