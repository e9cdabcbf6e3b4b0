//! Random models.
ghost use Rattle.std.specs.Prelude.{◌≡◌, ◌<◌, IfOk, IfSome};
ghost use Rattle.mof_metamodel.specs.Metamodels.{class_count};
ghost use Rattle.mof_metamodel.specs.Tables.{IsPropOf};
ghost use Rattle.object_tables.specs.Kept.{Kept};

use crate::dice::Dice;
use mof_metamodel::{
    ClassId, MetaModel, NoMemory, Prop, PropId, PropType, Seq, Text, is_identifier, or_drop,
};
use object_tables::{AddFault, Model, ObjId, Value};
use std::alloc::Global;

/// How many edits are tried, at most.
const EDITS: u32 = 240;

/// The words that are values of texts.
const WORDS: [&str; 4] = ["a", "b", "c", "d"];

fn word(dice: &mut Dice) -> &'static str {
    WORDS[dice.below(4) as usize]
}

fn random_value(alloc: Global, dice: &mut Dice, ty: PropType) -> Result<Value, NoMemory> {
    match ty {
        PropType::Str => Ok(Value::Str(Text::new(alloc, word(dice))?)),
        PropType::Int => Ok(Value::Int(i64::from(dice.below(4)))),
        PropType::Bool => Ok(Value::Bool(dice.is_heads())),
        PropType::Enum(of) => Ok(Value::Lit(of, dice.below(3))),
        PropType::Class(_) => Ok(Value::Bool(false)),
    }
}

/// Up to three different values that a property may have, no fewer than its lower bound where that is at most one.
fn random_values(alloc: Global, dice: &mut Dice, prop: &Prop) -> Result<Seq<Value>, NoMemory> {
    let mut values = Seq::new(alloc);
    for place in 0..prop.upper.unwrap_or(3).min(3) {
        if place < prop.lower || dice.is_heads() {
            let value = random_value(alloc, dice, prop.ty)?;
            if !values.as_slice().contains(&value) {
                values.push(value)?;
            }
        }
    }
    Ok(values)
}

/// Gives an attribute random values.
fn set_random(
    alloc: Global,
    dice: &mut Dice,
    model: &mut Model<'_>,
    object: ObjId,
    prop: PropId,
) -> Result<(), NoMemory>
    requires { IsPropOf model.old.meta prop }
    ensures { model.new.meta ≡ model.old.meta }
{
    if !model.has_attribute(object, prop) {
        return Ok(());
    }
    let values = random_values(alloc, dice, model.meta().prop(prop))?;
    if model.may_hold(object, prop, values.as_slice()) {
        model.set_attr(object, prop, values);
    } else {
        drop(values);
    }
    Ok(())
}

fn set_all(
    alloc: Global,
    dice: &mut Dice,
    model: &mut Model<'_>,
    object: ObjId,
    class: ClassId,
) -> Result<(), NoMemory>
    requires { class.0 < class_count model.old.meta }
    ensures { model.new.meta ≡ model.old.meta }
{
    for prop in model.meta().props(class) {
        set_random(alloc, dice, model, object, *prop)?;
    }
    Ok(())
}

/// An identifier that fresh objects may have as well.
fn random_id(alloc: Global, dice: &mut Dice) -> Result<Text, NoMemory> {
    let number = dice.below(24);
    Ok(Text::from_string(format!(in alloc; "n{number}")?))
}

/// Adds an object of a random class with random values, if its class isn't abstract and its identifier is new.
fn add_random(alloc: Global, dice: &mut Dice, model: &mut Model<'_>) -> Result<(), NoMemory>
    ensures { model.new.meta ≡ model.old.meta }
{
    let count = model.meta().class_count();
    let id = random_id(alloc, dice)?;
    if count == 0 || !is_identifier(id.as_str()) {
        drop(id);
        return Ok(());
    }
    let class = ClassId(dice.below(count));
    match model.add(class, id) {
        Ok(object) => set_all(alloc, dice, model, object, class),
        Err(AddFault::NoMemory) => Err(NoMemory),
        Err(_) => Ok(()),
    }
}

/// Whether a reference of an object may have a partner more by its upper bound.
fn has_room(model: &Model<'_>, object: ObjId, prop: PropId) -> bool
    requires { IsPropOf model.now.meta prop }
{
    if !model.has_reference(object, prop) {
        return false;
    }
    match model.meta().bounds(prop).1 {
        Some(upper) => model.partner_count(object, prop) < upper as usize,
        None => true,
    }
}

/// Whether a link breaks no upper bound at either end.
fn has_room_for(model: &Model<'_>, prop: PropId, one: ObjId, other: ObjId) -> bool
    requires { IsPropOf model.now.meta prop }
{
    if !has_room(model, one, prop) {
        return false;
    }
    match model.meta().opposite(prop) {
        Some(opposite) => has_room(model, other, opposite),
        None => true,
    }
}

/// Whether an object is another one, or contains it through others.
fn is_above(model: &Model<'_>, above: ObjId, object: ObjId) -> bool {
    let mut at = object;
    for _step in 0..model.end() {
        if at.0 == above.0 {
            return true;
        }
        if !model.is_live(at) {
            return false;
        }
        match model.container(at) {
            Some((container, _)) => at = container,
            None => return false,
        }
    }
    true
}

/// Whether a link would make an object contain itself.
fn makes_cycle(model: &Model<'_>, prop: PropId, one: ObjId, other: ObjId) -> bool
    requires { IsPropOf model.now.meta prop }
{
    let meta = model.meta();
    if meta.prop(prop).composite {
        return is_above(model, other, one);
    }
    match meta.opposite(prop) {
        Some(opposite) => meta.prop(opposite).composite && is_above(model, one, other),
        None => false,
    }
}

/// Links two objects at a property, where that may be.
fn link_where_free(
    model: &mut Model<'_>,
    prop: PropId,
    one: ObjId,
    other: ObjId,
) -> Result<(), NoMemory>
    requires { IsPropOf model.old.meta prop }
    ensures { model.new.meta ≡ model.old.meta }
{
    if makes_cycle(model, prop, one, other) || !has_room_for(model, prop, one, other) {
        return Ok(());
    }
    if !model.has_reference(one, prop) {
        return Ok(());
    }
    if !model.is_live(other) {
        return Ok(());
    }
    if !model.may_be_partner(prop, one, other) {
        return Ok(());
    }
    if model.linked(prop, one, other) {
        return Ok(());
    }
    if !model.is_free(prop, one, other) {
        return Ok(());
    }
    model.link(prop, one, other)
}

/// A property of the object's class.
fn random_prop(dice: &mut Dice, model: &Model<'_>, object: ObjId) -> Option<PropId>
    ensures { IfSome result (IsPropOf model.now.meta) }
{
    if !model.is_live(object) {
        return None;
    }
    let props = model.meta().props(model.class_of(object));
    let count = props.len().min(64);
    if count == 0 {
        return None;
    }
    let place = dice.below(count as u32) as usize;
    Some(props[place])
}

/// Links two random objects at a random property, where that may be.
fn link_random(dice: &mut Dice, model: &mut Model<'_>) -> Result<(), NoMemory>
    ensures { model.new.meta ≡ model.old.meta }
{
    let end = model.end();
    if end == 0 {
        return Ok(());
    }
    let one = ObjId(dice.below(end));
    let other = ObjId(dice.below(end));
    match random_prop(dice, model, one) {
        Some(prop) => link_where_free(model, prop, one, other),
        None => Ok(()),
    }
}

/// Deletes a random object.
fn delete_random(dice: &mut Dice, model: &mut Model<'_>)
    ensures { model.new.meta ≡ model.old.meta }
{
    let end = model.end();
    if end > 0 {
        let object = ObjId(dice.below(end));
        if model.is_live(object) {
            model.delete(object);
        }
    }
}

/// A random edit: most often a link, at times a new object, seldom a deletion.
fn edit_random(alloc: Global, dice: &mut Dice, model: &mut Model<'_>) -> Result<(), NoMemory>
    ensures { model.new.meta ≡ model.old.meta }
{
    match dice.below(48) {
        0 => {
            delete_random(dice, model);
            Ok(())
        }
        1..=4 => add_random(alloc, dice, model),
        _ => link_random(dice, model),
    }
}

fn edit_often(alloc: Global, dice: &mut Dice, model: &mut Model<'_>) -> Result<(), NoMemory>
    ensures { model.new.meta ≡ model.old.meta }
{
    for _edit in 0..dice.below(EDITS) {
        edit_random(alloc, dice, model)?;
    }
    Ok(())
}

/// A random model, which keeps upper bounds, and has no cycle of containers.
pub fn random_model<'m>(
    alloc: Global,
    dice: &mut Dice,
    meta: &'m MetaModel,
) -> Result<Model<'m>, NoMemory>
    ensures kept { IfOk result Kept }
    ensures meta { IfOk result (λ model. model.meta ≡ meta.now) }
{
    let mut model = Model::new(alloc, meta);
    or_drop!(edit_often(alloc, dice, &mut model); model);
    let _kept = model.end();
    Ok(model)
}
