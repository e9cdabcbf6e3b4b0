//! What a model as JSON writes, as the flat lists of which a model is made.
ghost use Rattle.std.specs.Prelude.{◌≡◌, ◌<◌, ◌≤◌, ℕ, List, [], All, map, length, chars, codes, is_some, true, Some, IfOk, OnOk};
ghost use Rattle.serde_json.specs.Find.{get};
ghost use Rattle.serde_json.specs.View.{view, items_view, members_view};
ghost use Rattle.object_tables.specs.declared.limit.TheConstants.{MAX_OBJECTS as max_objects};
ghost use Rattle.mof_metamodel.specs.Metamodels.{class_count, enum_count, prop_count, IsTypeOf};
ghost use Rattle.model_assembly.specs.Elements.{concrete_class};
ghost use Rattle.model_files.specs.JsonContent as content;
ghost use Rattle.model_files.specs.JsonFiled as filing;
ghost use Rattle.model_assembly.specs.Filed.{IsFiled};
ghost use Rattle.model_assembly.specs.SoundFiled.{IsSoundFiled};
ghost use Rattle.model_files.specs.JsonFaults.{HasObjects};
ghost use Rattle.model_files.specs.JsonSteps.{met_ids};

use crate::json_faults::{add_id, concrete_class, member_text};
use crate::json_reading::{in_list, objects_of};
use crate::names::empty_text;
use model_assembly::{Filed, Mention, WrittenReference, WrittenValue};
use mof_metamodel::{
    ClassId, EnumId, MetaModel, NameTable, NoMemory, PropId, PropType, Seq, Text, is_storable,
    or_drop,
};
use object_tables::Value as Datum;
use serde_json::{Map, Value};
use std::alloc::Global;

/// What an object holds at one of its properties.
#[derive(Clone, Copy)]
struct Slot {
    object: u32,
    property: PropId,
}

/// An object of a class.
#[derive(Clone, Copy)]
struct Owner {
    object: u32,
    class: ClassId,
}

/// The String that an item is.
fn text_datum(alloc: Global, value: &Value) -> Result<Option<Datum>, NoMemory>
    ensures { IfOk result (λ v. v ≡ filing.text_in (view value.now)) }
{
    match value {
        Value::String(text) => {
            if is_storable(text.as_str()) {
                Ok(Some(Datum::Str(Text::new(alloc, text.as_str())?)))
            } else {
                Ok(None)
            }
        }
        _ => Ok(None),
    }
}

/// The Integer that an item is.
fn integer_datum(value: &Value) -> Option<Datum>
    ensures { result ≡ filing.integer_in (view value.now) }
{
    match value.as_i64() {
        Some(number) => Some(Datum::Int(number)),
        None => None,
    }
}

/// The Boolean that an item is.
fn boolean_datum(value: &Value) -> Option<Datum>
    ensures { result ≡ filing.boolean_in (view value.now) }
{
    match value.as_bool() {
        Some(truth) => Some(Datum::Bool(truth)),
        None => None,
    }
}

/// The literal that an item is.
fn literal_datum(meta: &MetaModel, e: EnumId, value: &Value) -> Option<Datum>
    requires { e.0 < enum_count meta.now }
    ensures { result ≡ filing.literal_in meta.now e (view value.now) }
{
    match value {
        Value::String(text) => match meta.literal_named(e, text.as_str()) {
            Some(literal) => Some(Datum::Lit(e, literal)),
            None => None,
        },
        _ => None,
    }
}

/// The value of an attribute of this type that an item is.
#[tactic(auto, using(crate::proofs::JsonItemLaws::text_is, crate::proofs::JsonItemLaws::integer_is, crate::proofs::JsonItemLaws::boolean_is, crate::proofs::JsonItemLaws::literal_is))]
fn datum_of(
    alloc: Global,
    meta: &MetaModel,
    ty: PropType,
    value: &Value,
) -> Result<Option<Datum>, NoMemory>
    requires { IsTypeOf meta.now ty }
    ensures { IfOk result (λ v. v ≡ content.value_of meta.now (Some ty) (view value.now)) }
{
    match ty {
        PropType::Str => text_datum(alloc, value),
        PropType::Int => Ok(integer_datum(value)),
        PropType::Bool => Ok(boolean_datum(value)),
        PropType::Enum(e) => Ok(literal_datum(meta, e, value)),
        PropType::Class(_) => Ok(None),
    }
}

/// Adds the values of an attribute.
fn add_values(
    alloc: Global,
    meta: &MetaModel,
    ty: PropType,
    slot: Slot,
    values: &[Value],
    written: &mut Seq<WrittenValue>,
) -> Result<(), NoMemory>
    requires { IsTypeOf meta.now ty }
    ensures { OnOk result (written.new ≡ filing.with_values meta.now slot (Some ty) (content.items_list (items_view values.now)) written.old) }
{
    for value in values {
        if let Some(value) = datum_of(alloc, meta, ty, value)? {
            written.push(WrittenValue {
                object: slot.object,
                property: slot.property,
                value,
            })?;
        }
    }
    Ok(())
}

/// The text that an item is.
fn item_text(value: &Value) -> &str
    ensures { chars result.now ≡ content.item_text (view value.now) }
{
    match value {
        Value::String(text) => text.as_str(),
        _ => empty_text(),
    }
}

/// The number of the object with an identifier.
fn number_of(ids: &NameTable<()>, id: &Text) -> Option<u32>
    requires { length ids.now ≤ max_objects }
    ensures { result ≡ filing.number_in (met_ids ids.now) id.now }
{
    match ids.find(id) {
        Some((number, _)) => Some(number as u32),
        None => None,
    }
}

/// What an item names at a reference.
fn reference_of(
    alloc: Global,
    ids: &NameTable<()>,
    slot: Slot,
    value: &Value,
) -> Result<WrittenReference, NoMemory>
    requires { length ids.now ≤ max_objects }
    ensures { IfOk result (λ r. r ≡ filing.reference_to (met_ids ids.now) slot (content.item_text (view value.now))) }
{
    let text = Text::new(alloc, item_text(value))?;
    Ok(WrittenReference {
        object: slot.object,
        property: slot.property,
        target: number_of(ids, &text),
        text,
    })
}

/// Adds what stands at a reference.
fn add_references(
    alloc: Global,
    ids: &NameTable<()>,
    slot: Slot,
    values: &[Value],
    references: &mut Seq<WrittenReference>,
) -> Result<(), NoMemory>
    requires { length ids.now ≤ max_objects }
    ensures { OnOk result (references.new ≡ filing.with_references (met_ids ids.now) slot (content.items_list (items_view values.now)) references.old) }
{
    for value in values {
        references.push(reference_of(alloc, ids, slot, value)?)?;
    }
    Ok(())
}

/// Adds a slot of a reference.
fn add_named(
    alloc: Global,
    ids: &NameTable<()>,
    slot: Slot,
    values: &[Value],
    filed: &mut Filed,
) -> Result<(), NoMemory>
    requires { length ids.now ≤ max_objects }
    ensures { OnOk result (filed.new ≡ filing.with_named (met_ids ids.now) slot (content.items_list (items_view values.now)) filed.old) }
{
    if values.is_empty() {
        return filed.mentions.push(Mention {
            object: slot.object,
            property: slot.property,
        });
    }
    add_references(alloc, ids, slot, values, &mut filed.references)
}

/// Adds a slot.
fn add_slot(
    alloc: Global,
    meta: &MetaModel,
    ids: &NameTable<()>,
    slot: Slot,
    values: &[Value],
    filed: &mut Filed,
) -> Result<(), NoMemory>
    requires few { length ids.now ≤ max_objects }
    requires within { slot.property.0 < prop_count meta.now }
    ensures { OnOk result (filed.new ≡ filing.with_found meta.now (met_ids ids.now) slot.object (Some slot.property.0) (content.items_list (items_view values.now)) filed.old) }
{
    match meta.prop(slot.property).ty {
        PropType::Class(_) => add_named(alloc, ids, slot, values, filed),
        ty => add_values(alloc, meta, ty, slot, values, &mut filed.values),
    }
}

/// Adds the slots of an object.
fn add_slots(
    alloc: Global,
    meta: &MetaModel,
    ids: &NameTable<()>,
    owner: Owner,
    slots: &Map<String, Value>,
    filed: &mut Filed,
) -> Result<(), NoMemory>
    requires few { length ids.now ≤ max_objects }
    requires within { owner.class.0 < class_count meta.now }
    ensures filed { OnOk result (filed.new ≡ filing.with_slots meta.now (met_ids ids.now) owner.object owner.class.0
        (content.slots_list (members_view slots.now.entries)) filed.old) }
    ensures apart { OnOk result (filing.AreApart (content.slots_list (members_view slots.now.entries))) }
{
    for (name, value) in slots.iter() {
        if let Some(property) = meta.prop_of(owner.class, name.as_str()) {
            let slot = Slot {
                object: owner.object,
                property,
            };
            add_slot(alloc, meta, ids, slot, in_list(value), filed)?;
        }
    }
    Ok(())
}

/// Adds the slots that a value has.
fn add_members(
    alloc: Global,
    meta: &MetaModel,
    ids: &NameTable<()>,
    owner: Owner,
    value: &Value,
    filed: &mut Filed,
) -> Result<(), NoMemory>
    requires few { length ids.now ≤ max_objects }
    requires within { owner.class.0 < class_count meta.now }
    ensures filed { OnOk result (filed.new ≡ filing.with_slots meta.now (met_ids ids.now) owner.object owner.class.0
        (content.in_slots (view value.now)) filed.old) }
    ensures apart { OnOk result (filing.AreApart (content.in_slots (view value.now))) }
{
    match value {
        Value::Object(slots) => add_slots(alloc, meta, ids, owner, slots, filed),
        _ => Ok(()),
    }
}

/// Adds the slots of an object of the list.
fn add_own(
    alloc: Global,
    meta: &MetaModel,
    ids: &NameTable<()>,
    owner: Owner,
    value: &Value,
    filed: &mut Filed,
) -> Result<(), NoMemory>
    requires few { length ids.now ≤ max_objects }
    requires within { owner.class.0 < class_count meta.now }
    ensures filed { OnOk result (filed.new ≡ filing.with_slots meta.now (met_ids ids.now) owner.object owner.class.0
        (content.slots_of (get (codes "slots") (view value.now))) filed.old) }
    ensures apart { OnOk result (filing.AreApart (content.slots_of (get (codes "slots") (view value.now)))) }
{
    match value.get("slots") {
        Some(slots) => add_members(alloc, meta, ids, owner, slots, filed),
        None => Ok(()),
    }
}

/// Adds an object of the list.
fn add_object(
    alloc: Global,
    meta: &MetaModel,
    ids: &NameTable<()>,
    object: u32,
    value: &Value,
    filed: &mut Filed,
) -> Result<(), NoMemory>
    requires few { length ids.now ≤ max_objects }
    requires known { is_some (concrete_class meta.now (content.text_of (get (codes "class") (view value.now)))) ≡ true }
    ensures filed { OnOk result (filed.new ≡ filing.with_object meta.now (met_ids ids.now) object
        (content.slots_of (get (codes "slots") (view value.now))) (concrete_class meta.now (content.text_of (get (codes "class") (view value.now)))) filed.old) }
    ensures apart { OnOk result (filing.AreApart (content.slots_of (get (codes "slots") (view value.now)))) }
{
    match concrete_class(meta, member_text(value, "class")) {
        Some(class) => add_own(alloc, meta, ids, Owner { object, class }, value, filed),
        None => unreachable!(),
    }
}

/// Adds all objects.
fn add_objects(
    alloc: Global,
    meta: &MetaModel,
    ids: &NameTable<()>,
    values: &[Value],
    filed: &mut Filed,
) -> Result<(), NoMemory>
    requires few { length ids.now ≤ max_objects }
    requires fewer { length values.now ≤ max_objects }
    requires known { filing.AreClassed meta.now (map (λ v. content.written_of (view v)) values.now) }
    ensures filed { OnOk result (filed.new ≡ filing.with_objects meta.now (met_ids ids.now) 0 (map (λ v. content.written_of (view v)) values.now) filed.old) }
    ensures apart { OnOk result (filing.HasApart (map (λ v. content.written_of (view v)) values.now)) }
{
    for number in 0..values.len() {
        add_object(alloc, meta, ids, number as u32, &values[number], filed)?;
    }
    Ok(())
}

/// The identifiers of the objects.
fn ids_of(alloc: Global, values: &[Value]) -> Result<Seq<Text>, NoMemory>
    ensures { IfOk result (λ ids. ids ≡ map (λ v. content.text_of (get (codes "id") (view v))) values.now) }
{
    let mut ids = Seq::new(alloc);
    for value in values {
        ids.push(Text::new(alloc, member_text(value, "id"))?)?;
    }
    Ok(ids)
}

/// The identifiers of the objects, each to be found.
fn table_of(alloc: Global, values: &[Value]) -> Result<NameTable<()>, NoMemory>
    requires { filing.AreNew [] (map (λ v. (content.written_of (view v)).id) values.now) }
    ensures { IfOk result (λ ids. met_ids ids ≡ map (λ v. (content.written_of (view v)).id) values.now) }
{
    let mut ids = NameTable::new(alloc);
    for value in values {
        add_id(alloc, &mut ids, value)?;
    }
    Ok(ids)
}

/// The class of an object.
fn class_of(meta: &MetaModel, value: &Value) -> ClassId
    requires { is_some (concrete_class meta.now (content.text_of (get (codes "class") (view value.now)))) ≡ true }
    ensures { Some result.0 ≡ concrete_class meta.now (content.text_of (get (codes "class") (view value.now))) }
{
    match concrete_class(meta, member_text(value, "class")) {
        Some(class) => class,
        None => unreachable!(),
    }
}

/// The classes of the objects.
fn classes_of(alloc: Global, meta: &MetaModel, values: &[Value]) -> Result<Seq<ClassId>, NoMemory>
    requires { filing.AreClassed meta.now (map (λ v. content.written_of (view v)) values.now) }
    ensures { IfOk result (λ classes. map (λ c. Some c.0) classes ≡ map (λ v. concrete_class meta.now (content.written_of (view v)).class) values.now) }
{
    let mut classes = Seq::new(alloc);
    for value in values {
        classes.push(class_of(meta, value))?;
    }
    Ok(classes)
}

/// What the objects of a value write that has the form of a model, no more objects than a model may have, and no fault that is told by
/// its place.
pub(crate) fn filed_of(alloc: Global, meta: &MetaModel, value: &Value) -> Result<Filed, NoMemory>
    requires { (bytes : List ℕ) × HasObjects meta.now bytes (view value.now) }
    ensures filed { IfOk result (IsFiled (content.source_of meta.now (view value.now))) }
    ensures sound { IfOk result (IsSoundFiled meta.now) }
{
    // What every metamodel keeps is known here.
    let _ = meta.class_count();
    let values = objects_of(value);
    let ids = table_of(alloc, values)?;
    let texts = or_drop!(ids_of(alloc, values); ids);
    let classes = or_drop!(classes_of(alloc, meta, values); ids, texts);
    let mut filed = Filed {
        ids: texts,
        classes,
        values: Seq::new(alloc),
        references: Seq::new(alloc),
        mentions: Seq::new(alloc),
    };
    or_drop!(add_objects(alloc, meta, &ids, values, &mut filed); ids, filed);
    drop(ids);
    Ok(filed)
}
