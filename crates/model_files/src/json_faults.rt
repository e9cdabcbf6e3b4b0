//! The faults of a model as JSON that are told by their place.
ghost use Rattle.std.specs.Prelude.{◌≡◌, ◌<◌, ◌++◌, [], ◌∷◌, map, Some, false, chars, is_some, IfOk, IfSome, OnOk};
ghost use Rattle.std.specs.List.{list_any};
ghost use Rattle.std.specs.Option.{option_map};
ghost use Rattle.serde_json.specs.Find.{get};
ghost use Rattle.serde_json.specs.View.{view, items_view, members_view};
ghost use Rattle.mof_metamodel.specs.Metamodels.{same_name, class_count, enum_count, literal_number, prop_number, IsTypeOf};
ghost use Rattle.mof_metamodel.specs.Characters.{is_storable_text as storable};
ghost use Rattle.model_assembly.specs.Elements.{concrete_class};
ghost use Rattle.model_files.specs.JsonContent as content;
ghost use Rattle.model_files.specs.JsonSteps.{printed, met_ids, is_text_with, wrong_in_class, wrong_data};

use crate::names::empty_text;
use model_assembly::ModelFault;
use mof_metamodel::{
    ClassId, EnumId, MetaModel, NameTable, NoMemory, PropType, Text, is_identifier, is_storable,
    or_drop,
};
use serde_json::{Map, Value};
use std::alloc::Global;

/// An object that writes slots: its identifier as it is written, and its number.
#[derive(Clone, Copy)]
pub(crate) struct Speaker<'a> {
    pub(crate) id: &'a str,
    pub(crate) number: u64,
}

impl Speaker<'_> {
    /// The identifier that is printed: what is written, if it is an identifier, or else `_` and the number.
    #[tactic(auto, using(crate::proofs::JsonFaultLaws::given_characters))]
    fn printed(self, alloc: Global) -> Result<Text, NoMemory>
        ensures { IfOk result (λ t. t ≡ printed self.entry) }
    {
        if is_identifier(self.id) {
            return Text::new(alloc, self.id);
        }
        let number = self.number;
        Ok(Text::from_string(format!(in alloc; "_{number}")?))
    }

    /// The fault of a value that may not stand at a property.
    fn wrong_value(self, alloc: Global, name: &str) -> Result<ModelFault, NoMemory>
        ensures { IfOk result (λ f. f ≡ ModelFault.WrongValue (printed self.entry) (Some (chars name.now))) }
    {
        Ok(ModelFault::WrongValue {
            id: self.printed(alloc)?,
            prop: Some(Text::new(alloc, name)?),
        })
    }

    /// The fault of a property that the class of the object doesn't have.
    fn unknown_property(self, alloc: Global, name: &str) -> Result<ModelFault, NoMemory>
        ensures { IfOk result (λ f. f ≡ ModelFault.UnknownProperty (printed self.entry) (chars name.now)) }
    {
        Ok(ModelFault::UnknownProperty {
            id: self.printed(alloc)?,
            prop: Text::new(alloc, name)?,
        })
    }
}

/// Whether a value is a text that is storable.
fn is_storable_text(value: &Value) -> bool
    ensures { result ≡ is_text_with storable (view value.now) }
{
    match value {
        Value::String(text) => is_storable(text.as_str()),
        _ => false,
    }
}

/// Whether a value is an identifier.
fn is_reference(value: &Value) -> bool
    ensures { result ≡ content.is_reference (view value.now) }
{
    match value {
        Value::String(text) => is_identifier(text.as_str()),
        _ => false,
    }
}

/// Whether a value is the name of a literal.
fn is_literal(meta: &MetaModel, e: EnumId, value: &Value) -> bool
    requires { e.0 < enum_count meta.now }
    ensures { result ≡ is_text_with (λ text. is_some (literal_number meta.now e.0 text)) (view value.now) }
{
    match value {
        Value::String(text) => meta.literal_named(e, text.as_str()).is_some(),
        _ => false,
    }
}

/// Whether an item may stand in a slot of this type.
#[tactic(auto, using(crate::proofs::JsonFaultLaws::text_stands, crate::proofs::JsonFaultLaws::integer_stands, crate::proofs::JsonFaultLaws::boolean_stands, crate::proofs::JsonFaultLaws::literal_stands))]
fn may_stand(meta: &MetaModel, ty: PropType, value: &Value) -> bool
    requires { IsTypeOf meta.now ty }
    ensures { result ≡ content.may_stand meta.now (Some ty) (view value.now) }
{
    match ty {
        PropType::Str => is_storable_text(value),
        PropType::Int => value.as_i64().is_some(),
        PropType::Bool => value.is_boolean(),
        PropType::Enum(e) => is_literal(meta, e, value),
        PropType::Class(_) => is_reference(value),
    }
}

/// The first item of a slot that may not stand there.
fn wrong_in(
    alloc: Global,
    meta: &MetaModel,
    ty: PropType,
    speaker: Speaker<'_>,
    name: &str,
    values: &[Value],
) -> Result<Option<ModelFault>, NoMemory>
    requires { IsTypeOf meta.now ty }
    ensures { IfOk result (λ f. f ≡ content.wrong_in meta.now (printed speaker.entry) (chars name.now) (Some ty) (content.items_list (items_view values.now))) }
{
    for value in values {
        if !may_stand(meta, ty, value) {
            return Ok(Some(speaker.wrong_value(alloc, name)?));
        }
    }
    Ok(None)
}

/// What is wrong at a slot.
fn wrong_at(
    alloc: Global,
    meta: &MetaModel,
    class: ClassId,
    speaker: Speaker<'_>,
    name: &str,
    value: &Value,
) -> Result<Option<ModelFault>, NoMemory>
    requires { class.0 < class_count meta.now }
    ensures { IfOk result (λ f. f ≡ content.wrong_at meta.now (printed speaker.entry) (chars name.now)
        (prop_number meta.now class.0 (chars name.now)) (content.in_list (view value.now))) }
{
    let Some(p) = meta.prop_of(class, name) else {
        return Ok(Some(speaker.unknown_property(alloc, name)?));
    };
    match value {
        Value::Array(values) => wrong_in(
            alloc,
            meta,
            meta.prop(p).ty,
            speaker,
            name,
            values.as_slice(),
        ),
        _ => Ok(None),
    }
}

/// What is wrong first in the slots of an object.
fn wrong_members(
    alloc: Global,
    meta: &MetaModel,
    class: ClassId,
    speaker: Speaker<'_>,
    slots: &Map<String, Value>,
) -> Result<Option<ModelFault>, NoMemory>
    requires { class.0 < class_count meta.now }
    ensures { IfOk result (λ f. f ≡ content.wrong_slots meta.now (printed speaker.entry) class.0 (content.slots_list (members_view slots.now.entries))) }
{
    for (name, value) in slots.iter() {
        if let Some(fault) = wrong_at(alloc, meta, class, speaker, name.as_str(), value)? {
            return Ok(Some(fault));
        }
    }
    Ok(None)
}

/// The same of a value that has the slots.
fn wrong_slots_in(
    alloc: Global,
    meta: &MetaModel,
    class: ClassId,
    speaker: Speaker<'_>,
    value: &Value,
) -> Result<Option<ModelFault>, NoMemory>
    requires { class.0 < class_count meta.now }
    ensures { IfOk result (λ f. f ≡ content.wrong_slots meta.now (printed speaker.entry) class.0 (content.in_slots (view value.now))) }
{
    match value {
        Value::Object(slots) => wrong_members(alloc, meta, class, speaker, slots),
        _ => Ok(None),
    }
}

/// What is wrong first in the member `slots` of an object.
fn wrong_slots(
    alloc: Global,
    meta: &MetaModel,
    class: ClassId,
    speaker: Speaker<'_>,
    value: &Value,
) -> Result<Option<ModelFault>, NoMemory>
    requires { class.0 < class_count meta.now }
    ensures { IfOk result (λ f. f ≡ content.wrong_slots meta.now (printed speaker.entry) class.0 (content.written_of (view value.now)).slots) }
{
    match value.get("slots") {
        Some(slots) => wrong_slots_in(alloc, meta, class, speaker, slots),
        None => Ok(None),
    }
}

/// The text of a member of an object.
pub(crate) fn member_text<'a>(value: &'a Value, name: &str) -> &'a str
    ensures { chars result.now ≡ content.text_of (get name.now (view value.now)) }
{
    match value.get(name) {
        Some(Value::String(text)) => text.as_str(),
        _ => empty_text(),
    }
}

/// Whether an identifier was met.
fn is_met(ids: &NameTable<()>, id: &str) -> bool
    ensures { result ≡ list_any (same_name (chars id.now)) (met_ids ids.now) }
{
    match ids.get(id) {
        Some(_) => true,
        None => false,
    }
}

/// What is wrong with an identifier: it is none, or one that was met.
fn wrong_id(
    alloc: Global,
    ids: &NameTable<()>,
    speaker: Speaker<'_>,
) -> Result<Option<ModelFault>, NoMemory>
    ensures { IfOk result (λ f. f ≡ content.wrong_id (met_ids ids.now) speaker.entry.number (chars speaker.entry.id.now)) }
{
    if !is_identifier(speaker.id) {
        return Ok(Some(ModelFault::WrongValue {
            id: speaker.printed(alloc)?,
            prop: None,
        }));
    }
    if is_met(ids, speaker.id) {
        return Ok(Some(ModelFault::DuplicateId {
            id: Text::new(alloc, speaker.id)?,
        }));
    }
    Ok(None)
}

/// The concrete class of this name.
pub(crate) fn concrete_class(meta: &MetaModel, name: &str) -> Option<ClassId>
    ensures class { option_map (λ c. c.0) result ≡ concrete_class meta.now (chars name.now) }
    ensures within { IfSome result (λ c. c.0 < class_count meta.now) }
{
    match meta.class_named(name) {
        Some(class) => {
            if meta.is_abstract(class) {
                None
            } else {
                Some(class)
            }
        }
        None => None,
    }
}

/// What is wrong first with an object whose class is known.
fn wrong_in_class(
    alloc: Global,
    meta: &MetaModel,
    class: ClassId,
    ids: &NameTable<()>,
    speaker: Speaker<'_>,
    value: &Value,
) -> Result<Option<ModelFault>, NoMemory>
    requires { class.0 < class_count meta.now }
    ensures { IfOk result (λ f. f ≡ wrong_in_class meta.now class.0 (met_ids ids.now) speaker.entry (view value.now)) }
{
    match wrong_id(alloc, ids, speaker)? {
        Some(fault) => Ok(Some(fault)),
        None => wrong_slots(alloc, meta, class, speaker, value),
    }
}

/// What is wrong first with an object.
fn wrong_object(
    alloc: Global,
    meta: &MetaModel,
    ids: &NameTable<()>,
    number: u64,
    value: &Value,
) -> Result<Option<ModelFault>, NoMemory>
    ensures { IfOk result (λ f. f ≡ wrong_data meta.now (met_ids ids.now) number (view value.now)) }
{
    let name = member_text(value, "class");
    let speaker = Speaker {
        id: member_text(value, "id"),
        number,
    };
    match concrete_class(meta, name) {
        Some(class) => wrong_in_class(alloc, meta, class, ids, speaker, value),
        None => Ok(Some(ModelFault::UnknownClass {
            name: Text::new(alloc, name)?,
        })),
    }
}

/// Adds the identifier of an object to those that were met.
pub(crate) fn add_id(alloc: Global, ids: &mut NameTable<()>, value: &Value) -> Result<(), NoMemory>
    requires { list_any (same_name (content.written_of (view value.now)).id) (met_ids ids.old) ≡ false }
    ensures { OnOk result (met_ids ids.new ≡ met_ids ids.old ++ (content.written_of (view value.now)).id ∷ []) }
{
    let id = Text::new(alloc, member_text(value, "id"))?;
    ids.put(id, ())
}

/// The first fault that is told by its place, of the objects of a list.
pub(crate) fn first_wrong(
    alloc: Global,
    meta: &MetaModel,
    values: &[Value],
) -> Result<Option<ModelFault>, NoMemory>
    ensures { IfOk result (λ f. f ≡ content.first_wrong meta.now (map (λ v. content.written_of (view v)) values.now)) }
{
    let mut ids = NameTable::new(alloc);
    for number in 0..values.len() {
        let value = &values[number];
        if let Some(fault) = or_drop!(wrong_object(alloc, meta, &ids, number as u64, value); ids) {
            drop(ids);
            return Ok(Some(fault));
        }
        or_drop!(add_id(alloc, &mut ids, value); ids);
    }
    drop(ids);
    Ok(None)
}
