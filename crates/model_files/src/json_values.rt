//! The values of JSON that the parts of a model are.
ghost use Rattle.std.specs.Prelude.{◌≡◌, ◌<◌, ◌++◌, length, map, All, IsTrue, IfOk, IfSome, OnOk, chars, option_map};
ghost use Rattle.serde_json.specs.Data.{no_members};
ghost use Rattle.serde_json.specs.View.{view, members_view};
ghost use Rattle.mof_metamodel.specs.Metamodels.{prop_count, enum_at, literal_at};
ghost use Rattle.object_tables.specs.Models.{IsLive, IsAttributeOf, IsReferenceOf, values_at, partners_at};
ghost use Rattle.object_tables.specs.Validity.{IsPropertyOf};
ghost use Rattle.model_assembly.specs.Forms.{form_of, is_composite, reference_form, attribute_form};
ghost use Rattle.model_assembly.specs.Profile.{prop_name, id_text};
ghost use Rattle.model_files.specs.CanonJson.{text_data, value_data, partner_data, slot_data, with_slot, with_slots, slots_data, object_data, live_data, objects_data, model_data};
ghost use Rattle.model_files.specs.Literals.{names_literal};

use model_assembly::Form;
use mof_metamodel::{EnumId, MetaModel, NoMemory, PropId, PropType, Seq};
use object_tables::{Model, ObjId, Value as Datum};
use serde_json::{Map, Value, json};
use std::alloc::Global;

/// A text.
fn text_value(alloc: Global, text: &str) -> Result<Value, NoMemory>
    ensures { IfOk result (λ v. view v ≡ text_data (chars text.now)) }
{
    Ok(Value::try_from_str(alloc, text)?)
}

/// The name of a literal.
fn literal_name(meta: &MetaModel, e: EnumId, n: u32) -> &str
    requires { n < length (enum_at meta.now e.0).literals }
    ensures { chars result.now ≡ literal_at meta.now e.0 n }
{
    meta.literals(e)[n as usize].as_str()
}

/// A value of an attribute.
fn datum_value(alloc: Global, meta: &MetaModel, datum: &Datum) -> Result<Value, NoMemory>
    requires { IsTrue (names_literal meta.now datum.now) }
    ensures { IfOk result (λ v. view v ≡ value_data meta.now datum.now) }
{
    match datum {
        Datum::Str(text) => text_value(alloc, text.as_str()),
        Datum::Int(number) => Ok(Value::from(*number)),
        Datum::Bool(bool) => Ok(Value::from(*bool)),
        Datum::Lit(e, n) => text_value(alloc, literal_name(meta, *e, *n)),
    }
}

/// The values of an attribute.
fn data_values(alloc: Global, meta: &MetaModel, held: &[Datum]) -> Result<Seq<Value>, NoMemory>
    requires { All (λ v. IsTrue (names_literal meta.now v)) held.now }
    ensures { IfOk result (λ values. map view values ≡ map (value_data meta.now) held.now) }
{
    let mut values = Seq::new(alloc);
    for datum in held {
        values.push(datum_value(alloc, meta, datum)?)?;
    }
    Ok(values)
}

/// The identifiers of objects.
fn id_values(alloc: Global, model: &Model<'_>, objects: &[ObjId]) -> Result<Seq<Value>, NoMemory>
    requires { All (λ b. IsLive model.now b.0) objects.now }
    ensures { IfOk result (λ values. map view values ≡ map (λ b. partner_data model.now b.0) objects.now) }
{
    let mut values = Seq::new(alloc);
    for b in objects {
        values.push(text_value(alloc, model.id_of(*b))?)?;
    }
    Ok(values)
}

/// The values of an object at an attribute.
fn attribute_values(
    alloc: Global,
    model: &Model<'_>,
    o: ObjId,
    p: PropId,
) -> Result<Seq<Value>, NoMemory>
    requires { IsAttributeOf model.now o.0 p.0 }
    ensures { IfOk result (λ values. map view values ≡ map (value_data model.now.meta) (values_at model.now o.0 p.0)) }
{
    // What every model keeps is known here.
    let _ = model.end();
    data_values(alloc, model.meta(), model.attr(o, p))
}

/// The partners of an object at a reference.
fn reference_values(
    alloc: Global,
    model: &Model<'_>,
    o: ObjId,
    p: PropId,
) -> Result<Seq<Value>, NoMemory>
    requires { IsReferenceOf model.now o.0 p.0 }
    ensures { IfOk result (λ values. map view values ≡ map (partner_data model.now) (partners_at model.now o.0 p.0)) }
{
    let mut partners = Seq::new(alloc);
    model.partners(o, p).collect_into(&mut partners)?;
    id_values(alloc, model, partners.as_slice())
}

/// Whether a property is composite, if it is one.
fn is_composite(meta: &MetaModel, p: Option<PropId>) -> bool
    requires { IfSome p (λ q. q.0 < prop_count meta.now) }
    ensures { result ≡ is_composite meta.now (option_map (λ q. q.0) p) }
{
    match p {
        Some(p) => meta.prop(p).composite,
        None => false,
    }
}

/// How a reference is written.
fn reference_form(meta: &MetaModel, p: PropId) -> Form
    requires { p.0 < prop_count meta.now }
    ensures { result ≡ reference_form meta.now p.0 }
{
    if meta.prop(p).composite {
        Form::Parts
    } else if is_composite(meta, meta.opposite(p)) {
        Form::Nesting
    } else {
        Form::Identifiers
    }
}

/// How an attribute is written.
fn attribute_form(meta: &MetaModel, p: PropId) -> Form
    requires { p.0 < prop_count meta.now }
    ensures { result ≡ attribute_form meta.now p.0 }
{
    match meta.prop(p).upper {
        Some(1) => Form::Attribute,
        _ => Form::Elements,
    }
}

/// How a property is written.
fn form_of(meta: &MetaModel, p: PropId) -> Form
    requires { p.0 < prop_count meta.now }
    ensures { result ≡ form_of meta.now p.0 }
{
    match meta.prop(p).ty {
        PropType::Class(_) => reference_form(meta, p),
        _ => attribute_form(meta, p),
    }
}

/// What stands in a slot of an object.
fn slot_values(
    alloc: Global,
    model: &Model<'_>,
    o: ObjId,
    p: PropId,
) -> Result<Seq<Value>, NoMemory>
    requires property { IsPropertyOf model.now o.0 p.0 }
    requires within { p.0 < prop_count model.now.meta }
    ensures { IfOk result (λ values. map view values ≡ slot_data model.now o.0 p.0) }
{
    match form_of(model.meta(), p) {
        Form::Attribute => attribute_values(alloc, model, o, p),
        Form::Elements => attribute_values(alloc, model, o, p),
        Form::Identifiers => reference_values(alloc, model, o, p),
        Form::Parts => reference_values(alloc, model, o, p),
        Form::Nesting => Ok(Seq::new(alloc)),
    }
}

/// Puts the slot of an object at a property among its slots, unless it is empty.
fn put_slot(
    alloc: Global,
    model: &Model<'_>,
    o: ObjId,
    p: PropId,
    slots: &mut Map<String, Value>,
) -> Result<(), NoMemory>
    requires property { IsPropertyOf model.now o.0 p.0 }
    requires within { p.0 < prop_count model.now.meta }
    ensures { OnOk result (members_view slots.new.entries
        ≡ with_slot (prop_name model.now.meta p.0) (slot_data model.now o.0 p.0) (members_view slots.old.entries)) }
{
    let values = slot_values(alloc, model, o, p)?;
    if values.is_empty() {
        return Ok(());
    }
    let name = model.meta().prop(p).name.as_str();
    serde_json::put(slots, alloc, name, Value::Array(values.into_vec()))?;
    Ok(())
}

/// The slots of an object, each under the name of its property.
fn slots_of(alloc: Global, model: &Model<'_>, o: ObjId) -> Result<Map<String, Value>, NoMemory>
    requires { IsLive model.now o.0 }
    ensures { IfOk result (λ slots. members_view slots.entries ≡ slots_data model.now o.0) }
{
    let mut slots = Map::new(alloc);
    for p in model.meta().props(model.class_of(o)) {
        put_slot(alloc, model, o, *p, &mut slots)?;
    }
    Ok(slots)
}

/// An object.
fn object_value(alloc: Global, model: &Model<'_>, o: ObjId) -> Result<Value, NoMemory>
    requires { IsLive model.now o.0 }
    ensures { IfOk result (λ v. view v ≡ object_data model.now o.0) }
{
    let class = text_value(alloc, model.meta().class_name(model.class_of(o)))?;
    let id = text_value(alloc, model.id_of(o))?;
    let slots = slots_of(alloc, model, o)?;
    Ok(json!(in alloc; {"class": class, "id": id, "slots": slots})?)
}

/// Puts an object behind others, if the number has one.
fn push_object(
    alloc: Global,
    model: &Model<'_>,
    o: ObjId,
    values: &mut Seq<Value>,
) -> Result<(), NoMemory>
    ensures { OnOk result (map view values.new ≡ map view values.old ++ live_data model.now o.0) }
{
    if !model.is_live(o) {
        return Ok(());
    }
    values.push(object_value(alloc, model, o)?)?;
    Ok(())
}

/// The objects by number.
fn object_values(alloc: Global, model: &Model<'_>) -> Result<Seq<Value>, NoMemory>
    ensures { IfOk result (λ values. map view values ≡ objects_data model.now) }
{
    let mut values = Seq::new(alloc);
    for o in 0..model.end() {
        push_object(alloc, model, ObjId(o), &mut values)?;
    }
    Ok(values)
}

/// A model as a value of JSON.
pub(crate) fn model_value(alloc: Global, model: &Model<'_>) -> Result<Value, NoMemory>
    ensures { IfOk result (λ v. view v ≡ model_data model.now) }
{
    let metamodel = text_value(alloc, model.meta().name())?;
    let objects = object_values(alloc, model)?.into_vec();
    Ok(json!(in alloc; {"metamodel": metamodel, "objects": objects, "version": 1u64})?)
}
