//! What is known of the texts and numbers that a model of code holds, by reading each of them.
ghost use Rattle.std.specs.Prelude.{◌≡◌, ◌<◌, ℕ, List, Some, All, chars};
ghost use Rattle.mof_metamodel.specs.Metamodels.{class_count, class_at as meta_class, enum_count, enum_at, own_props, prop_at};
ghost use Rattle.object_tables.specs.Models.{IsAttributeOf, id_at, values_at};
ghost use Rattle.model_assembly.specs.Held.{IsHeldText, IsHeld, HasHeldNames, IsHeldModel};

use mof_metamodel::{ClassId, EnumId, MetaModel, PropId, Text};
use object_tables::{Model, ObjId, Value};

/// Each character of a text is a Unicode scalar value.
fn learn_str(text: &str)
    ensures { IsHeldText (chars text.now) }
{}

/// The same.
fn learn_text(text: &Text)
    ensures { IsHeldText text.now }
{
    learn_str(text.as_str());
}

fn learn_texts(texts: &[Text])
    ensures { All IsHeldText texts.now }
{
    for text in texts {
        learn_text(text);
    }
}

fn learn_value(value: &Value)
    ensures { IsHeld value.now }
{
    match value {
        Value::Str(text) => learn_text(text),
        Value::Int(number) => {
            let _number = *number;
        }
        Value::Bool(_) => {}
        Value::Lit(_, _) => {}
    }
}

fn learn_values(values: &[Value])
    ensures { All IsHeld values.now }
{
    for value in values {
        learn_value(value);
    }
}

fn learn_class(meta: &MetaModel, c: ClassId)
    requires { c.0 < class_count meta.now }
    ensures { IsHeldText (meta_class meta.now c.0).name }
{
    learn_str(meta.class_name(c));
}

/// The names of the properties that a class owns.
fn learn_props(meta: &MetaModel, c: ClassId)
    requires { c.0 < class_count meta.now }
    ensures { All (λ p. IsHeldText (prop_at meta.now p).name) (own_props meta.now c.0) }
{
    for p in meta.props(c) {
        learn_text(&meta.prop(*p).name);
    }
}

/// The names of classes and properties.
fn learn_classes(meta: &MetaModel)
    ensures classes { (c : ℕ) → c < class_count meta.now → IsHeldText (meta_class meta.now c).name }
    ensures props { (c : ℕ) → c < class_count meta.now → All (λ p. IsHeldText (prop_at meta.now p).name) (own_props meta.now c) }
{
    for c in 0..meta.class_count() {
        learn_class(meta, ClassId(c));
        learn_props(meta, ClassId(c));
    }
}

fn learn_enums(meta: &MetaModel)
    ensures { (e : ℕ) → e < enum_count meta.now → All IsHeldText (enum_at meta.now e).literals }
{
    for e in 0..meta.enum_count() {
        learn_texts(meta.literals(EnumId(e)));
    }
}

/// The names of a metamodel are characters.
fn learn_names(meta: &MetaModel)
    ensures { HasHeldNames meta.now }
{
    learn_str(meta.name());
    learn_classes(meta);
    learn_enums(meta);
}

fn learn_id(model: &Model<'_>, o: ObjId)
    ensures { (id : List ℕ) → id_at model.now o.0 ≡ Some id → IsHeldText id }
{
    if model.is_live(o) {
        learn_str(model.id_of(o));
    }
}

fn learn_slot(model: &Model<'_>, o: ObjId, p: PropId)
    ensures { IsAttributeOf model.now o.0 p.0 → All IsHeld (values_at model.now o.0 p.0) }
{
    if model.has_attribute(o, p) {
        learn_values(model.attr(o, p));
    }
}

/// The values of an object.
fn learn_slots(model: &Model<'_>, o: ObjId)
    ensures { (p : ℕ) → IsAttributeOf model.now o.0 p → All IsHeld (values_at model.now o.0 p) }
{
    if model.is_live(o) {
        for p in model.meta().props(model.class_of(o)) {
            learn_slot(model, o, *p);
        }
    }
}

/// The identifiers and values of all objects.
fn learn_objects(model: &Model<'_>)
    ensures ids { (o : ℕ) (id : List ℕ) → id_at model.now o ≡ Some id → IsHeldText id }
    ensures values { (o p : ℕ) → IsAttributeOf model.now o p → All IsHeld (values_at model.now o p) }
{
    for o in 0..model.end() {
        learn_id(model, ObjId(o));
        learn_slots(model, ObjId(o));
    }
}

/// The texts of a model of code are characters, and its integers have 64 bits: each is read once. What is written of it is therefore
/// read back (`models_are_read_back`).
pub fn models_are_held(model: &Model<'_>)
    ensures { IsHeldModel model.now }
{
    // What every model keeps is known here.
    let _ = model.end();
    learn_names(model.meta());
    learn_objects(model);
}
