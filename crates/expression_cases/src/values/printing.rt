//! Values as they are printed.
use crate::values::variables::Stage;
use case_texts::Pen;
use expression_settings::{bool_word, kind_word};
use mof_metamodel::EnumId;
use object_tables::{Model, ObjId, Value};
use ocl_environments::Metas;
use qvtr_semantics::{Datum, Out};

/// A value of an expression: a datum, the kind of a collection with its elements in their order, `null` or
/// `invalid`.
pub(crate) fn put_out(pen: &mut Pen, stage: &Stage<'_, '_>, out: &Out) {
    match out {
        Out::One(datum) => put_datum(pen, stage, datum),
        Out::Many(kind, elements) => {
            pen.put(kind_word(*kind));
            put_elements(pen, stage, elements.as_slice());
        }
        Out::Null => pen.put("null"),
        Out::Invalid => pen.put("invalid"),
    }
}

fn put_elements(pen: &mut Pen, stage: &Stage<'_, '_>, elements: &[Datum]) {
    let mut mark = "{";
    for datum in elements {
        pen.put(mark);
        put_datum(pen, stage, datum);
        mark = ", ";
    }
    pen.put(if elements.is_empty() { "{}" } else { "}" });
}

fn put_datum(pen: &mut Pen, stage: &Stage<'_, '_>, datum: &Datum) {
    match datum {
        Datum::Obj(number, object) => match stage.models.get(*number as usize) {
            Some(model) => pen.put(id_of(model, *object)),
            None => pen.put("?"),
        },
        Datum::Val(meta, value) => put_value(pen, stage, *meta, value),
    }
}

fn put_value(pen: &mut Pen, stage: &Stage<'_, '_>, meta: u32, value: &Value) {
    match value {
        Value::Str(text) => {
            pen.put("'");
            pen.put_on_line(stage.alloc, text.as_str());
            pen.put("'");
        }
        Value::Int(i) => pen.put_string(format!(in stage.alloc; "{i}")),
        Value::Bool(b) => pen.put(bool_word(*b)),
        Value::Lit(e, place) => pen.put(literal_name(stage.metas, meta, *e, *place)),
    }
}

fn literal_name(metas: &Metas, number: u32, e: EnumId, place: u32) -> &str {
    if number >= metas.len() {
        return "?";
    }
    let meta = metas.get(number);
    if e.0 >= meta.enum_count() {
        return "?";
    }
    match meta.literals(e).get(place as usize) {
        Some(literal) => literal.as_str(),
        None => "?",
    }
}

/// The identifier of an object, or `?` where it is gone.
fn id_of<'a>(model: &'a Model<'_>, o: ObjId) -> &'a str {
    if model.is_live(o) {
        model.id_of(o)
    } else {
        "?"
    }
}
