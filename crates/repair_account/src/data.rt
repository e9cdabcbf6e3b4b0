//! Data as they are printed.
use crate::told::Told;
use case_texts::Pen;
use mof_metamodel::{EnumId, Text};
use object_tables::{ObjId, Value};
use qvtr_semantics::Datum;

/// A datum or a source object.
pub fn put_datum(pen: &mut Pen, told: &Told<'_, '_>, datum: &Datum) {
    match datum {
        Datum::Obj(model, object) => put_object(pen, told, *model, *object),
        Datum::Val(meta, value) => put_value(pen, told, *meta, value),
    }
}

fn put_object(pen: &mut Pen, told: &Told<'_, '_>, model: u32, object: ObjId) {
    pen.put(told.model_name(model));
    pen.put(":");
    pen.put(told.identifier(model, object));
}

/// A value of a metamodel of this number.
pub fn put_value(pen: &mut Pen, told: &Told<'_, '_>, meta: u32, value: &Value) {
    match value {
        Value::Str(text) => put_string(pen, text),
        Value::Int(number) => pen.put_string(format!(in told.alloc; "{number}")),
        Value::Bool(true) => pen.put("true"),
        Value::Bool(false) => pen.put("false"),
        Value::Lit(of, place) => put_literal(pen, told, meta, *of, *place),
    }
}

fn put_string(pen: &mut Pen, text: &Text) {
    pen.put("'");
    pen.put(text.as_str());
    pen.put("'");
}

fn put_literal(pen: &mut Pen, told: &Told<'_, '_>, meta: u32, of: EnumId, place: u32) {
    match told.meta(meta) {
        Some(meta) if of.0 < meta.enum_count() => {
            pen.put(meta.enum_name(of));
            pen.put("::");
            if let Some(literal) = meta.literals(of).get(place as usize) {
                pen.put(literal.as_str());
            }
        }
        _ => pen.put("::"),
    }
}
