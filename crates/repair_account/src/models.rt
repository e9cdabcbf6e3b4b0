//! A model as the account prints the repaired one.
use crate::data::put_value;
use crate::outcome::{put_head, put_name};
use crate::told::Told;
use case_texts::Pen;
use mof_metamodel::PropId;
use object_tables::{Model, ObjId};

/// A model, with the number of its metamodel.
#[derive(Clone, Copy)]
struct Printed<'a, 'm> {
    told: &'a Told<'a, 'm>,
    meta: u32,
    model: &'a Model<'m>,
}

/// The values of an attribute of this name.
fn put_values(pen: &mut Pen, of: &Printed<'_, '_>, object: ObjId, prop: PropId, name: &str) {
    if !of.model.has_attribute(object, prop) {
        return;
    }
    for (i, value) in of.model.attr(object, prop).iter().enumerate() {
        if i == 0 {
            put_name(pen, name);
        }
        pen.put(" ");
        put_value(pen, of.told, of.meta, value);
    }
}

/// The partners at a reference of this name.
fn put_partners(pen: &mut Pen, model: &Model<'_>, object: ObjId, prop: PropId, name: &str) {
    if !model.has_reference(object, prop) {
        return;
    }
    if model.partner_count(object, prop) > 0 {
        put_name(pen, name);
    }
    for partner in model.partners(object, prop) {
        pen.put(" ");
        if model.is_live(partner) {
            pen.put(model.id_of(partner));
        }
    }
}

fn put_object(pen: &mut Pen, of: &Printed<'_, '_>, object: ObjId) {
    if !of.model.is_live(object) {
        return;
    }
    let meta = of.model.meta();
    let class = of.model.class_of(object);
    put_head(pen, of.model.id_of(object), meta.class_name(class));
    for prop in meta.props(class) {
        let name = meta.prop(*prop).name.as_str();
        put_values(pen, of, object, *prop, name);
        put_partners(pen, of.model, object, *prop, name);
    }
}

/// A line for each object of the model of this number: its identifier, its class, and what its slots hold.
pub fn put_model(pen: &mut Pen, told: &Told<'_, '_>, number: usize) {
    let slots = told.program.models.as_slice();
    if let (Some(slot), Some(model)) = (slots.get(number), told.models.get(number)) {
        let of = Printed {
            told,
            meta: slot.meta,
            model,
        };
        for object in 0..model.end() {
            put_object(pen, &of, ObjId(object));
        }
    }
}
