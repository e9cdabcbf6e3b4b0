ghost use Rattle.object_tables.specs.Models.{IsLive, IsReferenceOf, IsAttributeOf};

use case_texts::Pen;
use mof_metamodel::{EnumId, MetaModel, PropId};
use object_tables::{Model, ObjId, Value};
use std::alloc::Global;

/// What the reading calls say of the objects of a model, a line for each in the order of their numbers:
/// identifier, class, container with the property, and what stands at each property at which something
/// stands, in class order.
pub(crate) fn print_objects(alloc: Global, pen: &mut Pen, model: &Model<'_>) {
    for o in 0..model.end() {
        if model.is_live(ObjId(o)) {
            pen.put("\n  ");
            print_object(alloc, pen, model, ObjId(o));
        }
    }
}

/// The same of one object.
pub(crate) fn print_object(alloc: Global, pen: &mut Pen, model: &Model<'_>, o: ObjId)
    requires { IsLive model.now o.0 }
{
    pen.put(model.id_of(o));
    pen.put(" ");
    let class = model.class_of(o);
    pen.put(model.meta().class_name(class));
    print_container(pen, model, o);
    for p in model.meta().props(class) {
        let name = model.meta().prop(*p).name.as_str();
        print_slot(alloc, pen, model, o, *p, name);
    }
}

/// The links to an object that have no name at it: at each the object whose partner it is, and where.
pub(crate) fn print_incoming(pen: &mut Pen, model: &Model<'_>, id: &str) {
    let Some(o) = model.by_id(id) else {
        pen.put("gone");
        return;
    };
    let mut is_first = true;
    for (a, p) in model.incoming(o) {
        if !is_first {
            pen.put(",");
        }
        pen.put(id_of(model, a));
        pen.put(".");
        pen.put(prop_name(model, a, p));
        is_first = false;
    }
}

fn print_container(pen: &mut Pen, model: &Model<'_>, o: ObjId)
    requires { IsLive model.now o.0 }
{
    if let Some((a, p)) = model.container(o) {
        pen.put(" in ");
        pen.put(id_of(model, a));
        pen.put(".");
        pen.put(prop_name(model, a, p));
    }
}

fn print_slot(alloc: Global, pen: &mut Pen, model: &Model<'_>, o: ObjId, p: PropId, name: &str) {
    if model.has_reference(o, p) {
        print_partners(pen, model, o, p, name);
    } else if model.has_attribute(o, p) {
        print_values(alloc, pen, model, o, p, name);
    }
}

/// Puts a name in front of the first of several words, and a comma in front of each other one.
fn print_head(pen: &mut Pen, name: &str, is_first: bool) {
    if is_first {
        pen.put(" ");
        pen.put(name);
        pen.put("=");
    } else {
        pen.put(",");
    }
}

fn print_partners(pen: &mut Pen, model: &Model<'_>, o: ObjId, p: PropId, name: &str)
    requires { IsReferenceOf model.now o.0 p.0 }
{
    let mut is_first = true;
    for b in model.partners(o, p) {
        print_head(pen, name, is_first);
        pen.put(id_of(model, b));
        is_first = false;
    }
}

fn print_values(alloc: Global, pen: &mut Pen, model: &Model<'_>, o: ObjId, p: PropId, name: &str)
    requires { IsAttributeOf model.now o.0 p.0 }
{
    let mut is_first = true;
    for value in model.attr(o, p) {
        print_head(pen, name, is_first);
        print_value(alloc, pen, model.meta(), value);
        is_first = false;
    }
}

fn print_value(alloc: Global, pen: &mut Pen, meta: &MetaModel, value: &Value) {
    match value {
        Value::Str(text) => {
            pen.put("'");
            pen.put(text.as_str());
        }
        Value::Int(i) => pen.put_string(format!(in alloc; "{i}")),
        Value::Bool(b) => pen.put(if *b { "true" } else { "false" }),
        Value::Lit(e, n) => pen.put(literal_name(meta, *e, *n)),
    }
}

fn literal_name(meta: &MetaModel, e: EnumId, n: u32) -> &str {
    if e.0 >= meta.enum_count() {
        return "?";
    }
    match meta.literals(e).get(n as usize) {
        Some(literal) => literal.as_str(),
        None => "?",
    }
}

/// The identifier of an object, or `?` where it is gone.
pub(crate) fn id_of<'a>(model: &'a Model<'_>, o: ObjId) -> &'a str {
    if model.is_live(o) {
        model.id_of(o)
    } else {
        "?"
    }
}

/// The name of a property of an object's class, or `?` where it isn't one.
pub(crate) fn prop_name<'m>(model: &Model<'m>, o: ObjId, p: PropId) -> &'m str {
    if model.is_live(o) {
        for q in model.meta().props(model.class_of(o)) {
            if *q == p {
                return model.meta().prop(*q).name.as_str();
            }
        }
    }
    "?"
}
