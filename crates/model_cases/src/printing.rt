ghost use Rattle.std.specs.Prelude.{◌<◌};
ghost use Rattle.mof_metamodel.specs.Metamodels.{class_count, enum_count, prop_count};

use case_texts::Pen;
use mof_metamodel::{ClassId, EnumId, MetaModel, Prop, PropId, PropType};
use std::alloc::Global;

/// What the reading calls say of a metamodel. Its name stands first, and then a line for each class: whether
/// it is abstract, its name, its superclasses behind `<`, the classes that it conforms to behind `is`, and
/// its properties in class order behind `has`. Lines for the properties that it owns follow, in the form of a
/// description with all bounds, and at the end the enumerations.
pub(crate) fn print_metamodel(alloc: Global, pen: &mut Pen, meta: &MetaModel) {
    pen.put(meta.name());
    for c in 0..meta.class_count() {
        print_class(alloc, pen, meta, ClassId(c));
    }
    for e in 0..meta.enum_count() {
        print_enum(pen, meta, EnumId(e));
    }
}

fn print_class(alloc: Global, pen: &mut Pen, meta: &MetaModel, c: ClassId)
    requires { c.0 < class_count meta.now }
{
    pen.put(if meta.is_abstract(c) {
        "\n  abstract "
    } else {
        "\n  class "
    });
    pen.put(meta.class_name(c));
    print_supers(pen, meta, c);
    print_conforming(pen, meta, c);
    print_props(pen, meta, c);
    print_own(alloc, pen, meta, c);
}

fn print_supers(pen: &mut Pen, meta: &MetaModel, c: ClassId)
    requires { c.0 < class_count meta.now }
{
    for s in meta.supers(c) {
        pen.put(" < ");
        pen.put(class_name(meta, *s));
    }
}

fn print_conforming(pen: &mut Pen, meta: &MetaModel, c: ClassId)
    requires { c.0 < class_count meta.now }
{
    pen.put(" is");
    for d in 0..meta.class_count() {
        if meta.conforms(c, ClassId(d)) {
            pen.put(" ");
            pen.put(class_name(meta, ClassId(d)));
        }
    }
}

fn print_props(pen: &mut Pen, meta: &MetaModel, c: ClassId)
    requires { c.0 < class_count meta.now }
{
    pen.put(" has");
    for p in meta.props(c) {
        let prop = meta.prop(*p);
        pen.put(" ");
        pen.put(class_name(meta, prop.owner));
        pen.put(".");
        pen.put(prop.name.as_str());
    }
}

fn print_own(alloc: Global, pen: &mut Pen, meta: &MetaModel, c: ClassId)
    requires { c.0 < class_count meta.now }
{
    for p in meta.props(c) {
        let prop = meta.prop(*p);
        if prop.owner == c {
            print_prop(alloc, pen, meta, prop);
        }
    }
}

fn print_prop(alloc: Global, pen: &mut Pen, meta: &MetaModel, prop: &Prop) {
    pen.put("\n    ");
    pen.put(prop.name.as_str());
    pen.put(" : ");
    pen.put(type_name(meta, prop.ty));
    pen.put(" ");
    print_bounds(alloc, pen, prop.lower, prop.upper);
    if prop.composite {
        pen.put(" composite");
    }
    if prop.ordered {
        pen.put(" ordered");
    }
    print_opposite(pen, meta, prop);
}

/// Bounds, as `0..*`.
pub(crate) fn print_bounds(alloc: Global, pen: &mut Pen, lower: u32, upper: Option<u32>) {
    pen.put_string(format!(in alloc; "{lower}.."));
    match upper {
        Some(upper) => pen.put_string(format!(in alloc; "{upper}")),
        None => pen.put("*"),
    }
}

/// The opposite of a property is a property of its type.
fn print_opposite(pen: &mut Pen, meta: &MetaModel, prop: &Prop) {
    if let Some(q) = prop.opposite
        && let PropType::Class(c) = prop.ty
        && c.0 < meta.class_count()
    {
        pen.put(" ");
        print_named(pen, meta, c, q);
    }
}

/// A property of a class with the class that owns it.
fn print_named(pen: &mut Pen, meta: &MetaModel, c: ClassId, p: PropId)
    requires { c.0 < class_count meta.now }
{
    for q in meta.props(c) {
        if *q == p {
            let prop = meta.prop(*q);
            pen.put(class_name(meta, prop.owner));
            pen.put(".");
            pen.put(prop.name.as_str());
        }
    }
}

fn print_enum(pen: &mut Pen, meta: &MetaModel, e: EnumId)
    requires { e.0 < enum_count meta.now }
{
    pen.put("\n  enum ");
    pen.put(meta.enum_name(e));
    pen.put(" =");
    for literal in meta.literals(e) {
        pen.put(" ");
        pen.put(literal.as_str());
    }
}

fn class_name(meta: &MetaModel, c: ClassId) -> &str {
    if c.0 < meta.class_count() {
        meta.class_name(c)
    } else {
        "?"
    }
}

fn type_name(meta: &MetaModel, ty: PropType) -> &str {
    match ty {
        PropType::Str => "String",
        PropType::Int => "Integer",
        PropType::Bool => "Boolean",
        PropType::Class(c) => class_name(meta, c),
        PropType::Enum(e) => {
            if e.0 < meta.enum_count() {
                meta.enum_name(e)
            } else {
                "?"
            }
        }
    }
}
