//! Metamodels as short texts.
ghost use Rattle.std.specs.Prelude.{◌<◌};
ghost use Rattle.mof_metamodel.specs.Metamodels.{class_count, enum_count};

use case_texts::Pen;
use mof_metamodel::{ClassId, EnumId, MetaModel, Prop, PropType};
use std::alloc::Global;

/// Puts a metamodel: its name, each class with its superclasses behind `<` and its own properties, and each
/// enumeration.
pub(crate) fn put_metamodel(alloc: Global, pen: &mut Pen, meta: &MetaModel) {
    pen.put(meta.name());
    for c in 0..meta.class_count() {
        put_class(alloc, pen, meta, ClassId(c));
    }
    put_enums(pen, meta);
}

fn put_class(alloc: Global, pen: &mut Pen, meta: &MetaModel, c: ClassId)
    requires { c.0 < class_count meta.now }
{
    pen.put(if meta.is_abstract(c) {
        "; abstract "
    } else {
        "; class "
    });
    pen.put(meta.class_name(c));
    for s in meta.supers(c) {
        pen.put(" < ");
        pen.put(class_name(meta, *s));
    }
    put_own(alloc, pen, meta, c);
}

fn put_own(alloc: Global, pen: &mut Pen, meta: &MetaModel, c: ClassId)
    requires { c.0 < class_count meta.now }
{
    for p in meta.props(c) {
        let prop = meta.prop(*p);
        if prop.owner == c {
            put_prop(alloc, pen, meta, prop);
        }
    }
}

fn put_prop(alloc: Global, pen: &mut Pen, meta: &MetaModel, prop: &Prop) {
    let lower = prop.lower;
    let name = prop.name.as_str();
    let type_name = type_name(meta, prop.ty);
    pen.put_string(format!(in alloc; "; {name} : {type_name} {lower}.."));
    match prop.upper {
        Some(upper) => pen.put_string(format!(in alloc; "{upper}")),
        None => pen.put("*"),
    }
    pen.put(if prop.composite { " composite" } else { "" });
    pen.put(if prop.ordered { " ordered" } else { "" });
    pen.put(match prop.opposite {
        Some(_) => " opposed",
        None => "",
    });
}

fn put_enums(pen: &mut Pen, meta: &MetaModel) {
    for e in 0..meta.enum_count() {
        put_enum(pen, meta, EnumId(e));
    }
}

fn put_enum(pen: &mut Pen, meta: &MetaModel, e: EnumId)
    requires { e.0 < enum_count meta.now }
{
    pen.put("; enum ");
    pen.put(meta.enum_name(e));
    pen.put(" =");
    for literal in meta.literals(e) {
        pen.put(" ");
        pen.put(literal.as_str());
    }
}

fn class_name(meta: &MetaModel, c: ClassId) -> &str {
    if c.0 < meta.class_count() {
        meta.class_name(c)
    } else {
        "?"
    }
}

fn type_name(meta: &MetaModel, ty: PropType) -> &str {
    match ty {
        PropType::Str => "String",
        PropType::Int => "Integer",
        PropType::Bool => "Boolean",
        PropType::Class(c) => class_name(meta, c),
        PropType::Enum(e) => {
            if e.0 < meta.enum_count() {
                meta.enum_name(e)
            } else {
                "?"
            }
        }
    }
}
