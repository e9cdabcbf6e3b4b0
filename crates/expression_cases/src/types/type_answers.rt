//! Answers on types by their names.
use crate::types::words::yes_or_no;
use case_texts::Pen;
use expression_settings::{Refused, meta_named, put_type_fault, type_named};
use mof_metamodel::{NoMemory, Seq, Span, Text, or_drop};
use ocl_environments::{Env, Metas, type_text, written_type};
use qv_syntax::{Literal, Name, Path, Ty, TypeTree, Values};
use std::alloc::Global;
use std::str;

/// A path of the names that `::` parts.
fn path(alloc: Global, text: &str) -> Result<Path, NoMemory> {
    let span = Span { start: 0, end: 0 };
    let mut names = Seq::new(alloc);
    for name in text.split("::") {
        let text = or_drop!(Text::new(alloc, name); names);
        or_drop!(names.push(Name { text, span }); names);
    }
    Ok(Path { names, span })
}

/// The type that a path names as a written type.
pub(crate) fn put_path(alloc: Global, pen: &mut Pen, metas: &Metas, env: &Env<'_>, text: &str) {
    match path(alloc, text) {
        Ok(path) => {
            let tree = TypeTree::Named { path };
            put_written(alloc, pen, metas, env, &tree);
            drop(tree);
        }
        Err(_) => pen.put("no memory"),
    }
}

fn put_written(alloc: Global, pen: &mut Pen, metas: &Metas, env: &Env<'_>, tree: &TypeTree) {
    match written_type(alloc, env, tree) {
        Ok(ty) => put_named(alloc, pen, metas, ty),
        Err(error) => {
            put_type_fault(pen, &error);
            drop(error);
        }
    }
}

fn put_named(alloc: Global, pen: &mut Pen, metas: &Metas, ty: Ty) {
    let text = type_text(alloc, metas, &ty);
    drop(ty);
    pen.put_text(text);
}

/// A type as it is printed.
pub(crate) fn put_type_text(alloc: Global, pen: &mut Pen, metas: &Metas, text: &str) {
    match type_named(alloc, metas, text) {
        Ok(ty) => put_named(alloc, pen, metas, ty),
        Err(_) => pen.put("refused"),
    }
}

/// The two types that a text names, with `, ` between them.
fn two_types(alloc: Global, metas: &Metas, text: &str) -> Result<(Ty, Ty), Refused> {
    let (one, other) = text.split_once(", ").ok_or(Refused)?;
    let one = type_named(alloc, metas, one)?;
    let other = or_drop!(type_named(alloc, metas, other); one);
    Ok((one, other))
}

/// Whether two types are one.
pub(crate) fn put_same(alloc: Global, pen: &mut Pen, metas: &Metas, text: &str) {
    match two_types(alloc, metas, text) {
        Ok((a, b)) => {
            pen.put(yes_or_no(a.same(&b)));
            drop(a);
            drop(b);
        }
        Err(_) => pen.put("refused"),
    }
}

/// Whether a type conforms to another.
pub(crate) fn put_conforms(alloc: Global, pen: &mut Pen, metas: &Metas, text: &str) {
    match two_types(alloc, metas, text) {
        Ok((a, b)) => {
            pen.put(yes_or_no(metas.conforms(&a, &b)));
            drop(a);
            drop(b);
        }
        Err(_) => pen.put("refused"),
    }
}

/// That of two types to which both conform.
pub(crate) fn put_upper(alloc: Global, pen: &mut Pen, metas: &Metas, text: &str) {
    match two_types(alloc, metas, text) {
        Ok((a, b)) => {
            put_upper_of(alloc, pen, metas, &a, &b);
            drop(a);
            drop(b);
        }
        Err(_) => pen.put("refused"),
    }
}

fn put_upper_of(alloc: Global, pen: &mut Pen, metas: &Metas, a: &Ty, b: &Ty) {
    match metas.upper_type(alloc, a, b) {
        Ok(Some(ty)) => put_named(alloc, pen, metas, ty),
        Ok(None) => pen.put("none"),
        Err(_) => pen.put("no memory"),
    }
}

/// What navigation to the property of a text `M::C.name` gives.
fn values_named(metas: &Metas, text: &str) -> Option<Values> {
    let (class, name) = text.split_once('.')?;
    let (meta, class) = class.split_once("::")?;
    let number = meta_named(metas, meta)?;
    if number >= metas.len() {
        return None;
    }
    let meta = metas.get(number);
    let class = meta.class_named(class)?;
    let prop = meta.prop_of(class, name)?;
    Some(metas.values(number, prop))
}

/// What navigation to a property gives.
pub(crate) fn put_values(pen: &mut Pen, metas: &Metas, text: &str) {
    match values_named(metas, text) {
        Some(Values::Single) => pen.put("Single"),
        Some(Values::Set) => pen.put("Set"),
        Some(Values::OrderedSet) => pen.put("OrderedSet"),
        None => pen.put("none"),
    }
}

/// Whether a text may be the value of a String.
pub(crate) fn put_storable(alloc: Global, pen: &mut Pen, bytes: &[u8]) {
    match str::from_utf8(bytes) {
        Ok(text) => pen.put(yes_or_no(is_literal(alloc, text))),
        Err(_) => pen.put("no text"),
    }
}

/// Whether a literal can be made of a text, and is copied with it.
fn is_literal(alloc: Global, text: &str) -> bool {
    match Text::new(alloc, text) {
        Ok(text) => Literal::new(text).is_some(),
        Err(_) => false,
    }
}
