//! Types by their names.
use crate::refused::Refused;
use crate::words::kind_named;
use mof_metamodel::{Boxed, ClassId, EnumId, MetaModel, NoMemory, or_drop};
use ocl_environments::Metas;
use qv_syntax::{Kind, Ty};
use std::alloc::Global;

/// The number of a metamodel, by its name.
pub fn meta_named(metas: &Metas, name: &str) -> Option<u32> {
    for i in 0..metas.len() {
        if metas.get(i).name() == name {
            return Some(i);
        }
    }
    None
}

/// The class or the enumeration of a name in a metamodel.
fn classifier(meta: &MetaModel, number: u32, name: &str) -> Option<Ty> {
    match meta.class_named(name) {
        Some(class) => Some(Ty::Class(number, class)),
        None => match meta.enum_named(name) {
            Some(enumeration) => Some(Ty::Enum(number, enumeration)),
            None => None,
        },
    }
}

/// The class or the enumeration that a path names, as `M::Node`.
fn type_of_path(metas: &Metas, path: &str) -> Option<Ty> {
    let (meta, name) = path.split_once("::")?;
    let number = meta_named(metas, meta)?;
    if number < metas.len() {
        classifier(metas.get(number), number, name)
    } else {
        None
    }
}

/// The class or the enumeration of these numbers, as `2 0`.
fn numbers(text: &str) -> Option<(u32, u32)> {
    let (meta, number) = text.split_once(' ')?;
    match (meta.parse(), number.parse()) {
        (Ok(meta), Ok(number)) => Some((meta, number)),
        _ => None,
    }
}

/// The type of a single value.
fn single_type(metas: &Metas, text: &str) -> Option<Ty> {
    match text {
        "String" => Some(Ty::Str),
        "Integer" => Some(Ty::Int),
        "Boolean" => Some(Ty::Bool),
        "Null" => Some(Ty::Null),
        _ => match text.split_once(' ') {
            Some(("class", rest)) => numbers(rest).map(|(m, c)| Ty::Class(m, ClassId(c))),
            Some(("enum", rest)) => numbers(rest).map(|(m, e)| Ty::Enum(m, EnumId(e))),
            _ => type_of_path(metas, text),
        },
    }
}

/// The collection of this kind.
fn collection(alloc: Global, kind: Kind, of: Ty) -> Result<Ty, NoMemory> {
    let of = Boxed::new(alloc, of)?;
    Ok(Ty::Coll(kind, of))
}

/// The type that a text names: `Integer`, `M::Node`, `Set(M::Node)`, or by numbers `class 2 0`.
pub fn type_named(alloc: Global, metas: &Metas, text: &str) -> Result<Ty, Refused> {
    let open = text.trim_end_matches(')');
    let (kinds, of) = open.rsplit_once('(').unwrap_or(("", open));
    let mut ty = single_type(metas, of).ok_or(Refused)?;
    if kinds.is_empty() {
        return Ok(ty);
    }
    for kind in kinds.rsplit('(') {
        let kind = or_drop!(kind_named(kind).ok_or(Refused); ty);
        ty = collection(alloc, kind, ty)?;
    }
    Ok(ty)
}
