//! Variables and queries in reach.
use crate::refused::Refused;
use crate::type_names::type_named;
use mof_metamodel::{NoMemory, Seq, Text, or_drop};
use ocl_environments::{Env, Metas};
use qv_syntax::Ty;
use std::alloc::Global;

/// Brings a variable into reach, with a type as `Integer`, or as `M::Node in 0` for the objects of the model of a number.
pub fn bind_variable(
    alloc: Global,
    metas: &Metas,
    env: &mut Env<'_>,
    name: &str,
    of: &str,
) -> Result<(), Refused> {
    let name = Text::new(alloc, name)?;
    match of.split_once(" in ") {
        Some((class, model)) => {
            let class = or_drop!(type_named(alloc, metas, class); name);
            let model = or_drop!(model.parse::<u32>().map_err(|_| Refused); class, name);
            bind_object(env, name, class, model)
        }
        None => {
            let ty = or_drop!(type_named(alloc, metas, of); name);
            bind(env, name, ty)
        }
    }
}

fn bind(env: &mut Env<'_>, name: Text, ty: Ty) -> Result<(), Refused> {
    if env.is_bound(&name) || !env.is_type(&ty) {
        drop(name);
        drop(ty);
        return Err(Refused);
    }
    env.bind(name, ty)?;
    Ok(())
}

fn bind_object(env: &mut Env<'_>, name: Text, class: Ty, model: u32) -> Result<(), Refused> {
    if env.is_bound(&name) || !env.is_object_type(&class, model) {
        drop(name);
        drop(class);
        return Err(Refused);
    }
    env.bind_object(name, class, model)?;
    Ok(())
}

/// The types of parameters, as `x : Integer, y : M::Node` or without their names.
pub fn param_types(alloc: Global, metas: &Metas, text: &str) -> Result<Seq<Ty>, Refused> {
    let mut types = Seq::new(alloc);
    if text.is_empty() {
        return Ok(types);
    }
    for param in text.split(", ") {
        let (_, ty) = param.split_once(" : ").unwrap_or(("", param));
        let ty = or_drop!(type_named(alloc, metas, ty); types);
        or_drop!(types.push(ty); types);
    }
    Ok(types)
}

/// Brings the query of a text `q(Integer, M::Node) : Set(M::Node)` into reach. Its parameters may have names, as `x : Integer`.
pub fn bind_query(
    alloc: Global,
    metas: &Metas,
    env: &mut Env<'_>,
    text: &str,
) -> Result<(), Refused> {
    let (name, rest) = text.split_once('(').ok_or(Refused)?;
    let (params, gives) = rest.split_once(") : ").ok_or(Refused)?;
    let name = Text::new(alloc, name)?;
    let params = or_drop!(param_types(alloc, metas, params); name);
    let gives = or_drop!(type_named(alloc, metas, gives); name, params);
    declare_query(env, name, params, gives)
}

fn declare_query(env: &mut Env<'_>, name: Text, params: Seq<Ty>, gives: Ty) -> Result<(), Refused> {
    if env.is_query(&name) || !env.are_types(params.as_slice()) || !env.is_type(&gives) {
        drop(name);
        drop(params);
        drop(gives);
        return Err(Refused);
    }
    env.bind_query(name, params, gives)?;
    Ok(())
}
