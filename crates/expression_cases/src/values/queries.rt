//! Queries.
use crate::values::reading::typed;
use case_texts::Pen;
use expression_settings::{
    Refused, bind_query, bind_variable, over_models, param_types, put_if_refused, slots, type_named,
};
use mof_metamodel::{NoMemory, Seq, Text, or_drop};
use ocl_environments::{Env, Metas};
use qv_syntax::{Query, Typed};
use std::alloc::Global;

/// The head of a query as it is written, and its body.
#[derive(Clone, Copy)]
struct Written<'t> {
    name: &'t str,
    params: &'t str,
    result: &'t str,
    body: &'t str,
}

/// The parts of a text `q(x : Integer, y : M::Node) : Integer = x`.
fn parts_of(text: &str) -> Option<Written<'_>> {
    let (name, rest) = text.split_once('(')?;
    let (params, rest) = rest.split_once(") : ")?;
    let (result, body) = rest.split_once(" = ")?;
    Some(Written {
        name,
        params,
        result,
        body,
    })
}

/// Brings the queries of a setting into reach.
fn bind_queries(alloc: Global, pen: &mut Pen, metas: &Metas, env: &mut Env<'_>, setting: &str) {
    for line in setting.lines() {
        if let Some(text) = line.strip_prefix("query ") {
            let (head, _) = text.split_once(" = ").unwrap_or((text, ""));
            let made = bind_query(alloc, metas, env, head);
            put_if_refused(pen, line, &made);
        }
    }
}

/// The queries of a setting with their bodies.
pub(crate) fn queries(
    alloc: Global,
    pen: &mut Pen,
    metas: &Metas,
    setting: &str,
) -> Result<Seq<Query>, NoMemory> {
    let mut queries = Seq::new(alloc);
    for line in setting.lines() {
        if let Some(text) = line.strip_prefix("query ") {
            match query(alloc, pen, metas, setting, text) {
                Ok(query) => or_drop!(queries.push(query); queries),
                Err(refused) => put_if_refused(pen, line, &Err(refused)),
            }
        }
    }
    Ok(queries)
}

/// The body of a query, typed with its parameters in reach.
fn body_in(
    alloc: Global,
    metas: &Metas,
    env: &mut Env<'_>,
    written: Written<'_>,
) -> Result<Typed, Refused> {
    bind_params(alloc, metas, env, written.params)?;
    Ok(typed(alloc, env, written.body)?)
}

/// What is in reach of the bodies of all queries: models and queries.
pub(crate) fn reach<'m>(
    alloc: Global,
    pen: &mut Pen,
    metas: &'m Metas,
    setting: &str,
) -> Result<Env<'m>, NoMemory> {
    let slots = slots(alloc, pen, metas, setting)?;
    let mut env = over_models(alloc, metas, slots)?;
    bind_queries(alloc, pen, metas, &mut env, setting);
    Ok(env)
}

fn body(
    alloc: Global,
    pen: &mut Pen,
    metas: &Metas,
    setting: &str,
    written: Written<'_>,
) -> Result<Typed, Refused> {
    let mut env = reach(alloc, pen, metas, setting)?;
    let body = body_in(alloc, metas, &mut env, written);
    drop(env);
    body
}

/// The query as it is written, with this body.
fn with_body(
    alloc: Global,
    metas: &Metas,
    written: Written<'_>,
    body: Typed,
) -> Result<Query, Refused> {
    let name = or_drop!(Text::new(alloc, written.name); body);
    let params = or_drop!(param_types(alloc, metas, written.params); name, body);
    let result = or_drop!(type_named(alloc, metas, written.result); name, params, body);
    Ok(Query {
        name,
        params,
        result,
        body,
    })
}

fn query(
    alloc: Global,
    pen: &mut Pen,
    metas: &Metas,
    setting: &str,
    text: &str,
) -> Result<Query, Refused> {
    let written = parts_of(text).ok_or(Refused)?;
    let body = body(alloc, pen, metas, setting, written)?;
    with_body(alloc, metas, written, body)
}

fn bind_params(
    alloc: Global,
    metas: &Metas,
    env: &mut Env<'_>,
    params: &str,
) -> Result<(), Refused> {
    for param in params.split(", ") {
        if let Some((name, ty)) = param.split_once(" : ") {
            bind_variable(alloc, metas, env, name, ty)?;
        }
    }
    Ok(())
}
