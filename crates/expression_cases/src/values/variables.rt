//! Variables and their values.
use crate::values::editing::object_named;
use crate::values::reading::{Fault, typed};
use case_texts::Pen;
use expression_settings::{Refused, bind_variable, put_if_refused};
use mof_metamodel::{NoMemory, Seq, or_drop};
use ocl_environments::{Env, Metas};
use ocl_eval::{Models, eval};
use qv_syntax::Program;
use qvtr_semantics::{Binding, Datum, Out};
use std::alloc::Global;

/// What expressions are evaluated in.
#[derive(Clone, Copy)]
pub(crate) struct Stage<'a, 'm> {
    pub(crate) alloc: Global,
    pub(crate) metas: &'a Metas,
    pub(crate) program: &'a Program,
    pub(crate) models: &'a Models<'m>,
}

impl From<Fault> for Refused {
    fn from(_fault: Fault) -> Refused {
        Refused
    }
}

/// Binds the variables of a setting, and gives their values.
pub(crate) fn bound(
    pen: &mut Pen,
    stage: &Stage<'_, '_>,
    env: &mut Env<'_>,
    setting: &str,
) -> Result<Binding, NoMemory> {
    let mut values = Seq::new(stage.alloc);
    for line in setting.lines() {
        if let Some(text) = line.strip_prefix("variable ") {
            match variable(stage, env, text) {
                Ok(value) => or_drop!(values.push(Some(value)); values),
                Err(refused) => put_if_refused(pen, line, &Err(refused)),
            }
        }
    }
    Ok(Binding { values })
}

/// Binds the variable of a text `x : Integer = 1` or `x : M::Node in 0 = id`, and gives its value.
fn variable(stage: &Stage<'_, '_>, env: &mut Env<'_>, text: &str) -> Result<Datum, Refused> {
    let (name, rest) = text.split_once(" : ").ok_or(Refused)?;
    let (of, value) = rest.split_once(" = ").ok_or(Refused)?;
    let datum = value_of(stage, env, of, value)?;
    or_drop!(bind_variable(stage.alloc, stage.metas, env, name, of); datum);
    Ok(datum)
}

/// The value of a variable: the object of an identifier, or the value of an expression.
fn value_of(stage: &Stage<'_, '_>, env: &Env<'_>, of: &str, value: &str) -> Result<Datum, Refused> {
    match of.split_once(" in ") {
        Some((_, model)) => object(stage, model.parse().map_err(|_| Refused)?, value),
        None => datum(stage, env, value),
    }
}

fn object(stage: &Stage<'_, '_>, number: u32, id: &str) -> Result<Datum, Refused> {
    let model = stage.models.get(number as usize).ok_or(Refused)?;
    Ok(Datum::Obj(number, object_named(model, id)?))
}

/// The datum that is the value of an expression without variables.
fn datum(stage: &Stage<'_, '_>, env: &Env<'_>, text: &str) -> Result<Datum, Refused> {
    let typed = typed(stage.alloc, env, text)?;
    let none = Binding {
        values: Seq::new(stage.alloc),
    };
    let out = eval(stage.alloc, stage.program, &typed, stage.models, &none);
    drop(typed);
    drop(none);
    single(out?)
}

fn single(out: Out) -> Result<Datum, Refused> {
    match out {
        Out::One(datum) => Ok(datum),
        _ => Err(Refused),
    }
}
