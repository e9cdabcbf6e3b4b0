//! All values that the variables of a random script may have over small models: the objects, the values that
//! stand in slots, and those that the script writes.
use mof_metamodel::{NoMemory, PropId, Text};
use object_tables::{Model, ObjId, Value};
use ocl_eval::{Models, datum_order, held_at, same_datum};
use qv_syntax::Program;
use qvtr_semantics::Datum;
use std::alloc::Global;

/// The strings that random scripts write, and those that they make of these.
const STRINGS: [&str; 4] = ["a", "b", "c", "d"];

const SUFFIXED: [&str; 4] = ["ax", "bx", "cx", "dx"];

fn put_strings(alloc: Global, strings: &[&str], all: &mut Vec<Datum>) -> Result<(), NoMemory> {
    for string in strings {
        all.push(Datum::Val(0, Value::Str(Text::new(alloc, *string)?)))?;
    }
    Ok(())
}

fn put_integers(all: &mut Vec<Datum>) -> Result<(), NoMemory> {
    for number in 0..4i64 {
        all.push(Datum::Val(0, Value::Int(number)))?;
    }
    Ok(())
}

/// What random scripts write.
fn put_written(alloc: Global, has_suffixes: bool, all: &mut Vec<Datum>) -> Result<(), NoMemory> {
    put_strings(alloc, &STRINGS, all)?;
    if has_suffixes {
        put_strings(alloc, &SUFFIXED, all)?;
    }
    put_integers(all)?;
    all.push(Datum::Val(0, Value::Bool(false)))?;
    all.push(Datum::Val(0, Value::Bool(true)))?;
    Ok(())
}

/// The models of a program.
#[derive(Clone, Copy)]
struct Source<'a, 'm> {
    alloc: Global,
    program: &'a Program,
    models: &'a Models<'m>,
}

/// What stands at a property of an object.
fn put_slot(
    of: &Source<'_, '_>,
    object: &Datum,
    prop: PropId,
    all: &mut Vec<Datum>,
) -> Result<(), NoMemory> {
    if let Some(held) = held_at(of.alloc, of.program, of.models, object, prop)? {
        for datum in held.into_vec() {
            all.push(datum)?;
        }
    }
    Ok(())
}

/// An object, and what stands in its slots.
fn put_object(
    of: &Source<'_, '_>,
    number: u32,
    model: &Model<'_>,
    object: ObjId,
    all: &mut Vec<Datum>,
) -> Result<(), NoMemory> {
    all.push(Datum::Obj(number, object))?;
    if !model.is_live(object) {
        return Ok(());
    }
    for prop in model.meta().props(model.class_of(object)) {
        put_slot(of, &Datum::Obj(number, object), *prop, all)?;
    }
    Ok(())
}

fn put_model(
    of: &Source<'_, '_>,
    number: u32,
    model: &Model<'_>,
    all: &mut Vec<Datum>,
) -> Result<(), NoMemory> {
    for object in 0..model.end() {
        put_object(of, number, model, ObjId(object), all)?;
    }
    Ok(())
}

fn put_models(of: &Source<'_, '_>, all: &mut Vec<Datum>) -> Result<(), NoMemory> {
    let mut number = 0u32;
    for _slot in of.program.models.as_slice() {
        if let Some(model) = of.models.get(number as usize) {
            put_model(of, number, model, all)?;
        }
        number = number.saturating_add(1);
    }
    Ok(())
}

/// All values, each once, in order.
pub fn all_values(
    alloc: Global,
    program: &Program,
    models: &Models<'_>,
    has_suffixes: bool,
) -> Result<Vec<Datum>, NoMemory> {
    let mut all = Vec::new(alloc);
    let of = Source {
        alloc,
        program,
        models,
    };
    put_written(alloc, has_suffixes, &mut all)?;
    put_models(&of, &mut all)?;
    all.sort_unstable_by(|d, e| datum_order(d, e));
    all.dedup_by(|later, kept| same_datum(later, kept));
    Ok(all)
}
