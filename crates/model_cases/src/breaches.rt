use crate::objects::{id_of, prop_name};
use case_texts::Pen;
use mof_metamodel::NoMemory;
use object_tables::{Breach, Model, ObjId};
use std::alloc::Global;

/// The greatest number of objects of which what takes the square of their number is looked at.
pub(crate) const FEW: u32 = 1_000;

/// Prints the first breach of a model, as `Lower c.name` or `ContainmentCycle c`, or `valid`. In a small
/// model both calls that find it are compared.
pub(crate) fn print_first_breach(
    alloc: Global,
    pen: &mut Pen,
    model: &Model<'_>,
) -> Result<(), NoMemory> {
    let found = model.first_breach(alloc)?;
    if model.end() <= FEW && model.validity() != found {
        pen.put("validity answers otherwise");
    } else {
        match found {
            Some(breach) => print_breach(pen, model, breach),
            None => pen.put("valid"),
        }
    }
    Ok(())
}

fn print_breach(pen: &mut Pen, model: &Model<'_>, breach: Breach) {
    pen.put(breach.kind.word());
    pen.put(" ");
    pen.put(id_of(model, breach.object));
    if let Some(p) = breach.prop {
        pen.put(".");
        pen.put(prop_name(model, breach.object, p));
    }
}

/// Prints the depth of an object, where containment has no cycle.
pub(crate) fn print_depth(
    alloc: Global,
    pen: &mut Pen,
    model: &Model<'_>,
    o: ObjId,
) -> Result<(), NoMemory> {
    if !model.is_live(o) {
        pen.put("unknown");
        return Ok(());
    }
    match model.find_cycle(alloc)? {
        Some(_) => pen.put("unknown"),
        None => {
            let depth = model.depth(o);
            pen.put_string(format!(in alloc; "{depth}"));
        }
    }
    Ok(())
}

/// Prints the greatest depth of an object, where containment has no cycle.
pub(crate) fn print_greatest_depth(
    alloc: Global,
    pen: &mut Pen,
    model: &Model<'_>,
) -> Result<(), NoMemory> {
    match model.find_cycle(alloc)? {
        Some(_) => pen.put("unknown"),
        None => {
            let depth = model.greatest_depth(alloc)?;
            pen.put_string(format!(in alloc; "{depth}"));
        }
    }
    Ok(())
}

/// Prints the least object on a cycle of containers, and in a small model as both calls find it.
pub(crate) fn print_cycle(alloc: Global, pen: &mut Pen, model: &Model<'_>) -> Result<(), NoMemory> {
    let found = model.find_cycle(alloc)?;
    if model.end() <= FEW && model.least_on_cycle() != found {
        pen.put("least_on_cycle answers otherwise");
    } else {
        match found {
            Some(o) => pen.put(id_of(model, o)),
            None => pen.put("none"),
        }
    }
    Ok(())
}
