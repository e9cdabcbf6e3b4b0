//! The images of terms.
use crate::told::Told;
use demand_set::DemandSet;
use mof_metamodel::{ClassId, NoMemory, PropId};
use object_tables::ObjId;
use ocl_eval::{held_at, is_of_class, same_datum};
use qvtr_semantics::Datum;
use term_table::{NumberedTerm, NumberedValue};

/// Whether the object has the datum, or the object, at the property.
fn has(told: &Told<'_, '_>, object: u32, prop: PropId, sought: &Datum) -> Result<bool, NoMemory> {
    let object = Datum::Obj(told.program.target, ObjId(object));
    match held_at(told.alloc, told.program, told.models, &object, prop)? {
        Some(held) => Ok(held.as_slice().iter().any(|one| same_datum(one, sought))),
        None => Ok(false),
    }
}

/// Whether it has the key value, a term by its image.
fn has_value(
    told: &Told<'_, '_>,
    images: &[Option<u32>],
    object: u32,
    prop: PropId,
    value: &NumberedValue,
) -> Result<bool, NoMemory> {
    match value {
        NumberedValue::Val(datum) => has(told, object, prop, datum),
        NumberedValue::Term(number) => match images.get(*number) {
            Some(Some(image)) => {
                let image = Datum::Obj(told.program.target, ObjId(*image));
                has(told, object, prop, &image)
            }
            _ => Ok(false),
        },
    }
}

/// Whether it has all key values.
fn has_key(
    told: &Told<'_, '_>,
    images: &[Option<u32>],
    object: u32,
    term: &NumberedTerm,
) -> Result<bool, NoMemory> {
    let props = told.key(term.class);
    for (i, value) in term.keys.as_slice().iter().enumerate() {
        match props.get(i) {
            Some(prop) if has_value(told, images, object, *prop, value)? => {}
            _ => return Ok(false),
        }
    }
    Ok(true)
}

fn is_of(told: &Told<'_, '_>, object: u32, class: ClassId) -> bool {
    let object = Datum::Obj(told.program.target, ObjId(object));
    is_of_class(told.models, class, &object)
}

/// The image of a term, by those of the terms in its key.
fn image_of(
    told: &Told<'_, '_>,
    images: &[Option<u32>],
    end: u32,
    term: &NumberedTerm,
) -> Result<Option<u32>, NoMemory> {
    for object in 0..end {
        if is_of(told, object, term.class) && has_key(told, images, object, term)? {
            return Ok(Some(object));
        }
    }
    Ok(None)
}

/// The images of all terms by their numbers.
pub fn images_of(
    told: &Told<'_, '_>,
    demands: &DemandSet,
    end: u32,
) -> Result<Vec<Option<u32>>, NoMemory> {
    let table = demands.numbered().table;
    let mut images = Vec::new(told.alloc);
    for number in 0..table.len() {
        let image = image_of(told, images.as_slice(), end, table.at(number))?;
        images.push(image)?;
    }
    Ok(images)
}
