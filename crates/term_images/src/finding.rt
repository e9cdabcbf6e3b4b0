ghost use Rattle.std.specs.Prelude.{◌≡◌, map, option_map, None, slice_index_or, IfOk, OnOk};
ghost use Rattle.repair_semantics.specs.Images.{image};
ghost use Rattle.term_images.specs.ClassIndexes.{number_of, AreIndexes};
ghost use Rattle.term_images.specs.FoundImages.{image_numbers, key_image, key_images, image_by};

use crate::class_index::{ClassIndex, add_index, object_holding};
use crate::target::Target;
use mof_metamodel::{NoMemory, Seq};
use object_tables::{Model, ObjId};
use ocl_eval::duplicate_datum;
use qv_syntax::Program;
use std::alloc::Global;
use std::collections::BTreeMap;
use term_table::{NumberedTerm, NumberedValue, TermTable};

/// The image of a term, by its number.
fn image_at(found: &[Option<ObjId>], number: usize) -> Option<ObjId>
    ensures { result ≡ slice_index_or found.now number None }
{
    match found.get(number) {
        Some(image) => *image,
        None => None,
    }
}

/// A key value with the image of its term, if it is a datum or has one.
fn key_image(
    alloc: Global,
    found: &[Option<ObjId>],
    value: &NumberedValue,
) -> Result<Option<NumberedValue>, NoMemory>
    ensures { IfOk result (λ one. one ≡ key_image found.now value.now) }
{
    match value {
        NumberedValue::Val(datum) => {
            let datum = duplicate_datum(alloc, datum)?;
            Ok(Some(NumberedValue::Val(datum)))
        }
        NumberedValue::Term(number) => match image_at(found, *number) {
            Some(object) => Ok(Some(NumberedValue::Term(object.0 as usize))),
            None => Ok(None),
        },
    }
}

/// The key values with the images of their terms, if each term has one.
fn key_images(
    alloc: Global,
    found: &[Option<ObjId>],
    keys: &[NumberedValue],
) -> Result<Option<Seq<NumberedValue>>, NoMemory>
    ensures { IfOk result (λ values. values ≡ key_images found.now keys.now) }
{
    let mut values = Seq::new(alloc);
    for key in keys {
        match key_image(alloc, found, key)? {
            Some(value) => values.push(value)?,
            None => return Ok(None),
        }
    }
    Ok(Some(values))
}

/// The image of a term by those of its key values.
fn term_image(
    target: &Target<'_, '_>,
    indexes: &mut BTreeMap<u32, ClassIndex>,
    found: &[Option<ObjId>],
    term: &NumberedTerm,
) -> Result<Option<ObjId>, NoMemory>
    requires { AreIndexes target.now.program.now target.now.model.now indexes.old }
    ensures all { OnOk result (AreIndexes target.now.program.now target.now.model.now indexes.new) }
    ensures image { IfOk result (λ one. option_map number_of one ≡ image_by target.now.program.now target.now.model.now found.now term.now) }
{
    add_index(target, indexes, term.class)?;
    match key_images(target.alloc, found, term.keys.as_slice())? {
        Some(values) => match indexes.get(&term.class.0) {
            Some(index) => object_holding(target, index, term.class, values),
            None => unreachable!(),
        },
        None => Ok(None),
    }
}

/// The image of each term of a table in the target, by the terms' numbers (QVT 1.3, section 7.10.2): the object of least number that
/// conforms to the term's class and holds its key values, terms among these read by their own images. It takes a pass over the objects for
/// each class of a term, and for each term the logarithm of their number.
pub fn images(
    alloc: Global,
    program: &Program,
    target: &Model<'_>,
    table: &TermTable,
) -> Result<Seq<Option<ObjId>>, NoMemory>
    ensures { IfOk result (λ found. image_numbers found ≡ map (image program.now target.now) table.now) }
{
    let target = Target {
        alloc,
        program,
        model: target,
    };
    let mut indexes = BTreeMap::new(alloc);
    let mut found = Seq::new(alloc);
    for number in 0..table.len() {
        let image = term_image(&target, &mut indexes, found.as_slice(), table.at(number))?;
        found.push(image)?;
    }
    Ok(found)
}
