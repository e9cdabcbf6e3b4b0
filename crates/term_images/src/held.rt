ghost use Rattle.std.specs.Prelude.{◌≡◌, map, IfOk};
ghost use Rattle.object_tables.specs.Models.{IsReferenceOf, partners_at};
ghost use Rattle.qvtr_semantics.specs.Objects.{value_datum};
ghost use Rattle.repair_semantics.specs.TargetItems.{target_meta_number};
ghost use Rattle.repair_semantics.specs.Images.{held_in};
ghost use Rattle.term_images.specs.KeyReadings.{as_held, read_values, read_partners};

use crate::target::Target;
use mof_metamodel::{NoMemory, PropId, Seq};
use object_tables::{Model, ObjId, Value};
use qv_syntax::Program;
use qvtr_semantics::Datum;
use std::alloc::Global;
use term_table::NumberedValue;

/// The number of the metamodel of the target model.
pub(crate) fn target_meta_number(program: &Program) -> u32
    ensures { result ≡ target_meta_number program.now }
{
    match program.models.as_slice().get(program.target as usize) {
        Some(slot) => slot.meta,
        None => 0,
    }
}

/// A value of a data type as a datum: a literal goes with the number of its metamodel.
fn value_datum(alloc: Global, meta: u32, value: &Value) -> Result<Datum, NoMemory>
    ensures { IfOk result (λ d. d ≡ value_datum meta value.now) }
{
    let of = match value {
        Value::Lit(..) => meta,
        _ => 0,
    };
    Ok(Datum::Val(of, value.duplicate(alloc)?))
}

/// The values of an attribute.
fn read_values(alloc: Global, meta: u32, values: &[Value]) -> Result<Seq<NumberedValue>, NoMemory>
    ensures { IfOk result (λ read. read ≡ read_values meta values.now) }
{
    let mut read = Seq::new(alloc);
    for value in values {
        read.push(NumberedValue::Val(value_datum(alloc, meta, value)?))?;
    }
    Ok(read)
}

/// The partners of an object at a reference, by their numbers.
fn read_partners(
    alloc: Global,
    model: &Model<'_>,
    object: ObjId,
    prop: PropId,
) -> Result<Seq<NumberedValue>, NoMemory>
    requires { IsReferenceOf model.now object.0 prop.0 }
    ensures { IfOk result (λ read. read ≡ read_partners (partners_at model.now object.0 prop.0)) }
{
    let mut read = Seq::new(alloc);
    for partner in model.partners(object, prop) {
        read.push(NumberedValue::Term(partner.0 as usize))?;
    }
    Ok(read)
}

/// What an object has at a property: its values, or its partners by their numbers; nothing, if its class doesn't have the property.
pub(crate) fn held_at(
    target: &Target<'_, '_>,
    object: ObjId,
    prop: PropId,
) -> Result<Seq<NumberedValue>, NoMemory>
    ensures { IfOk result (λ held. map as_held held ≡ held_in target.now.program.now target.now.model.now object.0 prop.0) }
{
    let _ = target.model.end(); // says that an object has no slots but those of its class
    if target.model.has_reference(object, prop) {
        read_partners(target.alloc, target.model, object, prop)
    } else if target.model.has_attribute(object, prop) {
        let meta = target_meta_number(target.program);
        read_values(target.alloc, meta, target.model.attr(object, prop))
    } else {
        Ok(Seq::new(target.alloc))
    }
}
