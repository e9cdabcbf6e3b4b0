ghost use Rattle.std.specs.Prelude.{◌≡◌, map, IfOk};
ghost use Rattle.object_tables.specs.Models.{IsReferenceOf, partners_at};
ghost use Rattle.qvtr_semantics.specs.Objects.{value_datum};
ghost use Rattle.repair_semantics.specs.Claims.{Held};
ghost use Rattle.repair_semantics.specs.Images.{held_in};
ghost use Rattle.repair_semantics.specs.TargetItems.{target_meta_number};
ghost use Rattle.slot_claims.specs.HeldValues.{held_by};

use crate::held_value::HeldValue;
use mof_metamodel::{NoMemory, PropId, Seq};
use object_tables::{Model, ObjId, Value};
use qv_syntax::Program;
use qvtr_semantics::Datum;
use std::alloc::Global;

/// The number of the target's metamodel.
fn target_meta_number(program: &Program) -> u32
    ensures { result ≡ target_meta_number program.now }
{
    match program.models.as_slice().get(program.target as usize) {
        Some(slot) => slot.meta,
        None => 0,
    }
}

/// A value of a data type as a datum: a literal goes with the number of its metamodel.
fn value_datum(alloc: Global, meta: u32, value: &Value) -> Result<Datum, NoMemory>
    ensures { IfOk result (λ d. d ≡ value_datum meta value.now) }
{
    let of = match value {
        Value::Lit(..) => meta,
        _ => 0,
    };
    Ok(Datum::Val(of, value.duplicate(alloc)?))
}

/// The values of an attribute.
fn attribute_elements(
    alloc: Global,
    meta: u32,
    values: &[Value],
) -> Result<Seq<HeldValue>, NoMemory>
    ensures { IfOk result (λ found. map held_by found ≡ map (λ v. Held.datum (value_datum meta v)) values.now) }
{
    let mut found = Seq::new(alloc);
    for value in values {
        found.push(HeldValue::Datum(value_datum(alloc, meta, value)?))?;
    }
    Ok(found)
}

/// The partners of an object at a reference.
fn reference_elements(
    alloc: Global,
    target: &Model<'_>,
    o: ObjId,
    p: PropId,
) -> Result<Seq<HeldValue>, NoMemory>
    requires { IsReferenceOf target.now o.0 p.0 }
    ensures { IfOk result (λ found. map held_by found ≡ map (λ b. Held.object b) (partners_at target.now o.0 p.0)) }
{
    let mut found = Seq::new(alloc);
    for partner in target.partners(o, p) {
        found.push(HeldValue::Object(partner))?;
    }
    Ok(found)
}

/// What a slot of the target holds; nothing, where the object isn't live or its class doesn't have the property.
pub(crate) fn old_elements(
    alloc: Global,
    program: &Program,
    target: &Model<'_>,
    o: ObjId,
    p: PropId,
) -> Result<Seq<HeldValue>, NoMemory>
    ensures { IfOk result (λ found. map held_by found ≡ held_in program.now target.now o.0 p.0) }
{
    if target.has_reference(o, p) {
        reference_elements(alloc, target, o, p)
    } else if target.has_attribute(o, p) {
        attribute_elements(alloc, target_meta_number(program), target.attr(o, p))
    } else {
        // What every model keeps is known here.
        let _ = target.end();
        Ok(Seq::new(alloc))
    }
}
