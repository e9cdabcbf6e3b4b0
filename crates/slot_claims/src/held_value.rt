ghost use Rattle.std.specs.Prelude.{◌≡◌, IfOk};
ghost use Rattle.repair_semantics.specs.Claims.{same_held};
ghost use Rattle.repair_semantics.specs.Images.{same_number};
ghost use Rattle.slot_claims.specs.HeldValues.{held_by, element_by};

use mof_metamodel::NoMemory;
use object_tables::ObjId;
use ocl_eval::{duplicate_datum, same_datum};
use qvtr_semantics::Datum;
use std::alloc::Global;

/// What a slot holds (MOF 2.5.1, Reflection): a datum, or an object by its number.
#[derive(Drop)]
pub enum HeldValue {
    Datum(Datum),
    Object(ObjId),
}

/// The same with a datum that is lent.
#[derive(Clone, Copy)]
pub(crate) enum Element<'d> {
    Datum(&'d Datum),
    Object(ObjId),
}

/// What a slot holds, lent.
pub(crate) fn lent(held: &HeldValue) -> Element<'_>
    ensures { element_by result ≡ held_by held.now }
{
    match held {
        HeldValue::Datum(datum) => Element::Datum(datum),
        HeldValue::Object(object) => Element::Object(*object),
    }
}

/// Another of the same element.
pub(crate) fn kept(alloc: Global, element: Element<'_>) -> Result<HeldValue, NoMemory>
    ensures { IfOk result (λ held. held_by held ≡ element_by element.entry) }
{
    match element {
        Element::Datum(datum) => Ok(HeldValue::Datum(duplicate_datum(alloc, datum)?)),
        Element::Object(object) => Ok(HeldValue::Object(object)),
    }
}

/// Whether two elements are one.
pub(crate) fn is_same_element(one: Element<'_>, other: Element<'_>) -> bool
    ensures { result ≡ same_held same_number (element_by one.entry) (element_by other.entry) }
{
    match (one, other) {
        (Element::Datum(d), Element::Datum(e)) => same_datum(d, e),
        (Element::Object(o), Element::Object(p)) => o.0 == p.0,
        _ => false,
    }
}
