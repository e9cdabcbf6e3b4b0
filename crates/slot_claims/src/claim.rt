ghost use Rattle.std.specs.Prelude.{◌≡◌};
ghost use Rattle.repair_semantics.specs.Claims.{same_said};
ghost use Rattle.repair_semantics.specs.Images.{same_number};
ghost use Rattle.slot_claims.specs.ObjectClaims.{said_by};

use crate::held_value::{Element, is_same_element};
use mof_metamodel::PropId;
use object_tables::ObjId;

/// A place: the slot of an object at a property, or the container of an object.
#[derive(Clone, Copy)]
pub(crate) enum ObjectSpot {
    Slot(ObjId, PropId),
    Container(ObjId),
}

/// What stands at a place: an element of the slot, or the container with its property.
#[derive(Clone, Copy)]
pub(crate) enum ObjectSaid<'d> {
    Element(Element<'d>),
    Within(ObjId, PropId),
}

/// That something stands at a place.
#[derive(Clone, Copy)]
pub(crate) struct ObjectClaim<'d> {
    pub(crate) spot: ObjectSpot,
    pub(crate) said: ObjectSaid<'d>,
}

/// That an object has a value, or is linked to an object, at a property.
#[derive(Clone, Copy)]
pub(crate) struct ObjectFact<'d> {
    pub(crate) owner: ObjId,
    pub(crate) prop: PropId,
    pub(crate) holds: Element<'d>,
}

/// Whether the same stands at a place.
pub(crate) fn is_same_said(one: ObjectSaid<'_>, other: ObjectSaid<'_>) -> bool
    ensures { result ≡ same_said same_number (said_by one.entry) (said_by other.entry) }
{
    match (one, other) {
        (ObjectSaid::Element(e), ObjectSaid::Element(f)) => is_same_element(e, f),
        (ObjectSaid::Within(o, p), ObjectSaid::Within(a, q)) => o.0 == a.0 && p.0 == q.0,
        _ => false,
    }
}
