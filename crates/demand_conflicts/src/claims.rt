ghost use Rattle.std.specs.Prelude.{◌≡◌, nat_eq};
ghost use Rattle.repair_semantics.specs.Claims.{same_said};
ghost use Rattle.demand_conflicts.specs.NumberedClaims.{said_by};

use ocl_eval::same_datum;
use qvtr_semantics::Datum;

/// A place: the slot of an object at a property, or the container of an object. The order is for look-ups.
#[derive(Clone, Copy, PartialEq, Eq, PartialOrd, Ord)]
pub(crate) enum NumberedSpot {
    Slot(usize, u32),
    Container(usize),
}

/// What stands at a place: a datum or an object, or the container with its property.
#[derive(Clone, Copy)]
pub(crate) enum NumberedSaid<'a> {
    Datum(&'a Datum),
    Object(usize),
    Within(usize, u32),
}

/// That something stands at a place.
#[derive(Clone, Copy)]
pub(crate) struct NumberedClaim<'a> {
    pub(crate) spot: NumberedSpot,
    pub(crate) said: NumberedSaid<'a>,
}

/// Whether the same stands at a place.
pub(crate) fn is_same_said(one: NumberedSaid<'_>, other: NumberedSaid<'_>) -> bool
    ensures { result ≡ same_said nat_eq (said_by one.entry) (said_by other.entry) }
{
    match (one, other) {
        (NumberedSaid::Datum(d), NumberedSaid::Datum(e)) => same_datum(d, e),
        (NumberedSaid::Object(m), NumberedSaid::Object(n)) => m == n,
        (NumberedSaid::Within(m, p), NumberedSaid::Within(n, q)) => m == n && p == q,
        _ => false,
    }
}
