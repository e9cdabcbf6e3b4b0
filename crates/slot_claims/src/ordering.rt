ghost use Rattle.std.specs.Prelude.{◌≡◌, map};
ghost use Rattle.std.specs.List.{dedup};
ghost use Rattle.std.specs.List.Sorted.{IsPermutation, IsSorted};
ghost use Rattle.std.specs.Ordering.{eq_by_cmp};
ghost use Rattle.template_match.specs.Each.{IsEachOnce};
ghost use Rattle.repair_semantics.specs.Candidates.{held_order};
ghost use Rattle.slot_claims.specs.HeldValues.{element_by};
ghost use Rattle.slot_claims.specs.ObjectClaims.{spot_by, said_by, claim_by};
ghost use Rattle.slot_claims.specs.ClaimOrder.{spot_order, said_order, claim_order, object_claim_order};

use crate::claim::{ObjectClaim, ObjectSaid, ObjectSpot};
use crate::held_value::Element;
use ocl_eval::datum_order;
use std::cmp::Ordering;

/// How two elements of a slot stand: data in the order of values, and behind them objects by number.
pub(crate) fn element_order(one: Element<'_>, other: Element<'_>) -> Ordering
    ensures { result ≡ held_order (element_by one.entry) (element_by other.entry) }
{
    match (one, other) {
        (Element::Datum(d), Element::Datum(e)) => datum_order(d, e),
        (Element::Datum(_), Element::Object(_)) => Ordering::Less,
        (Element::Object(_), Element::Datum(_)) => Ordering::Greater,
        (Element::Object(o), Element::Object(p)) => o.0.cmp(&p.0),
    }
}

/// How two places stand.
pub(crate) fn spot_order(one: ObjectSpot, other: ObjectSpot) -> Ordering
    ensures { result ≡ spot_order (spot_by one) (spot_by other) }
{
    match (one, other) {
        (ObjectSpot::Slot(o, p), ObjectSpot::Slot(a, q)) => o.0.cmp(&a.0).then(p.0.cmp(&q.0)),
        (ObjectSpot::Slot(..), ObjectSpot::Container(_)) => Ordering::Less,
        (ObjectSpot::Container(_), ObjectSpot::Slot(..)) => Ordering::Greater,
        (ObjectSpot::Container(o), ObjectSpot::Container(a)) => o.0.cmp(&a.0),
    }
}

/// How what is said of two places stands.
fn said_order(one: ObjectSaid<'_>, other: ObjectSaid<'_>) -> Ordering
    ensures { result ≡ said_order (said_by one.entry) (said_by other.entry) }
{
    match (one, other) {
        (ObjectSaid::Element(e), ObjectSaid::Element(f)) => element_order(e, f),
        (ObjectSaid::Element(_), ObjectSaid::Within(..)) => Ordering::Less,
        (ObjectSaid::Within(..), ObjectSaid::Element(_)) => Ordering::Greater,
        (ObjectSaid::Within(o, p), ObjectSaid::Within(a, q)) => {
            o.0.cmp(&a.0).then(p.0.cmp(&q.0))
        }
    }
}

/// How two claims stand.
fn claim_order(one: &ObjectClaim<'_>, other: &ObjectClaim<'_>) -> Ordering
    ensures { result ≡ claim_order (claim_by one.now) (claim_by other.now) }
{
    let said = said_order(one.said, other.said);
    spot_order(one.spot, other.spot).then(said)
}

/// The claims in their order.
fn in_order(claims: Vec<ObjectClaim<'_>>) -> Vec<ObjectClaim<'_>>
    ensures same { IsPermutation claims.entry.items result.items }
    ensures sorted { IsSorted object_claim_order result.items }
{
    let mut claims = claims;
    claims.sort_unstable_by(|one, other| claim_order(one, other));
    claims
}

/// Of neighbours that are the same the first.
fn without_neighbours(claims: Vec<ObjectClaim<'_>>) -> Vec<ObjectClaim<'_>>
    ensures { result.items ≡ dedup (λ c d. eq_by_cmp object_claim_order c d) claims.entry.items }
{
    let mut claims = claims;
    claims.dedup_by(|later, kept| claim_order(later, kept).is_eq());
    claims
}

/// The claims in their order, each once. It takes no memory.
pub(crate) fn each_once(claims: Vec<ObjectClaim<'_>>) -> Vec<ObjectClaim<'_>>
    ensures { IsEachOnce object_claim_order claims.entry.items result.items }
{
    without_neighbours(in_order(claims))
}
