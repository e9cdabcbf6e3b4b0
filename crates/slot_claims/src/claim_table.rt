ghost use Rattle.std.specs.Prelude.{◌≡◌, not, map, filter, All, IfOk, IfSome};
ghost use Rattle.std.specs.List.{list_any};
ghost use Rattle.std.specs.List.Sorted.{IsStrictlySortedBy};
ghost use Rattle.std.specs.Option.{option_map};
ghost use Rattle.mof_metamodel.specs.Metamodels.{prop_at};
ghost use Rattle.mof_metamodel.specs.Tables.{IsPropOf};
ghost use Rattle.repair_semantics.specs.Claims.{part_claim, opposite_claims, far_claims, same_said, is_one, are_against, is_against};
ghost use Rattle.repair_semantics.specs.Images.{same_number};
ghost use Rattle.repair_semantics.specs.Terms.{each_once};
ghost use Rattle.demand_conflicts.specs.NumberedDemands.{IsDemandOf};
ghost use Rattle.slot_claims.specs.HeldValues.{element_by};
ghost use Rattle.slot_claims.specs.ObjectClaims.{spot_by, said_by, claim_by, fact_by, slot_claim, is_of_spot, says_otherwise, is_one_against};
ghost use Rattle.slot_claims.specs.ClaimOrder.{claim_order, object_claim_order};
ghost use Rattle.slot_claims.specs.DemandClaims.{all_claims};

use crate::claim::{ObjectClaim, ObjectFact, ObjectSaid, ObjectSpot, is_same_said};
use crate::demanding::all_claims;
use crate::held_value::Element;
use crate::ordering::{each_once, spot_order};
use demand_conflicts::NumberedDemand;
use mof_metamodel::{MetaModel, NoMemory, PropId};
use object_tables::ObjId;
use std::alloc::Global;
use std::marker::Model;

/// What demands claim of slots and containers, where the objects of terms have numbers. Contracts see it as the list of the claims in
/// their order, each once.
#[derive(Drop)]
pub struct ClaimTable<'d> {
    claims: Vec<ObjectClaim<'d>>,
}

impl<'d> Model for ClaimTable<'d> {
    ghost use Rattle.std.specs.Prelude.{List, ℕ, map};
    ghost use Rattle.std.specs.List.Sorted.{IsStrictlySortedBy};
    ghost use Rattle.repair_semantics.specs.Claims.{Claim};
    ghost use Rattle.slot_claims.specs.ObjectClaims.{claim_by};
    ghost use Rattle.slot_claims.specs.ClaimOrder.{object_claim_order};

    ghost Value = { List (Claim ℕ) };

    ghost view = { λ t. map claim_by t.claims.items };

    ghost invariant = { λ t. IsStrictlySortedBy object_claim_order t.claims.items };
}

/// The claims of a place, among some that stand in their order.
fn claims_at<'c, 'd>(claims: &'c [ObjectClaim<'d>], spot: ObjectSpot) -> &'c [ObjectClaim<'d>]
    requires { IsStrictlySortedBy object_claim_order claims.now }
    ensures { result.now ≡ filter (λ c. is_of_spot (spot_by spot) (claim_by c)) claims.now }
{
    let first = claims.partition_point(|claim| spot_order(claim.spot, spot).is_lt());
    let rest = &claims[first..];
    let count = rest.partition_point(|claim| spot_order(claim.spot, spot).is_le());
    &rest[..count]
}

/// Whether one of these claims of a place says something else.
fn is_one_other(claims: &[ObjectClaim<'_>], said: ObjectSaid<'_>) -> bool
    ensures { result ≡ list_any (λ c. not (same_said same_number (said_by said.entry) c.said)) (map claim_by claims.now) }
{
    for claim in claims {
        if !is_same_said(said, claim.said) {
            return true;
        }
    }
    false
}

/// Whether at most one thing stands in a slot at a property.
fn is_single(meta: &MetaModel, prop: PropId) -> bool
    requires { IsPropOf meta.now prop }
    ensures { result ≡ is_one (prop_at meta.now prop.0).upper }
{
    match meta.bounds(prop).1 {
        Some(upper) => upper == 1,
        None => false,
    }
}

impl<'d> ClaimTable<'d> {
    /// What the demands claim, where `numbers` has the number of the object that each term is, none for a term that isn't demanded.
    pub fn new(
        alloc: Global,
        meta: &MetaModel,
        demands: &'d [NumberedDemand],
        numbers: &[Option<ObjId>],
    ) -> Result<ClaimTable<'d>, NoMemory>
        requires { All (IsDemandOf meta.now) demands.now }
        ensures { IfOk result (λ table. table ≡ each_once claim_order (all_claims meta.now numbers.now demands.now)) }
    {
        let claims = all_claims(alloc, meta, numbers, demands)?;
        Ok(ClaimTable {
            claims: each_once(claims),
        })
    }

    /// The claims of a place, in their order.
    pub(crate) fn at(&self, spot: ObjectSpot) -> &[ObjectClaim<'d>]
        ensures there { map claim_by result.now ≡ filter (is_of_spot (spot_by spot)) self.now }
        ensures sorted { IsStrictlySortedBy claim_order self.now }
    {
        claims_at(self.claims.as_slice(), spot)
    }

    /// Whether something else is claimed of a place.
    fn says_otherwise(&self, spot: ObjectSpot, said: ObjectSaid<'_>) -> bool
        ensures { result ≡ list_any (says_otherwise (spot_by spot) (said_by said.entry)) self.now }
    {
        is_one_other(self.at(spot), said)
    }

    /// Whether a claim displaces an element of a slot from it.
    fn is_against_slot(
        &self,
        meta: &MetaModel,
        owner: ObjId,
        prop: PropId,
        element: Element<'_>,
    ) -> bool
        requires { IsPropOf meta.now prop }
        ensures { result ≡ list_any (are_against meta.now same_number (slot_claim owner.0 prop.0 (element_by element.entry))) self.now }
    {
        let spot = ObjectSpot::Slot(owner, prop);
        is_single(meta, prop) && self.says_otherwise(spot, ObjectSaid::Element(element))
    }

    /// Whether a claim displaces the container that a link gives to a part, if the property is composite.
    fn is_against_part(&self, meta: &MetaModel, prop: PropId, part: ObjId, whole: ObjId) -> bool
        requires { IsPropOf meta.now prop }
        ensures { result ≡ is_one_against meta.now self.now (part_claim (prop_at meta.now prop.0).composite part.0 whole.0 prop.0) }
    {
        let spot = ObjectSpot::Container(part);
        let said = ObjectSaid::Within(whole, prop);
        meta.prop(prop).composite && self.says_otherwise(spot, said)
    }

    /// Whether a claim displaces what a link says at its other end, where that has a name.
    fn is_against_opposite(
        &self,
        meta: &MetaModel,
        opposite: Option<PropId>,
        owner: ObjId,
        other: ObjId,
    ) -> bool
        requires { IfSome opposite (IsPropOf meta.now) }
        ensures { result ≡ is_one_against meta.now self.now (opposite_claims meta.now owner.0 other.0 (option_map (λ q. q.0) opposite)) }
    {
        match opposite {
            Some(prop) => {
                self.is_against_slot(meta, other, prop, Element::Object(owner))
                    || self.is_against_part(meta, prop, owner, other)
            }
            None => false,
        }
    }

    /// Whether a claim displaces what a link says beyond its own slot.
    fn is_against_far(&self, meta: &MetaModel, fact: ObjectFact<'_>) -> bool
        requires { IsPropOf meta.now fact.prop }
        ensures { result ≡ is_one_against meta.now self.now (far_claims meta.now fact.entry.owner.0 fact.entry.prop.0 (element_by fact.entry.holds)) }
    {
        match fact.holds {
            Element::Datum(_) => false,
            Element::Object(other) => {
                self.is_against_opposite(meta, meta.opposite(fact.prop), fact.owner, other)
                    || self.is_against_part(meta, fact.prop, other, fact.owner)
            }
        }
    }

    /// Whether a claim displaces a fact: one of a single place that differs from what the fact says of it.
    pub(crate) fn is_against(&self, meta: &MetaModel, fact: ObjectFact<'_>) -> bool
        requires { IsPropOf meta.now fact.prop }
        ensures { result ≡ is_against meta.now same_number self.now (fact_by fact.entry) }
    {
        self.is_against_slot(meta, fact.owner, fact.prop, fact.holds)
            || self.is_against_far(meta, fact)
    }
}
