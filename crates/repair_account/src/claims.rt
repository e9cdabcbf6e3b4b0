//! What demands, and what stands in the model, say of single places.
use crate::facts::FactTable;
use mof_metamodel::{NoMemory, PropId};
use object_tables::ObjId;
use ocl_eval::{duplicate_datum, same_datum};
use qvtr_semantics::Datum;
use std::alloc::Global;

/// A place: the slot of an object at a property, or its container.
#[derive(Clone, Copy)]
pub enum Spot {
    Slot(u32, PropId),
    Container(u32),
}

/// What stands at a place: a datum or an object in the slot, or the container, with its property.
#[derive(Drop)]
pub struct Claim {
    pub spot: Spot,
    pub said: Datum,
    pub by: Option<PropId>,
}

fn same_spot(one: Spot, other: Spot) -> bool {
    match (one, other) {
        (Spot::Slot(a, p), Spot::Slot(b, q)) => a == b && p.0 == q.0,
        (Spot::Container(a), Spot::Container(b)) => a == b,
        _ => false,
    }
}

fn is_single(facts: &FactTable, spot: Spot) -> bool {
    match spot {
        Spot::Slot(_, prop) => facts.is_single(prop),
        Spot::Container(_) => true,
    }
}

fn same_prop(one: Option<PropId>, other: Option<PropId>) -> bool {
    match (one, other) {
        (Some(p), Some(q)) => p.0 == q.0,
        (None, None) => true,
        _ => false,
    }
}

/// Whether they say two things of one single place.
fn are_against(facts: &FactTable, one: &Claim, other: &Claim) -> bool {
    same_spot(one.spot, other.spot)
        && is_single(facts, one.spot)
        && !(same_datum(&one.said, &other.said) && same_prop(one.by, other.by))
}

/// Whether one of these is against one of the others.
pub fn is_any_against(facts: &FactTable, claims: &[Claim], others: &[Claim]) -> bool {
    claims.iter().any(|one| others.iter().any(|other| are_against(facts, one, other)))
}

/// That an object has a datum, or an object, at a property: what it says of its own slot, of the other end, and of containers.
pub fn put_claims(
    alloc: Global,
    facts: &FactTable,
    target: u32,
    owner: u32,
    prop: PropId,
    held: &Datum,
    claims: &mut Vec<Claim>,
) -> Result<(), NoMemory> {
    claims.push(Claim {
        spot: Spot::Slot(owner, prop),
        said: duplicate_datum(alloc, held)?,
        by: None,
    })?;
    match held {
        Datum::Obj(model, part) if *model == target => {
            put_far_claims(facts, target, owner, prop, part.0, claims)
        }
        _ => Ok(()),
    }
}

fn put_far_claims(
    facts: &FactTable,
    target: u32,
    owner: u32,
    prop: PropId,
    partner: u32,
    claims: &mut Vec<Claim>,
) -> Result<(), NoMemory> {
    if let Some(opposite) = facts.get(prop).and_then(|facts| facts.opposite) {
        claims.push(Claim {
            spot: Spot::Slot(partner, opposite),
            said: Datum::Obj(target, ObjId(owner)),
            by: None,
        })?;
        put_part(facts, target, owner, opposite, partner, claims)?;
    }
    put_part(facts, target, partner, prop, owner, claims)
}

/// That the whole contains the part, where the property is composite.
fn put_part(
    facts: &FactTable,
    target: u32,
    part: u32,
    prop: PropId,
    whole: u32,
    claims: &mut Vec<Claim>,
) -> Result<(), NoMemory> {
    if facts.is_composite(prop) {
        claims.push(Claim {
            spot: Spot::Container(part),
            said: Datum::Obj(target, ObjId(whole)),
            by: Some(prop),
        })?;
    }
    Ok(())
}
