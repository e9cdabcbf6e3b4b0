//! What the slots of the repaired model hold.
ghost use Rattle.std.specs.Prelude.{◌≤◌, length};

use crate::claims::{Claim, Spot, is_any_against, put_claims};
use crate::facts::FactTable;
use crate::objects::Row;
use crate::told::Told;
use demand_set::DemandSet;
use mof_metamodel::{ClassId, NoMemory, PropId};
use object_tables::ObjId;
use ocl_eval::{datum_order, duplicate_datum, held_at, same_datum};
use qvtr_semantics::Datum;
use term_table::NumberedValue;

/// What the account knows of the model that is made: its objects, and what demands claim of them.
#[derive(Drop)]
pub struct Made {
    pub facts: FactTable,
    pub rows: Vec<Row>,
    pub claims: Vec<Claim>,
    /// The number behind the old objects, and the one behind all.
    pub end: u32,
    pub count: u32,
}

impl Made {
    /// The class of an object that stays.
    pub fn class_of(&self, object: u32) -> Option<ClassId> {
        match self.rows.get(object as usize) {
            Some(row) if row.stays => row.class,
            _ => None,
        }
    }

    /// The identifier of an object.
    pub fn id_of(&self, object: u32) -> &str {
        match self.rows.get(object as usize) {
            Some(row) => row.id.as_str(),
            None => "",
        }
    }
}

/// The value of a demand, a term by its object.
fn held_of(
    told: &Told<'_, '_>,
    objects: &[Option<u32>],
    value: &NumberedValue,
) -> Result<Option<Datum>, NoMemory> {
    match value {
        NumberedValue::Val(datum) => Ok(Some(duplicate_datum(told.alloc, datum)?)),
        NumberedValue::Term(number) => match objects.get(*number) {
            Some(Some(object)) => Ok(Some(Datum::Obj(told.program.target, ObjId(*object)))),
            _ => Ok(None),
        },
    }
}

/// What all demands claim.
pub fn claims_by(
    told: &Told<'_, '_>,
    demands: &DemandSet,
    facts: &FactTable,
    objects: &[Option<u32>],
) -> Result<Vec<Claim>, NoMemory> {
    let mut claims = Vec::new(told.alloc);
    for demand in demands.numbered().list {
        let held = held_of(told, objects, &demand.value)?;
        if let (Some(Some(owner)), Some(held)) = (objects.get(demand.owner), held) {
            let target = told.program.target;
            put_claims(
                told.alloc,
                facts,
                target,
                *owner,
                demand.prop,
                &held,
                &mut claims,
            )?;
        }
    }
    Ok(claims)
}

/// What the old target has in a slot.
pub fn old_contents(
    told: &Told<'_, '_>,
    made: &Made,
    object: u32,
    prop: PropId,
) -> Result<Vec<Datum>, NoMemory> {
    if object < made.end {
        let datum = Datum::Obj(told.program.target, ObjId(object));
        if let Some(held) = held_at(told.alloc, told.program, told.models, &datum, prop)? {
            return Ok(held.into_vec());
        }
    }
    Ok(Vec::new(told.alloc))
}

fn is_left(told: &Told<'_, '_>, made: &Made, held: &Datum) -> bool {
    match held {
        Datum::Obj(model, object) if *model == told.program.target => {
            made.rows
                .get(object.0 as usize)
                .is_some_and(|row| row.stays)
        }
        _ => true,
    }
}

/// Whether no claim displaces an old element.
fn is_kept(
    told: &Told<'_, '_>,
    made: &Made,
    object: u32,
    prop: PropId,
    held: &Datum,
) -> Result<bool, NoMemory> {
    let mut own = Vec::new(told.alloc);
    let target = told.program.target;
    put_claims(
        told.alloc,
        &made.facts,
        target,
        object,
        prop,
        held,
        &mut own,
    )?;
    Ok(
        is_left(told, made, held)
            && !is_any_against(&made.facts, made.claims.as_slice(), own.as_slice()),
    )
}

fn has_datum(held: &[Datum], sought: &Datum) -> bool {
    held.iter().any(|one| same_datum(one, sought))
}

/// What a claim puts into the slot, if it is one of it.
fn claimed<'a>(claim: &'a Claim, object: u32, prop: PropId) -> Option<&'a Datum> {
    match claim.spot {
        Spot::Slot(owner, own) if owner == object && own.0 == prop.0 => Some(&claim.said),
        _ => None,
    }
}

/// Where a datum stands in a list that is in order.
fn place_among(held: &[Datum], datum: &Datum) -> usize
    ensures { result ≤ length held.now }
{
    for i in 0..held.len() {
        if datum_order(&held[i], datum).is_gt() {
            return i;
        }
    }
    held.len()
}

/// Puts a datum into a list at its place, if it isn't there.
fn put_in_order(told: &Told<'_, '_>, held: &mut Vec<Datum>, datum: &Datum) -> Result<(), NoMemory> {
    if has_datum(held.as_slice(), datum) {
        return Ok(());
    }
    let place = place_among(held.as_slice(), datum);
    let copy = duplicate_datum(told.alloc, datum)?;
    held.insert(place, copy)?;
    Ok(())
}

/// What claims put into the slot besides these, each once, in order.
fn claimed_besides(
    told: &Told<'_, '_>,
    made: &Made,
    object: u32,
    prop: PropId,
    kept: &[Datum],
) -> Result<Vec<Datum>, NoMemory> {
    let mut more = Vec::new(told.alloc);
    for claim in &made.claims {
        match claimed(claim, object, prop) {
            Some(said) if !has_datum(kept, said) => put_in_order(told, &mut more, said)?,
            _ => {}
        }
    }
    Ok(more)
}

fn kept_contents(
    told: &Told<'_, '_>,
    made: &Made,
    object: u32,
    prop: PropId,
) -> Result<Vec<Datum>, NoMemory> {
    let mut kept = Vec::new(told.alloc);
    for held in old_contents(told, made, object, prop)? {
        if is_kept(told, made, object, prop, &held)? {
            kept.push(held)?;
        }
    }
    Ok(kept)
}

/// What a slot holds: the old elements that are kept, and behind them those that are claimed besides.
pub fn contents(
    told: &Told<'_, '_>,
    made: &Made,
    object: u32,
    prop: PropId,
) -> Result<Vec<Datum>, NoMemory> {
    let mut held = kept_contents(told, made, object, prop)?;
    let more = claimed_besides(told, made, object, prop, held.as_slice())?;
    for datum in more {
        held.push(datum)?;
    }
    Ok(held)
}
