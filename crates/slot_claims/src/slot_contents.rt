ghost use Rattle.std.specs.Prelude.{◌≡◌, ◌++◌, map, IfOk};
ghost use Rattle.mof_metamodel.specs.Tables.{IsPropOf};
ghost use Rattle.repair_semantics.specs.Candidates.{is_left, kept_at, others_than, contents_at};
ghost use Rattle.slot_claims.specs.HeldValues.{held_by};
ghost use Rattle.slot_claims.specs.ObjectClaims.{claim_by, elements_in};
ghost use Rattle.slot_claims.specs.Staying.{is_staying, is_kept};

use crate::added::added;
use crate::claim::{ObjectClaim, ObjectFact, ObjectSpot};
use crate::claim_table::ClaimTable;
use crate::held_value::{HeldValue, lent};
use crate::old_elements::old_elements;
use mof_metamodel::{NoMemory, PropId, Seq};
use object_tables::{Model, ObjId};
use qv_syntax::Program;
use std::alloc::Global;

/// What tells what slots hold after a repair of the target.
#[derive(Clone, Copy)]
pub struct Repair<'r, 'm, 'd> {
    pub program: &'r Program,
    pub target: &'r Model<'m>,
    /// Whether each object of the target stays, by its number.
    pub staying: &'r [bool],
    pub claims: &'r ClaimTable<'d>,
}

/// Whether an old element is left: a datum, or an object that stays.
fn is_left(staying: &[bool], held: &HeldValue) -> bool
    ensures { result ≡ is_left (is_staying staying.now) (held_by held.now) }
{
    match held {
        HeldValue::Datum(_) => true,
        HeldValue::Object(object) => match staying.get(object.0 as usize) {
            Some(stays) => *stays,
            None => false,
        },
    }
}

/// Whether a slot keeps an old element: one that is left, and that no claim displaces.
fn is_kept(repair: &Repair<'_, '_, '_>, o: ObjId, p: PropId, held: &HeldValue) -> bool
    requires { IsPropOf repair.now.target.now.meta p }
    ensures { result ≡ is_kept repair.now.target.now.meta (is_staying repair.now.staying.now) repair.now.claims.now o.0 p.0 (held_by held.now) }
{
    let fact = ObjectFact {
        owner: o,
        prop: p,
        holds: lent(held),
    };
    is_left(repair.staying, held) && !repair.claims.is_against(repair.target.meta(), fact)
}

/// The old elements of a slot that it keeps.
fn kept_elements(
    alloc: Global,
    repair: &Repair<'_, '_, '_>,
    o: ObjId,
    p: PropId,
) -> Result<Vec<HeldValue>, NoMemory>
    requires { IsPropOf repair.now.target.now.meta p }
    ensures { IfOk result (λ kept. map held_by kept.items ≡ kept_at repair.now.program.now repair.now.target.now (is_staying repair.now.staying.now) repair.now.claims.now o.0 p.0) }
{
    let old = old_elements(alloc, repair.program, repair.target, o, p)?;
    let mut kept = old.into_vec();
    kept.retain(|held| is_kept(repair, o, p, held));
    Ok(kept)
}

/// The elements that a slot keeps, and behind them those that claims put into it besides.
fn with_claimed(
    alloc: Global,
    kept: Vec<HeldValue>,
    claims: &[ObjectClaim<'_>],
) -> Result<Seq<HeldValue>, NoMemory>
    ensures { IfOk result (λ found. map held_by found ≡ map held_by kept.items ++ others_than (map held_by kept.items) (elements_in (map claim_by claims.now))) }
{
    let others = added(alloc, kept.as_slice(), claims)?;
    let mut others = others.into_vec();
    let mut found = kept;
    found.append(&mut others)?;
    Ok(Seq::from_vec(found))
}

/// What the slot of an object at a property holds after the repair: the old elements that it keeps, in their order, and behind them those
/// that are claimed besides, data in value order and then objects by number (QVT 1.3, section 7.2 on enforcement). An object that isn't
/// one of the target has no old elements.
pub fn contents(
    alloc: Global,
    repair: &Repair<'_, '_, '_>,
    o: ObjId,
    p: PropId,
) -> Result<Seq<HeldValue>, NoMemory>
    requires { IsPropOf repair.now.target.now.meta p }
    ensures { IfOk result (λ found. map held_by found ≡ contents_at repair.now.program.now repair.now.target.now (is_staying repair.now.staying.now) repair.now.claims.now o.0 p.0) }
{
    let kept = kept_elements(alloc, repair, o, p)?;
    let claims = repair.claims.at(ObjectSpot::Slot(o, p));
    with_claimed(alloc, kept, claims)
}
