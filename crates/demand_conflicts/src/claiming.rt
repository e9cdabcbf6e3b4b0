ghost use Rattle.std.specs.Prelude.{◌≡◌, ◌∷◌, [], ◌++◌, map, filter, OnOk};
ghost use Rattle.mof_metamodel.specs.Metamodels.{prop_at};
ghost use Rattle.mof_metamodel.specs.Tables.{IsPropOf};
ghost use Rattle.repair_semantics.specs.Claims.{Held, part_claim, far_claims};
ghost use Rattle.demand_conflicts.specs.NumberedClaims.{claim_by, slot_claim, is_single, single_claims};

use crate::claims::{NumberedClaim, NumberedSaid, NumberedSpot};
use crate::demand::NumberedDemand;
use mof_metamodel::{MetaModel, NoMemory, PropId};
use term_table::NumberedValue;

/// Puts what a slot holds behind the other claims, if at most one value stands there.
fn add_slot<'a>(
    claims: &mut Vec<NumberedClaim<'a>>,
    meta: &MetaModel,
    owner: usize,
    prop: PropId,
    said: NumberedSaid<'a>,
) -> Result<(), NoMemory>
    requires { IsPropOf meta.now prop }
    ensures { OnOk result (map claim_by claims.new.items ≡ map claim_by claims.old.items ++ filter (is_single meta.now) (slot_claim owner prop.0 said.entry ∷ [])) }
{
    if meta.bounds(prop).1 == Some(1) {
        let spot = NumberedSpot::Slot(owner, prop.0);
        claims.push(NumberedClaim { spot, said })?;
    }
    Ok(())
}

/// Puts the container that a link gives to a part behind the other claims, if the property is composite.
fn add_part(
    claims: &mut Vec<NumberedClaim<'_>>,
    meta: &MetaModel,
    prop: PropId,
    part: usize,
    whole: usize,
) -> Result<(), NoMemory>
    requires { IsPropOf meta.now prop }
    ensures { OnOk result (map claim_by claims.new.items ≡ map claim_by claims.old.items ++ part_claim (prop_at meta.now prop.0).composite part whole prop.0) }
{
    if meta.prop(prop).composite {
        let spot = NumberedSpot::Container(part);
        let said = NumberedSaid::Within(whole, prop.0);
        claims.push(NumberedClaim { spot, said })?;
    }
    Ok(())
}

/// Puts what a link says beyond its own slot, of single places, behind the other claims.
fn add_far(
    claims: &mut Vec<NumberedClaim<'_>>,
    meta: &MetaModel,
    owner: usize,
    prop: PropId,
    other: usize,
) -> Result<(), NoMemory>
    requires { IsPropOf meta.now prop }
    ensures { OnOk result (map claim_by claims.new.items ≡ map claim_by claims.old.items ++ filter (is_single meta.now) (far_claims meta.now owner prop.0 (Held.object other))) }
{
    if let Some(opposite) = meta.opposite(prop) {
        add_slot(claims, meta, other, opposite, NumberedSaid::Object(owner))?;
        add_part(claims, meta, opposite, owner, other)?;
    }
    add_part(claims, meta, prop, other, owner)
}

/// Puts the claims of a demand on single places behind the others.
pub(crate) fn add_claims<'a>(
    claims: &mut Vec<NumberedClaim<'a>>,
    meta: &MetaModel,
    demand: &'a NumberedDemand,
) -> Result<(), NoMemory>
    requires { IsPropOf meta.now demand.now.prop }
    ensures { OnOk result (map claim_by claims.new.items ≡ map claim_by claims.old.items ++ single_claims meta.now demand.now) }
{
    match &demand.value {
        NumberedValue::Val(datum) => {
            let said = NumberedSaid::Datum(datum);
            add_slot(claims, meta, demand.owner, demand.prop, said)
        }
        NumberedValue::Term(other) => {
            let said = NumberedSaid::Object(*other);
            add_slot(claims, meta, demand.owner, demand.prop, said)?;
            add_far(claims, meta, demand.owner, demand.prop, *other)
        }
    }
}
