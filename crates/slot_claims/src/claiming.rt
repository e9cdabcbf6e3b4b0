ghost use Rattle.std.specs.Prelude.{◌≡◌, ◌++◌, map, OnOk};
ghost use Rattle.mof_metamodel.specs.Metamodels.{prop_at};
ghost use Rattle.mof_metamodel.specs.Tables.{IsPropOf};
ghost use Rattle.repair_semantics.specs.Claims.{Held, part_claim, far_claims, claims_of};
ghost use Rattle.slot_claims.specs.ObjectClaims.{claim_by, fact_by};

use crate::claim::{ObjectClaim, ObjectFact, ObjectSaid, ObjectSpot};
use crate::held_value::Element;
use mof_metamodel::{MetaModel, NoMemory, PropId};
use object_tables::ObjId;

/// Puts the container that a link gives to a part behind the other claims, if the property is composite.
fn add_part(
    claims: &mut Vec<ObjectClaim<'_>>,
    meta: &MetaModel,
    prop: PropId,
    part: ObjId,
    whole: ObjId,
) -> Result<(), NoMemory>
    requires { IsPropOf meta.now prop }
    ensures { OnOk result (map claim_by claims.new.items ≡ map claim_by claims.old.items ++ part_claim (prop_at meta.now prop.0).composite part.0 whole.0 prop.0) }
{
    if meta.prop(prop).composite {
        let spot = ObjectSpot::Container(part);
        let said = ObjectSaid::Within(whole, prop);
        claims.push(ObjectClaim { spot, said })?;
    }
    Ok(())
}

/// Puts what a link says beyond its own slot behind the other claims.
fn add_far(
    claims: &mut Vec<ObjectClaim<'_>>,
    meta: &MetaModel,
    owner: ObjId,
    prop: PropId,
    other: ObjId,
) -> Result<(), NoMemory>
    requires { IsPropOf meta.now prop }
    ensures { OnOk result (map claim_by claims.new.items ≡ map claim_by claims.old.items ++ far_claims meta.now owner.0 prop.0 (Held.object other.0)) }
{
    if let Some(opposite) = meta.opposite(prop) {
        let spot = ObjectSpot::Slot(other, opposite);
        let said = ObjectSaid::Element(Element::Object(owner));
        claims.push(ObjectClaim { spot, said })?;
        add_part(claims, meta, opposite, owner, other)?;
    }
    add_part(claims, meta, prop, other, owner)
}

/// Puts the claims of a fact behind the others.
pub(crate) fn add_claims<'d>(
    claims: &mut Vec<ObjectClaim<'d>>,
    meta: &MetaModel,
    fact: ObjectFact<'d>,
) -> Result<(), NoMemory>
    requires { IsPropOf meta.now fact.prop }
    ensures { OnOk result (map claim_by claims.new.items ≡ map claim_by claims.old.items ++ claims_of meta.now (fact_by fact.entry)) }
{
    let spot = ObjectSpot::Slot(fact.owner, fact.prop);
    let said = ObjectSaid::Element(fact.holds);
    claims.push(ObjectClaim { spot, said })?;
    match fact.holds {
        Element::Datum(_) => Ok(()),
        Element::Object(other) => add_far(claims, meta, fact.owner, fact.prop, other),
    }
}
