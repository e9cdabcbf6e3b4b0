ghost use Rattle.std.specs.Prelude.{◌≡◌, ◌++◌, map, All, IfOk, OnOk};
ghost use Rattle.std.specs.Option.{option_map};
ghost use Rattle.mof_metamodel.specs.Tables.{IsPropOf};
ghost use Rattle.demand_conflicts.specs.NumberedDemands.{IsDemandOf};
ghost use Rattle.slot_claims.specs.HeldValues.{element_by};
ghost use Rattle.slot_claims.specs.ObjectClaims.{claim_by, fact_by};
ghost use Rattle.slot_claims.specs.DemandClaims.{object_number, number_at, held_at, fact_in, demand_claims, all_claims};

use crate::claim::{ObjectClaim, ObjectFact};
use crate::claiming::add_claims;
use crate::held_value::Element;
use demand_conflicts::NumberedDemand;
use mof_metamodel::{MetaModel, NoMemory};
use object_tables::ObjId;
use std::alloc::Global;
use term_table::NumberedValue;

/// The number of the object that a term is.
fn number_at(numbers: &[Option<ObjId>], term: usize) -> Option<ObjId>
    ensures { object_number result ≡ number_at numbers.now term }
{
    match numbers.get(term) {
        Some(number) => *number,
        None => None,
    }
}

/// What a slot holds, where the value is a datum or a term that is an object.
fn element_of<'d>(numbers: &[Option<ObjId>], value: &'d NumberedValue) -> Option<Element<'d>>
    ensures { option_map element_by result ≡ held_at numbers.now value.now }
{
    match value {
        NumberedValue::Val(datum) => Some(Element::Datum(datum)),
        NumberedValue::Term(term) => match number_at(numbers, *term) {
            Some(object) => Some(Element::Object(object)),
            None => None,
        },
    }
}

/// What a demand says, its objects by their numbers.
fn fact_of<'d>(numbers: &[Option<ObjId>], demand: &'d NumberedDemand) -> Option<ObjectFact<'d>>
    ensures { option_map fact_by result ≡ fact_in numbers.now demand.now }
{
    let owner = number_at(numbers, demand.owner)?;
    let holds = element_of(numbers, &demand.value)?;
    let prop = demand.prop;
    Some(ObjectFact { owner, prop, holds })
}

/// Puts the claims of a demand behind the others.
fn add_demand<'d>(
    claims: &mut Vec<ObjectClaim<'d>>,
    meta: &MetaModel,
    numbers: &[Option<ObjId>],
    demand: &'d NumberedDemand,
) -> Result<(), NoMemory>
    requires { IsPropOf meta.now demand.now.prop }
    ensures { OnOk result (map claim_by claims.new.items ≡ map claim_by claims.old.items ++ demand_claims meta.now numbers.now demand.now) }
{
    match fact_of(numbers, demand) {
        Some(fact) => add_claims(claims, meta, fact),
        None => Ok(()),
    }
}

/// The claims of demands.
pub(crate) fn all_claims<'d>(
    alloc: Global,
    meta: &MetaModel,
    numbers: &[Option<ObjId>],
    demands: &'d [NumberedDemand],
) -> Result<Vec<ObjectClaim<'d>>, NoMemory>
    requires { All (IsDemandOf meta.now) demands.now }
    ensures { IfOk result (λ claims. map claim_by claims.items ≡ all_claims meta.now numbers.now demands.now) }
{
    let mut claims = Vec::new(alloc);
    for demand in demands {
        add_demand(&mut claims, meta, numbers, demand)?;
    }
    Ok(claims)
}
