ghost use Rattle.std.specs.Prelude.{◌≡◌, ℕ, List, IfOk, IfErr, OnOk};
ghost use Rattle.model_filling.specs.Counterparts.{HasObjectsOf};
ghost use Rattle.model_filling.specs.Unlinked.{HasNoLinks};
ghost use Rattle.repair_semantics.specs.Claims.{Claim};
ghost use Rattle.made_objects.specs.Making.{made_of};
ghost use Rattle.enforce_mode.specs.Made.{IsAgainst};
ghost use Rattle.enforce_mode.specs.Plans.{IsPlan, planned, planned_stays};

use crate::error::EnforceError;
use crate::plan::Plan;
use crate::slots::MadeSlots;
use made_objects::made_objects;
use model_filling::fill;
use mof_metamodel::NoMemory;
use object_tables::{LimitKind, Model};
use slot_claims::{ClaimTable, Repair};
use staying_objects::staying;
use std::alloc::Global;

/// Gives the objects of the model that is made what their slots hold.
fn fill_made(
    alloc: Global,
    plan: &Plan<'_, '_>,
    staying: &[bool],
    made: &mut Model<'_>,
) -> Result<(), NoMemory>
    requires plan { IsPlan plan.now }
    requires staying { staying.now ≡ planned_stays plan.now }
    requires objects { (claims : List (Claim ℕ)) → HasObjectsOf made.old (made_of plan.now.program.now plan.now.target.now staying.now claims plan.now.numbered.table.now plan.now.numbers.now.fresh) }
    requires bare { HasNoLinks made.old }
    ensures { OnOk result (made.new ≡ planned plan.now) }
{
    let objects = plan.numbers.objects.as_slice();
    let claims = ClaimTable::new(alloc, plan.target.meta(), plan.numbered.list, objects)?;
    let repair = Repair {
        program: plan.program,
        target: plan.target,
        staying,
        claims: &claims,
    };
    let slots = MadeSlots {
        alloc,
        repair,
        table: plan.numbered.table,
        fresh: plan.numbers.fresh.as_slice(),
    };
    fill(made, &slots)
}

/// The model that is made of the target.
pub(crate) fn made_model<'m>(alloc: Global, plan: &Plan<'_, 'm>) -> Result<Model<'m>, EnforceError>
    requires { IsPlan plan.now }
    ensures made { IfOk result (λ made. made ≡ planned plan.now) }
    ensures against { IfErr result (IsAgainst (planned plan.now)) }
{
    let stays = staying(
        alloc,
        plan.program,
        plan.target,
        plan.numbers.images.as_slice(),
    )?;
    let table = plan.numbered.table;
    let fresh = plan.numbers.fresh.as_slice();
    let Some(mut made) = made_objects(alloc, plan.target, table, stays.as_slice(), fresh)? else {
        return Err(EnforceError::Limit(LimitKind::Objects));
    };
    fill_made(alloc, plan, stays.as_slice(), &mut made)?;
    Ok(made)
}
