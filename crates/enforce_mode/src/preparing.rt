ghost use Rattle.std.specs.Prelude.{◌≡◌, ◌<◌, ◌≤◌, ◌+◌, ◌^◌, length, IfOk, IfErr};
ghost use Rattle.object_tables.specs.Validity.{Valid};
ghost use Rattle.repair_semantics.specs.Candidates.{candidate};
ghost use Rattle.repair_semantics.specs.Reports.{IsReport};
ghost use Rattle.enforce_mode.specs.Premises.{AreDemands};
ghost use Rattle.enforce_mode.specs.Plans.{IsPlan, plan_demands, planned};
ghost use Rattle.enforce_mode.specs.Made.{IsSound, IsAgainst};

use crate::edits::Edits;
use crate::error::EnforceError;
use crate::looking::look_through;
use crate::making::made_model;
use crate::plan::Plan;
use crate::reporting::report;
use demand_set::DemandSet;
use made_objects::term_numbers;
use object_tables::{LimitKind, Model};
use qv_syntax::Program;
use std::alloc::Global;

/// What makes a target the model that is planned, if nothing stands against it.
fn planned_edits<'m>(alloc: Global, plan: &Plan<'_, 'm>) -> Result<Edits<'m>, EnforceError>
    requires { IsPlan plan.now }
    ensures made { IfOk result (λ e. e.made ≡ planned plan.now) }
    ensures sound { IfOk result (λ e. IsSound e.made) }
    ensures report { IfOk result (λ e. IsReport plan.now.program.now plan.now.target.now (plan_demands plan.now) e.report) }
    ensures against { IfErr result (IsAgainst (planned plan.now)) }
{
    let made = made_model(alloc, plan)?;
    look_through(alloc, &made)?;
    let report = report(plan.target, &made, plan.numbers.fresh.len() as u32);
    Ok(Edits { made, report })
}

/// How many terms there are: so few that numbers of objects can be counted on.
fn term_count(terms: &[usize]) -> usize
    ensures count { result ≡ length terms.now }
    ensures few { result + 4_000_000_000 < 2 ^ 64 }
{
    terms.len()
}

/// Readies what is demanded of a target, which stays as it is (QVT 1.3, section 7.2 on enforcement).
///
/// # Errors
///
/// What stands against the model that would be made: a breach, or that it has more objects, or is deeper, than a model may be. `NoMemory`
/// where memory runs out.
pub fn prepare<'m>(
    alloc: Global,
    program: &Program,
    demands: &DemandSet,
    target: &Model<'m>,
) -> Result<Edits<'m>, EnforceError>
    requires valid { Valid target.now }
    requires numbers { length target.now.objects ≤ 3_999_000_000 }
    requires demands { AreDemands program.now target.now demands.now }
    ensures made { IfOk result (λ e. e.made ≡ candidate program.now target.now demands.now.list) }
    ensures sound { IfOk result (λ e. IsSound e.made) }
    ensures report { IfOk result (λ e. IsReport program.now target.now demands.now.list e.report) }
    ensures against { IfErr result (IsAgainst (candidate program.now target.now demands.now.list)) }
{
    let numbered = demands.numbered();
    let table = numbered.table;
    let terms = numbered.terms;
    let _count = term_count(terms);
    let Some(numbers) = term_numbers(alloc, program, target, table, terms)? else {
        return Err(EnforceError::Limit(LimitKind::Objects));
    };
    let plan = Plan {
        program,
        target,
        numbered,
        numbers: &numbers,
    };
    planned_edits(alloc, &plan)
}
