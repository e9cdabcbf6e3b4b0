//! Repairs beside those of the plain account.
ghost use Rattle.demand_set.specs.DemandSets.{IsDemandSet};
ghost use Rattle.entry_finding.specs.Premises.{CanBeEnforced};

use crate::enforcing::{Transformation, enforced, put_outcome};
use case_texts::Pen;
use demand_set::DemandSet;
use mof_metamodel::{NoMemory, or_drop};
use ocl_eval::Models;
use repair_account::{Outcome, account_repair};
use std::alloc::Global;

/// How a repair ends, and how the account ends it.
#[derive(Drop)]
pub struct Comparison {
    pub enforced: Outcome,
    pub account: Outcome,
}

impl Comparison {
    /// Whether both end it in the same way.
    pub fn is_same(&self) -> bool {
        self.enforced.is_same(&self.account)
    }
}

/// How the account ends the repair, if there is a target.
fn accounted(
    of: &Transformation<'_>,
    demands: &DemandSet,
    models: &Models<'_>,
) -> Result<Option<Outcome>, NoMemory> {
    account_repair(&of.told(models), demands)
}

/// Makes the target what is demanded of it, if it is valid, and compares.
pub fn compared(
    of: &Transformation<'_>,
    demands: &DemandSet,
    models: &mut Models<'_>,
) -> Result<Option<Comparison>, NoMemory>
    requires enforced { CanBeEnforced of.now.metas.now of.now.program.now models.old }
    requires demands { IsDemandSet of.now.program.now models.old demands.now }
{
    let Some(account) = accounted(of, demands, models)? else {
        return Ok(None);
    };
    match or_drop!(enforced(of, demands, models, false); account) {
        Some(enforced) => Ok(Some(Comparison { enforced, account })),
        None => {
            drop(account);
            Ok(None)
        }
    }
}

/// How a repair ends, and whether the account ends it in the same way; if not, how it does.
pub fn put_comparison(pen: &mut Pen, alloc: Global, comparison: &Comparison) {
    if comparison.is_same() {
        put_outcome(pen, alloc, &comparison.enforced, ", same as the account");
    } else {
        put_outcome(pen, alloc, &comparison.enforced, ", other than the account");
        pen.put("\naccount");
        put_outcome(pen, alloc, &comparison.account, "");
    }
}
