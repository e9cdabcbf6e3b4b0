//! The steps that an enforcement and a trace have in common: the rules, and what is demanded.
ghost use Rattle.std.specs.Prelude.{IfOk, IfErr, OnOk};
ghost use Rattle.answer_texts.specs.AskedView.{asked_view};
ghost use Rattle.enforcement_rules.specs.Rules.{IsEnforceable};
ghost use Rattle.enforce_steps.specs.Endings.{OnRefusal};
ghost use Rattle.enforce_steps.specs.EnforceAnswer.{DemandsEnd, DemandsStop};
ghost use Rattle.enforce_steps.specs.Premises.{IsAskable};

use crate::cause::StepError;
use crate::refusing::{demand_refusal, rule_refusal};
use answer_texts::Asked;
use demand_set::{DemandSet, demands};
use enforcement_rules::{RuleError, enforceable};
use std::alloc::Global;

/// Refuses a program that can't be enforced.
fn keep_rules(alloc: Global, asked: &Asked<'_, '_>) -> Result<(), StepError>
    requires { IsAskable (asked_view asked.now) }
    ensures ok { OnOk result (IsEnforceable asked.now.metas.now asked.now.program.now) }
    ensures err { IfErr result (λ e. OnRefusal e (DemandsStop (asked_view asked.now))) }
{
    match enforceable(alloc, asked.program, asked.metas) {
        Ok(()) => Ok(()),
        Err(RuleError::Broken(broken)) => Err(rule_refusal(alloc, asked, &broken)),
        Err(RuleError::NoMemory) => Err(StepError::NoMemory),
    }
}

/// What is demanded by a program that can be enforced.
fn find_demands(alloc: Global, asked: &Asked<'_, '_>) -> Result<DemandSet, StepError>
    requires askable { IsAskable (asked_view asked.now) }
    requires enforceable { IsEnforceable asked.now.metas.now asked.now.program.now }
    ensures ok { IfOk result (DemandsEnd (asked_view asked.now)) }
    ensures err { IfErr result (λ e. OnRefusal e (DemandsStop (asked_view asked.now))) }
{
    match demands(alloc, asked.program, asked.models) {
        Ok(found) => Ok(found),
        Err(error) => {
            let refused = demand_refusal(alloc, asked, &error);
            drop(error);
            Err(refused)
        }
    }
}

/// What is demanded of the target, or why that is refused.
pub(crate) fn demanded(alloc: Global, asked: &Asked<'_, '_>) -> Result<DemandSet, StepError>
    requires { IsAskable (asked_view asked.now) }
    ensures ok { IfOk result (DemandsEnd (asked_view asked.now)) }
    ensures err { IfErr result (λ e. OnRefusal e (DemandsStop (asked_view asked.now))) }
{
    match keep_rules(alloc, asked) {
        Ok(()) => find_demands(alloc, asked),
        Err(error) => Err(error),
    }
}
