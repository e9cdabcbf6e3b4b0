//! What is refused, with its text.
ghost use Rattle.std.specs.Prelude.{◌≡◌};
ghost use Rattle.answer_texts.specs.AskedView.{asked_view};
ghost use Rattle.demand_set.specs.DemandSets.{IsRefusal};
ghost use Rattle.enforcement_rules.specs.Rules.{Broken, IsEnforceable};
ghost use Rattle.enforce_mode.specs.Made.{IsAgainst};
ghost use Rattle.object_tables.specs.Models.{ModelData};
ghost use Rattle.enforce_steps.specs.Endings.{OnRefusal, output_view, refusal_of, refused};
ghost use Rattle.enforce_steps.specs.EnforceAnswer.{DemandsStop, MadeStops};
ghost use Rattle.enforce_steps.specs.StepTexts as spec;
ghost use Rattle.enforce_steps.specs.declared.cause.Cause.TheVariants as causes;

use crate::cause::{Cause, StepError};
use crate::output::Output;
use crate::step_texts::{invalid_text, limit_text, long_text};
use answer_texts::Asked;
use demand_set::DemandError;
use enforce_mode::EnforceError;
use enforcement_rules::NotEnforceable;
use entry_texts::{conflict_text, entry_cycle_text, entry_deep_text, rule_text, unmet_text};
use mof_metamodel::{MetaModel, NoMemory, Seq};
use std::alloc::Global;

/// A refusal for a cause, with its text if memory could be had for it.
fn refusal(cause: Cause, text: Result<Seq<u8>, NoMemory>) -> StepError
    ensures { result ≡ refusal_of cause text }
{
    match text {
        Ok(text) => StepError::Refused { cause, text },
        Err(NoMemory) => StepError::NoMemory,
    }
}

/// That a relation breaks a rule.
pub(crate) fn rule_refusal(
    alloc: Global,
    asked: &Asked<'_, '_>,
    broken: &NotEnforceable,
) -> StepError
    requires { Broken asked.now.metas.now asked.now.program.now broken.now.relation broken.now.rule }
    ensures { OnRefusal result (DemandsStop (asked_view asked.now)) }
{
    refusal(Cause::NotEnforceable, rule_text(alloc, asked, broken))
}

/// That there are no demands which a target could meet.
pub(crate) fn demand_refusal(alloc: Global, asked: &Asked<'_, '_>, error: &DemandError) -> StepError
    requires enforceable { IsEnforceable asked.now.metas.now asked.now.program.now }
    requires refusal { IsRefusal asked.now.program.now asked.now.models.now error.now }
    ensures { OnRefusal result (DemandsStop (asked_view asked.now)) }
{
    match error {
        DemandError::Cycle(chain) => {
            refusal(
                Cause::Chain,
                entry_cycle_text(alloc, asked, chain.as_slice()),
            )
        }
        DemandError::Deep(chain) => {
            refusal(
                Cause::Chain,
                entry_deep_text(alloc, asked, chain.as_slice()),
            )
        }
        DemandError::Unmet { entry, place } => {
            refusal(Cause::Unmet, unmet_text(alloc, asked, entry, place))
        }
        DemandError::Conflict(clash) => {
            refusal(Cause::Conflict, conflict_text(alloc, asked, clash))
        }
        DemandError::NoMemory => StepError::NoMemory,
    }
}

/// That something stands against the model that would be made, of this metamodel.
pub(crate) fn made_refusal(
    alloc: Global,
    meta: &MetaModel,
    output: &Output<'_>,
    error: &EnforceError,
) -> StepError
    requires { (made : ModelData) × (made.meta ≡ meta.now) × IsAgainst made error.now }
    ensures { (made : ModelData) → made.meta ≡ meta.now → IsAgainst made error.now → OnRefusal result (MadeStops (output_view output.now) made) }
{
    match error {
        EnforceError::Invalid(breach, id) => {
            refusal(Cause::Invalid, invalid_text(alloc, meta, *breach, id))
        }
        EnforceError::Limit(kind) => refusal(Cause::Limit, limit_text(alloc, output.path, *kind)),
        EnforceError::NoMemory => StepError::NoMemory,
    }
}

/// That the text of the model that is made is too long.
pub(crate) fn long_refusal(alloc: Global, output: &Output<'_>) -> StepError
    ensures { OnRefusal result (λ end. end ≡ refused causes.Limit (spec.long_text output.now.path.now)) }
{
    refusal(Cause::Limit, long_text(alloc, output.path))
}
