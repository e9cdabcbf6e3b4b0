//! The trace of what would be enforced.
ghost use Rattle.std.specs.Prelude.{◌≡◌, IfOk, IfErr};
ghost use Rattle.answer_texts.specs.AskedView.{asked_view};
ghost use Rattle.trace_log.specs.TraceData.{text_of_trace};
ghost use Rattle.demand_trace.specs.Traces.{trace_of};
ghost use Rattle.enforce_steps.specs.Endings.{OnRefusal, traced};
ghost use Rattle.enforce_steps.specs.EnforceAnswer.{DemandsEnd, TraceAnswer};
ghost use Rattle.enforce_steps.specs.Premises.{IsAskable};
ghost use Rattle.enforce_steps.specs.declared.cause.StepError.TheVariants as errors;

use crate::cause::StepError;
use crate::demanding::demanded;
use answer_texts::Asked;
use demand_set::DemandSet;
use demand_trace::trace_of;
use mof_metamodel::{NoMemory, Seq};
use std::alloc::Global;
use trace_log::trace_text;

/// The text of the trace of what is demanded.
fn text_of(alloc: Global, asked: &Asked<'_, '_>, found: &DemandSet) -> Result<Seq<u8>, NoMemory>
    requires askable { IsAskable (asked_view asked.now) }
    requires demanded { DemandsEnd (asked_view asked.now) found.now }
    ensures { IfOk result (λ text. text ≡ text_of_trace (trace_of asked.now.program.now asked.now.metas.now asked.now.models.now found.now)) }
{
    let trace = trace_of(alloc, asked.program, asked.metas, asked.models, found)?;
    let text = trace_text(alloc, &trace);
    drop(trace);
    text
}

/// The same, or that memory could not be had for it.
fn told(alloc: Global, asked: &Asked<'_, '_>, found: &DemandSet) -> Result<Seq<u8>, StepError>
    requires askable { IsAskable (asked_view asked.now) }
    requires demanded { DemandsEnd (asked_view asked.now) found.now }
    ensures ok { IfOk result (λ text. text ≡ text_of_trace (trace_of asked.now.program.now asked.now.metas.now asked.now.models.now found.now)) }
    ensures err { IfErr result (λ e. e ≡ errors.NoMemory) }
{
    match text_of(alloc, asked, found) {
        Ok(text) => Ok(text),
        Err(NoMemory) => Err(StepError::NoMemory),
    }
}

/// The text of the trace: the entries with what they demand, if no step refuses. The target model isn't looked at, but for its metamodel.
///
/// # Errors
///
/// The first refusal in the order of the steps: a rule that is broken; a chain of entries or an entry that is refused; a conflict. `NoMemory` where memory runs
/// out.
pub fn traced(alloc: Global, asked: &Asked<'_, '_>) -> Result<Seq<u8>, StepError>
    requires { IsAskable (asked_view asked.now) }
    ensures ok { IfOk result (λ text. TraceAnswer (asked_view asked.now) (traced text)) }
    ensures err { IfErr result (λ e. OnRefusal e (TraceAnswer (asked_view asked.now))) }
{
    match demanded(alloc, asked) {
        Ok(found) => {
            let text = told(alloc, asked, &found);
            drop(found);
            text
        }
        Err(error) => Err(error),
    }
}
