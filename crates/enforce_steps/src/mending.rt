//! What is made of the target: readied, looked through, and written as a file.
ghost use Rattle.std.specs.Prelude.{◌≡◌, ◌<◌, Some, slice_get, length, IfOk, IfErr};
ghost use Rattle.answer_texts.specs.AskedView.{asked_view};
ghost use Rattle.enforce_mode.specs.Made.{IsSound};
ghost use Rattle.enforce_steps.specs.Endings.{OnRefusal, ended_of, output_view};
ghost use Rattle.enforce_steps.specs.EnforceAnswer.{DemandsEnd, EnforceAnswer, MadeEnds, MadeStops};
ghost use Rattle.enforce_steps.specs.Premises.{IsAskable};
ghost use Rattle.enforce_steps.specs.Readied.{IsFitted, IsReady, IsTooLong, IsWritten};

use crate::cause::StepError;
use crate::demanding::demanded;
use crate::outcome::Enforced;
use crate::output::Output;
use crate::refusing::{long_refusal, made_refusal};
use crate::step_texts::model_text;
use answer_texts::Asked;
use demand_set::DemandSet;
use enforce_mode::{Edits, prepare};
use enforcement_laws::demand_sets_are_demands;
use model_assembly::models_are_held;
use mof_metamodel::{NoMemory, Seq};
use object_tables::Model;
use repair_semantics::Report;
use std::alloc::Global;

/// The target among the models.
fn target_of<'a, 'm>(asked: &Asked<'a, 'm>) -> &'a Model<'m>
    requires { asked.now.program.now.target < length asked.now.models.now }
    ensures { slice_get asked.now.models.now asked.now.program.now.target ≡ Some result.now }
{
    match asked.models.get(asked.program.target as usize) {
        Some(target) => target,
        None => unreachable!(),
    }
}

/// What makes the target what is demanded of it, if nothing stands against the model that is made.
fn readied<'m>(
    alloc: Global,
    asked: &Asked<'_, 'm>,
    output: &Output<'_>,
    found: &DemandSet,
) -> Result<Edits<'m>, StepError>
    requires askable { IsAskable (asked_view asked.now) }
    requires demanded { DemandsEnd (asked_view asked.now) found.now }
    ensures ok { IfOk result (IsReady (asked_view asked.now)) }
    ensures err { IfErr result (λ e. OnRefusal e (EnforceAnswer (asked_view asked.now) (output_view output.now))) }
{
    demand_sets_are_demands();
    let target = target_of(asked);
    match prepare(alloc, asked.program, found, target) {
        Ok(edits) => Ok(edits),
        Err(error) => {
            let refused = made_refusal(alloc, target.meta(), output, &error);
            drop(error);
            Err(refused)
        }
    }
}

/// What makes the target what is demanded of it, or the first refusal.
pub(crate) fn ready<'m>(
    alloc: Global,
    asked: &Asked<'_, 'm>,
    output: &Output<'_>,
) -> Result<Edits<'m>, StepError>
    requires { IsAskable (asked_view asked.now) }
    ensures ok { IfOk result (IsReady (asked_view asked.now)) }
    ensures err { IfErr result (λ e. OnRefusal e (EnforceAnswer (asked_view asked.now) (output_view output.now))) }
{
    match demanded(alloc, asked) {
        Ok(found) => {
            let edits = readied(alloc, asked, output, &found);
            drop(found);
            edits
        }
        Err(error) => Err(error),
    }
}

/// What comes of a text that isn't too long.
fn ended(bytes: Seq<u8>, report: Report) -> Enforced
    ensures { MadeEnds bytes report (ended_of result) }
{
    if report.unchanged {
        Enforced::Unchanged
    } else {
        Enforced::Changed { bytes, report }
    }
}

/// What comes of the text of a model that is made.
fn fitted(
    alloc: Global,
    bytes: Seq<u8>,
    output: &Output<'_>,
    report: Report,
) -> Result<Enforced, StepError>
    ensures ok { IfOk result (λ e. IsFitted (output_view output.now) bytes report (ended_of e)) }
    ensures err { IfErr result (λ e. OnRefusal e (IsTooLong (output_view output.now) bytes)) }
{
    if bytes.len() > output.limit {
        drop(bytes);
        return Err(long_refusal(alloc, output));
    }
    Ok(ended(bytes, report))
}

/// What comes of a model that is made.
fn written(
    alloc: Global,
    made: &Model<'_>,
    output: &Output<'_>,
    report: Report,
) -> Result<Enforced, StepError>
    requires { IsSound made.now }
    ensures ok { IfOk result (λ e. IsWritten (output_view output.now) made.now report (ended_of e)) }
    ensures err { IfErr result (λ e. OnRefusal e (MadeStops (output_view output.now) made.now)) }
{
    models_are_held(made);
    match model_text(alloc, made, output.form) {
        Ok(bytes) => fitted(alloc, bytes, output, report),
        Err(NoMemory) => Err(StepError::NoMemory),
    }
}

/// Makes the target what is ready for it, and writes it.
pub(crate) fn applied<'m>(
    alloc: Global,
    edits: Edits<'m>,
    target: &mut Model<'m>,
    output: &Output<'_>,
) -> Result<Enforced, StepError>
    requires { IsSound edits.made }
    ensures ok { IfOk result (λ e. IsWritten (output_view output.now) edits.entry.made edits.entry.report (ended_of e)) }
    ensures err { IfErr result (λ e. OnRefusal e (MadeStops (output_view output.now) edits.entry.made)) }
{
    let report = edits.report();
    edits.apply(target);
    written(alloc, target, output, report)
}
