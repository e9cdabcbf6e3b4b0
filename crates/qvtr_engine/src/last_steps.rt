//! The last steps of an execution, over models that are read: a verdict, an enforcement or a trace.
ghost use Rattle.std.specs.Prelude.{◌≡◌, ℕ, List, IfOk, IfErr};
ghost use Rattle.answer_texts.specs.AskedView.{asked_view};
ghost use Rattle.enforce_steps.specs.Endings.{ended_of};
ghost use Rattle.qvtr_engine.specs.declared.limits.TheConstants.{MAX_FILE};
ghost use Rattle.qvtr_engine.specs.ExecutionAnswer.{EnforcementAnswer, TracingAnswer, last_answer, reply_of_end};
ghost use Rattle.qvtr_engine.specs.LastSteps.{IsMendedAt, stop_of};
ghost use Rattle.qvtr_engine.specs.Outcome.{reply_of};
ghost use Rattle.qvtr_engine.specs.ReadModels.{IsReadQuestion};
ghost use Rattle.qvtr_engine.specs.Stops.{OnStop};

use crate::judging::judge;
use crate::mode::Mode;
use crate::outcome::{Outcome, Stop};
use answer_texts::Asked;
use enforce_steps::{Enforced, Output, StepError, enforced, traced, variables_are_few};
use ocl_environments::Metas;
use ocl_eval::Models;
use program_texts::texts_are_storable;
use qv_syntax::Program;
use std::alloc::Global;

/// What stops the work where a step is refused.
fn refusal_stop<'w>(error: StepError) -> Stop<'w>
    ensures { result ≡ stop_of error }
{
    match error {
        StepError::Refused { cause, text } => Stop::Refused { cause, text },
        StepError::NoMemory => Stop::NoMemory,
    }
}

/// What comes of an enforcement of a file at this path.
fn enforced_outcome<'w>(path: &'w str, end: Enforced) -> Outcome<'w>
    ensures reply { reply_of result ≡ reply_of_end path.now (ended_of end) }
    ensures mended { IsMendedAt Mode.Enforce path.now result }
{
    match end {
        Enforced::Unchanged => Outcome::Kept,
        Enforced::Changed { bytes, report } => Outcome::Mended {
            path,
            bytes,
            report,
        },
    }
}

/// The enforcement of a program.
fn enforce<'w>(
    alloc: Global,
    metas: &Metas,
    program: &Program,
    models: &mut Models<'_>,
    output: &Output<'w>,
) -> Result<Outcome<'w>, Stop<'w>>
    requires read { IsReadQuestion (record { metas = metas.now; program = program.now; models = models.old }) }
    requires limit { output.now.limit ≡ MAX_FILE }
    ensures ok { IfOk result (λ o. EnforcementAnswer output.now.form output.now.path.now (record { metas = metas.now; program = program.now; models = models.old }) (reply_of o)) }
    ensures mended { IfOk result (IsMendedAt Mode.Enforce output.now.path.now) }
    ensures err { IfErr result (λ stop. OnStop stop (EnforcementAnswer output.now.form output.now.path.now (record { metas = metas.now; program = program.now; models = models.old }))) }
{
    variables_are_few(program);
    texts_are_storable(program);
    match enforced(alloc, metas, program, models, output) {
        Ok(end) => Ok(enforced_outcome(output.path, end)),
        Err(error) => Err(refusal_stop(error)),
    }
}

/// The trace of what would be enforced.
fn trace<'w>(alloc: Global, asked: &Asked<'_, '_>) -> Result<Outcome<'w>, Stop<'w>>
    requires { IsReadQuestion (asked_view asked.now) }
    ensures ok { IfOk result (λ o. (path : List ℕ) → TracingAnswer path (asked_view asked.now) (reply_of o)) }
    ensures mended { IfOk result (λ o. (path : List ℕ) → IsMendedAt Mode.Trace path o) }
    ensures err { IfErr result (λ stop. (path : List ℕ) → OnStop stop (TracingAnswer path (asked_view asked.now))) }
{
    variables_are_few(asked.program);
    texts_are_storable(asked.program);
    match traced(alloc, asked) {
        Ok(text) => Ok(Outcome::Traced(text)),
        Err(error) => Err(refusal_stop(error)),
    }
}

/// The last steps of an execution: those of its mode.
pub(crate) fn last_steps<'w>(
    alloc: Global,
    mode: Mode,
    metas: &Metas,
    program: &Program,
    models: &mut Models<'_>,
    output: &Output<'w>,
) -> Result<Outcome<'w>, Stop<'w>>
    requires read { IsReadQuestion (record { metas = metas.now; program = program.now; models = models.old }) }
    requires limit { output.now.limit ≡ MAX_FILE }
    ensures ok { IfOk result (λ o. last_answer mode output.now.form output.now.path.now (record { metas = metas.now; program = program.now; models = models.old }) (reply_of o)) }
    ensures mended { IfOk result (IsMendedAt mode output.now.path.now) }
    ensures err { IfErr result (λ stop. OnStop stop (last_answer mode output.now.form output.now.path.now (record { metas = metas.now; program = program.now; models = models.old }))) }
{
    match mode {
        Mode::Check => judge(
            alloc,
            &Asked {
                metas,
                program,
                models: &*models,
            },
        ),
        Mode::Enforce => enforce(alloc, metas, program, models, output),
        Mode::Trace => trace(
            alloc,
            &Asked {
                metas,
                program,
                models: &*models,
            },
        ),
    }
}
