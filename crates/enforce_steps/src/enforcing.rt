//! The enforcement of a program over models.
ghost use Rattle.std.specs.Prelude.{IfOk, IfErr};
ghost use Rattle.enforce_steps.specs.Endings.{OnRefusal, ended_of, output_view};
ghost use Rattle.enforce_steps.specs.EnforceAnswer.{EnforceAnswer};
ghost use Rattle.enforce_steps.specs.Premises.{IsAskable};
ghost use Rattle.enforce_steps.specs.Satisfying.{LeavesSatisfied};

use crate::cause::StepError;
use crate::laws::enforced_targets_satisfy;
use crate::mending::{applied, ready};
use crate::outcome::Enforced;
use crate::output::Output;
use answer_texts::Asked;
use ocl_environments::Metas;
use ocl_eval::Models;
use qv_syntax::Program;
use std::alloc::Global;

/// Makes the target among the models what is demanded of it, and tells what its file becomes: that it stays as it is, or its bytes, with a report. The
/// relations then hold with it, and no chain of calls is refused. Of the models afterwards, also where a step refuses, nothing is said: the target may have
/// become what is made.
///
/// # Errors
///
/// The first refusal in the order of the steps: a rule that is broken; a chain of entries or an entry that is refused; a conflict; of the model that would be
/// made that it has too many objects, its first breach, that it is too deep, that its text is too long. `NoMemory` where memory runs out.
pub fn enforced(
    alloc: Global,
    metas: &Metas,
    program: &Program,
    models: &mut Models<'_>,
    output: &Output<'_>,
) -> Result<Enforced, StepError>
    requires { IsAskable (record { metas = metas.now; program = program.now; models = models.old }) }
    ensures ok { IfOk result (λ e. EnforceAnswer (record { metas = metas.now; program = program.now; models = models.old }) (output_view output.now) (ended_of e)) }
    ensures err { IfErr result (λ e. OnRefusal e (EnforceAnswer (record { metas = metas.now; program = program.now; models = models.old }) (output_view output.now))) }
    ensures holds { IfOk result (λ e. LeavesSatisfied (record { metas = metas.now; program = program.now; models = models.old }) (output_view output.now) (ended_of e)) }
{
    enforced_targets_satisfy();
    let asked = Asked {
        metas,
        program,
        models: &*models,
    };
    match ready(alloc, &asked, output) {
        Ok(edits) => applied(alloc, edits, models.get_mut(program.target), output),
        Err(error) => Err(error),
    }
}
