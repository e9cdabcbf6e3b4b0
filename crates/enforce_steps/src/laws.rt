ghost use Rattle.answer_texts.specs.Question.{Question};
ghost use Rattle.enforce_steps.specs.Endings.{Ended, OutputData};
ghost use Rattle.enforce_steps.specs.EnforceAnswer.{EnforceAnswer};
ghost use Rattle.enforce_steps.specs.Premises.{IsAskable};
ghost use Rattle.enforce_steps.specs.Satisfying.{LeavesSatisfied};

use enforcement_laws::{made_models_satisfy, unchanged_reports_are_exact};

/// An enforcement that isn't refused leaves a target with which the relations hold and over which no chain of calls is refused: the one that is there, or a
/// sound model, whose text the file becomes (QVT 1.3, sections 7.2 and 7.10.2).
pub fn enforced_targets_satisfy()
    ensures { (q : Question) (o : OutputData) (end : Ended) → IsAskable q → EnforceAnswer q o end → LeavesSatisfied q o end }
{
    made_models_satisfy();
    unchanged_reports_are_exact()
}
