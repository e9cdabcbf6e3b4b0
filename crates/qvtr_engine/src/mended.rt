//! Laws on the files after an enforcement, each the contract of a function that does nothing (QVT 1.3, sections 7.2 and 7.10.2).
ghost use Rattle.std.specs.Prelude.{◌≡◌, true};
ghost use Rattle.vault_io.specs.Files.{Files};
ghost use Rattle.qvtr_engine.specs.declared.mode.Mode.TheVariants.{Check, Enforce};
ghost use Rattle.qvtr_engine.specs.declared.status.Status.TheVariants.{Done};
ghost use Rattle.qvtr_engine.specs.Answer.{files_after};
ghost use Rattle.qvtr_engine.specs.CheckWords.{CheckWords, check_paths};
ghost use Rattle.qvtr_engine.specs.ExecutionAnswer.{ExecutionAnswer};
ghost use Rattle.qvtr_engine.specs.Mended.{IsAllNeeded, IsMended};
ghost use Rattle.qvtr_engine.specs.Paths.{are_all_apart};
ghost use Rattle.qvtr_engine.specs.Reply.{Reply, holds, kept, status_of};

use enforce_steps::enforced_targets_satisfy;
use enforcement_laws::{made_models_stay, read_back_models_satisfy, satisfied_models_stay};

/// Over the files that an enforcement leaves that is done, a check with the same words says yes, and a further enforcement leaves the target as it is: the
/// text that was put is read as the model that was made, with which the relations hold.
pub fn enforced_files_are_mended()
    ensures { (files : Files) (w : CheckWords) (reply : Reply) → are_all_apart (check_paths w) ≡ true
        → ExecutionAnswer Enforce files w reply → status_of reply ≡ Done → IsMended (files_after reply files) w }
{
    read_back_models_satisfy();
    made_models_stay();
    enforced_targets_satisfy()
}

/// Where a check says yes and each object of the target is needed, an enforcement that is done leaves the target as it is.
pub fn satisfied_files_are_kept()
    ensures { (files : Files) (w : CheckWords) (reply : Reply) → ExecutionAnswer Check files w holds → IsAllNeeded files w
        → ExecutionAnswer Enforce files w reply → status_of reply ≡ Done → reply ≡ kept }
{
    satisfied_models_stay()
}
