ghost use Rattle.std.specs.Prelude.{◌≡◌, ◌≤◌, ◌⊎◌, List, ℕ, length, map, string_bytes, IfSome, IsSomeAnd};
ghost use Rattle.vault_io.specs.Counts.{Rose};
ghost use Rattle.qvtr_engine.specs.declared.mode.Mode.TheVariants.{Check, Enforce};
ghost use Rattle.qvtr_engine.specs.declared.limits.TheConstants.{MAX_FILE};
ghost use Rattle.object_tables.specs.Models.{ModelData};
ghost use Rattle.qv_syntax.specs.declared.program.Program.{Program};
ghost use Rattle.repair_semantics.specs.declared.report.Report.{Report};
ghost use Rattle.enforce_steps.specs.EnforceAnswer.{IsFit, IsMadeSo};
ghost use Rattle.qvtr_engine.specs.Answer.{Answer, AreAlikeAnswers, HasOneAnswer};
ghost use Rattle.qvtr_engine.specs.CheckWords.{CheckWords};
ghost use Rattle.qvtr_engine.specs.Command.{IsExecution, IsInBounds, IsUsage, generates};
ghost use Rattle.qvtr_engine.specs.CommandEnds.{CommandEnds};
ghost use Rattle.qvtr_engine.specs.CommandNames.{NamesCommand};
ghost use Rattle.qvtr_engine.specs.CommandView.{command_view};
ghost use Rattle.qvtr_engine.specs.ConvertAnswer.{IsConverted, text_in};
ghost use Rattle.qvtr_engine.specs.ConvertWords.{ConvertWords, IsConvert};
ghost use Rattle.qvtr_engine.specs.Enforced.{HasEnforced};
ghost use Rattle.qvtr_engine.specs.ExecutionAnswer.{ExecutionAnswer, output_at};
ghost use Rattle.qvtr_engine.specs.declared.gen_words.GenRequest.{GenRequest};
ghost use Rattle.qvtr_engine.specs.GenAnswer.{GenerationEnds};
ghost use Rattle.qvtr_engine.specs.GenWords.{IsGeneration};
ghost use Rattle.qvtr_engine.specs.Mended.{IsAllNeeded, IsMended};
ghost use Rattle.qvtr_engine.specs.Reply.{Reply, holds, misused, status_of, unread};
ghost use Rattle.qvtr_engine.specs.Run.{Ends, HasCause, HasConverted, IsOwed, IsOwedOrOther, KeepsFiles};
ghost use Rattle.qvtr_engine.specs.StepsAnswer.{Inputs, ResolvesTo, question_of};
ghost use Rattle.qvtr_engine.specs.Target.{target_form, target_path};
ghost use Rattle.qvtr_engine.specs.Verdicts.{HasVerdict, IsJudged};

use crate::command::Command;
use crate::concluding::carry_out;
use crate::converting::convert;
use crate::generating::generate;
use crate::mended::{enforced_files_are_mended, satisfied_files_are_kept};
use crate::reporting::report_words;
use crate::status::Status;
use std::alloc::Global;
use vault_io::{Sink, Vault};

/// Over files that are told, words that are no command have the answer that says so, and those of `convert` have exactly one. Two answers to
/// words are one, or tell two faults that stand in the script of an execution, or two refusals of its last steps of which either may be told: chains
/// of calls or entries that are unmet, or conflicts. It does nothing: its contract is this law.
pub fn one_answer<F: Vault>(words: &[String], vault: &F)
    ensures usage { IfSome (F.files vault.now) (λ files. IsUsage (map string_bytes words.now) → Answer (map string_bytes words.now) files misused) }
    ensures conversions { IfSome (F.files vault.now) (λ files. (c : ConvertWords) → IsConvert (map string_bytes words.now) c →
        HasOneAnswer (map string_bytes words.now) files) }
    ensures single { IfSome (F.files vault.now) (λ files. (reply other : Reply)
        → Answer (map string_bytes words.now) files reply → Answer (map string_bytes words.now) files other
        → AreAlikeAnswers (map string_bytes words.now) files reply other) }
{
    let _ = words;
    let _ = vault;
}

/// Does what a command asks for, and prints what came of it.
fn obey<F: Vault, K: Sink>(
    alloc: Global,
    vault: &mut F,
    out: &mut K,
    command: &Command<'_>,
) -> Status
    requires { IsInBounds (command_view command.now) }
    ensures ends { CommandEnds (F.files vault.old) (command_view command.now) (Rose (F.faults vault.old) (F.faults vault.new))
        (Rose (K.faults out.old) (K.faults out.new)) (K.told out.old) (K.told out.new) (F.files vault.new) result }
    ensures generates { (g : GenRequest) → command_view command.now ≡ generates g →
        GenerationEnds g (K.told out.old) (K.told out.new) (Rose (K.faults out.old) (K.faults out.new)) result }
    ensures vault_faults { F.faults vault.old ≤ F.faults vault.new }
    ensures sink_faults { K.faults out.old ≤ K.faults out.new }
{
    match command {
        Command::Execute { mode, request } => carry_out(alloc, vault, out, *mode, request),
        Command::Convert(request) => convert(alloc, vault, out, request),
        Command::Generate(request) => generate(alloc, out, *request),
    }
}

/// Runs the program: `words` are those after the program's name, `vault` has the files, and all that is printed goes to
/// `out`.
///
/// `check SCRIPT TARGET NAME=PATH..` checks the relations of the script between its models in the direction towards the model TARGET
/// (QVT 1.3, 7.2, 7.3 and 7.10), and prints `yes`, or `no` with the first relation that fails and its least binding that has no partner. Each
/// model and each metamodel of the script has a word NAME=PATH with its file, in XMI or JSON. The files stay as they are.
///
/// `enforce SCRIPT TARGET NAME=PATH..` changes the file of the model TARGET until the relations hold in that direction, and prints how many
/// objects it created, updated and deleted, or `unchanged`. The file keeps its form; all others stay as they are.
///
/// `trace SCRIPT TARGET NAME=PATH..` prints what would be enforced, entry by entry with what it demands, and changes no file.
///
/// `convert FORM META IN OUT` reads the model in the file IN by the metamodel in the file META, each in the form that it has, puts it as OUT
/// in the form `xmi` (XMI 2.5.1) or `json` (RFC 8259), and prints `done`. Only OUT changes, and only where the status is `Done`,
/// or `Fault` since the put or the print failed.
///
/// `gen N SEED` makes the example of classes and tables in memory, with N classes after SEED, enforces its transformation on an empty target,
/// checks it, and enforces it again. It prints what came of that, and reads and changes no file.
///
/// The other statuses say what stands in the way; each has its text.
pub fn run<F: Vault, K: Sink>(alloc: Global, words: &[String], vault: &mut F, out: &mut K) -> Status
    // What is printed, and what the files are then, is the answer to the words over the files, unless memory or the outside fails.
    ensures ends { IfSome (F.files vault.old) (λ files. Ends (map string_bytes words.now) files (Rose (F.faults vault.old) (F.faults vault.new))
        (Rose (K.faults out.old) (K.faults out.new)) (K.told out.old) (K.told out.new) (F.files vault.new) result) }
    ensures cause { IfSome (F.files vault.old) (λ files. HasCause (map string_bytes words.now) files
        (Rose (F.faults vault.old) (F.faults vault.new) ⊎ Rose (K.faults out.old) (K.faults out.new)) result) }
    ensures only { IfSome (F.files vault.old) (λ files. (reply : Reply) → Answer (map string_bytes words.now) files reply →
        IsOwedOrOther (map string_bytes words.now) files (status_of reply) (Rose (F.faults vault.old) (F.faults vault.new) ⊎ Rose (K.faults out.old) (K.faults out.new)) result) }

    // A check that ends with a verdict has passed each step, and this is the verdict; and where the files have one, it is given.
    ensures judged { IfSome (F.files vault.old) (λ files. (w : CheckWords) → IsExecution Check (map string_bytes words.now) w → IsJudged result →
        (reply : Reply) × HasVerdict files w reply × (status_of reply ≡ result)) }
    ensures verdict { IfSome (F.files vault.old) (λ files. (w : CheckWords) (reply : Reply) → IsExecution Check (map string_bytes words.now) w →
        HasVerdict files w reply → IsOwed (status_of reply) (Rose (F.faults vault.old) (F.faults vault.new) ⊎ Rose (K.faults out.old) (K.faults out.new)) result) }

    // A conversion that is done has put the text of the model that the words name; and where they name one, it is done.
    ensures converted { IfSome (F.files vault.old) (λ files. (c : ConvertWords) → IsConvert (map string_bytes words.now) c → result ≡ Status.Done →
        HasConverted files c (F.files vault.new)) }
    ensures converts { IfSome (F.files vault.old) (λ files. (c : ConvertWords) (m : ModelData) → IsConvert (map string_bytes words.now) c →
        IsConverted files c m → length (text_in c.form m) ≤ MAX_FILE →
        IsOwed Status.Done (Rose (F.faults vault.old) (F.faults vault.new) ⊎ Rose (K.faults out.old) (K.faults out.new)) result) }

    // An enforcement that is done leaves the files as they are, or the target's file with the text of the model that is made.
    ensures enforced { IfSome (F.files vault.old) (λ files. (w : CheckWords) → IsExecution Enforce (map string_bytes words.now) w → result ≡ Status.Done →
        HasEnforced files w (F.files vault.new)) }
    // Over the files that it leaves a check with the same words says yes, and a further enforcement changes nothing.
    ensures mended { IfSome (F.files vault.old) (λ files. (w : CheckWords) → IsExecution Enforce (map string_bytes words.now) w → result ≡ Status.Done →
        IsSomeAnd (F.files vault.new) (λ then. IsMended then w)) }
    // Where a check of the files says yes, and each object of the target is needed, an enforcement that is done leaves them as they are.
    ensures kept { IfSome (F.files vault.old) (λ files. (w : CheckWords) → IsExecution Enforce (map string_bytes words.now) w →
        ExecutionAnswer Check files w holds → IsAllNeeded files w → result ≡ Status.Done → F.files vault.new ≡ Some files) }
    // And where nothing stands against what is made of the target, an enforcement is done.
    ensures enforces { IfSome (F.files vault.old) (λ files. (w : CheckWords) (i : Inputs files w) (program : Program) (made : ModelData) (report : Report) →
        IsExecution Enforce (map string_bytes words.now) w → ResolvesTo files w i program → IsMadeSo (question_of files w i program) made report →
        IsFit (output_at (target_form files w) (target_path w)) made →
        IsOwed Status.Done (Rose (F.faults vault.old) (F.faults vault.new) ⊎ Rose (K.faults out.old) (K.faults out.new)) result) }

    // An example that is run is told by its summary, and nothing but want of memory and the print stands against it.
    ensures generates { (g : GenRequest) → IsGeneration (map string_bytes words.now) g →
        GenerationEnds g (K.told out.old) (K.told out.new) (Rose (K.faults out.old) (K.faults out.new)) result }

    // These hold of files that aren't told, too. Words that are no command may be answered by want of memory only where the first one names a command.
    ensures usage { (result ≡ Status.Usage → IsUsage (map string_bytes words.now))
        × (IsUsage (map string_bytes words.now) → (result ≡ Status.Usage) ⊎ ((result ≡ Status.Fault) × Rose (K.faults out.old) (K.faults out.new))
        ⊎ ((result ≡ Status.NoMemory) × NamesCommand (map string_bytes words.now))) }
    ensures fault { result ≡ Status.Fault → Rose (F.faults vault.old) (F.faults vault.new) ⊎ Rose (K.faults out.old) (K.faults out.new)
        ⊎ IsSomeAnd (F.files vault.old) (λ files. (path : List ℕ) × Answer (map string_bytes words.now) files (unread path)) }
    ensures files { KeepsFiles (map string_bytes words.now) (F.files vault.old) (F.files vault.new) result }
    ensures vault_faults { F.faults vault.old ≤ F.faults vault.new }
    ensures sink_faults { K.faults out.old ≤ K.faults out.new }
{
    enforced_files_are_mended();
    satisfied_files_are_kept();
    match Command::read(alloc, words) {
        Ok(command) => obey(alloc, vault, out, &command),
        Err(error) => report_words(out, error),
    }
}
