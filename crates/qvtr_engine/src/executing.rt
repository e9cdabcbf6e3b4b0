//! The execution of a script over models: its steps over the files of a vault, in their order.
ghost use Rattle.std.specs.Prelude.{◌≡◌, ◌≤◌, map, length, IfOk, IfErr, IfSome};
ghost use Rattle.vault_io.specs.Counts.{Rose};
ghost use Rattle.script_scopes.specs.Environments.{metamodel_names};
ghost use Rattle.qvtr_engine.specs.CheckWords.{check_paths};
ghost use Rattle.qvtr_engine.specs.CheckedModels.{model_files, numbered_models};
ghost use Rattle.qvtr_engine.specs.CheckedNames.{NamesFit, name_of};
ghost use Rattle.qvtr_engine.specs.ExecutionAnswer.{ExecutionAnswer, last_over};
ghost use Rattle.qvtr_engine.specs.FoundFiles.{items_of, names_of};
ghost use Rattle.qvtr_engine.specs.LastSteps.{AnswerRead, IsMendedFor};
ghost use Rattle.qvtr_engine.specs.Outcome.{reply_of};
ghost use Rattle.qvtr_engine.specs.ReadModels.{AreRead};
ghost use Rattle.qvtr_engine.specs.RequestView.{request_view};
ghost use Rattle.qvtr_engine.specs.ScriptFile.{IsSpelled};
ghost use Rattle.qvtr_engine.specs.StepsAnswer.{AnswerOver, AnswerWith};
ghost use Rattle.qvtr_engine.specs.Stops.{OnStop, StoppedBy};

use crate::check_request::CheckRequest;
use crate::input_names::fit_names;
use crate::judging::resolve_script;
use crate::last_steps::last_steps;
use crate::limits::MAX_FILE;
use crate::mode::Mode;
use crate::numbering_inputs::number_models;
use crate::outcome::{Outcome, Stop};
use crate::reading_inputs::{ReadModels, read_metamodels, read_models};
use crate::script_input::script_at;
use enforce_steps::Output;
use ocl_environments::Metas;
use qv_syntax::Script;
use script_sizes::clauses_are_short;
use std::alloc::Global;
use vault_io::Vault;

/// The steps that follow once all files are read.
fn execute_read<'w>(
    alloc: Global,
    mode: Mode,
    request: &CheckRequest<'w>,
    script: &Script,
    metas: &Metas,
    read: ReadModels<'w, '_>,
) -> Result<Outcome<'w>, Stop<'w>>
    requires spelled { IsSpelled script.now }
    requires fits { NamesFit (request_view request.now) script.now }
    requires count { length metas.now ≡ length (metamodel_names script.now) }
    requires names { names_of read.found.items ≡ map name_of (model_files (request_view request.now) script.now) }
    requires read { AreRead script.now metas.now read.found.items }
    ensures ok { IfOk result (λ o. AnswerRead mode (request_view request.now) script.now metas.now
        (numbered_models (request_view request.now) script.now (items_of read.entry.found.items)) read.entry.form (reply_of o)) }
    ensures mended { IfOk result (IsMendedFor mode (request_view request.now)) }
    ensures err { IfErr result (λ stop. OnStop stop (AnswerRead mode (request_view request.now) script.now metas.now
        (numbered_models (request_view request.now) script.now (items_of read.entry.found.items)) read.entry.form)) }
{
    clauses_are_short();
    let program = resolve_script(alloc, request.script, script, metas, request.target)?;
    let output = Output {
        form: read.form,
        path: request.target_path(),
        limit: MAX_FILE,
    };
    let mut models = number_models(alloc, script.models.as_slice(), read.found)?;
    last_steps(alloc, mode, metas, &program, &mut models, &output)
}

/// The steps from the reading of the models on.
fn execute_models<'w, F: Vault>(
    alloc: Global,
    vault: &mut F,
    mode: Mode,
    request: &CheckRequest<'w>,
    script: &Script,
    metas: &Metas,
) -> Result<Outcome<'w>, Stop<'w>>
    requires spelled { IsSpelled script.now }
    requires fits { NamesFit (request_view request.now) script.now }
    requires count { length metas.now ≡ length (metamodel_names script.now) }
    ensures ok { IfOk result (λ o. IfSome (F.files vault.old) (λ files.
        AnswerWith (last_over mode files (request_view request.now)) files (request_view request.now) script.now metas.now (reply_of o))) }
    ensures mended { IfOk result (IsMendedFor mode (request_view request.now)) }
    ensures err { IfErr result (λ stop. StoppedBy stop (F.files vault.old)
        (λ files. AnswerWith (last_over mode files (request_view request.now)) files (request_view request.now) script.now metas.now)
        (Rose (F.faults vault.old) (F.faults vault.new)) (check_paths (request_view request.now))) }
    ensures files { F.files vault.new ≡ F.files vault.old }
    ensures faults { F.faults vault.old ≤ F.faults vault.new }
{
    let read = read_models(alloc, vault, request, script, metas)?;
    execute_read(alloc, mode, request, script, metas, read)
}

/// The steps from the reading of the metamodels on.
fn execute_files<'w, F: Vault>(
    alloc: Global,
    vault: &mut F,
    mode: Mode,
    request: &CheckRequest<'w>,
    script: &Script,
) -> Result<Outcome<'w>, Stop<'w>>
    requires spelled { IsSpelled script.now }
    requires fits { NamesFit (request_view request.now) script.now }
    ensures ok { IfOk result (λ o. IfSome (F.files vault.old) (λ files.
        AnswerOver (last_over mode files (request_view request.now)) files (request_view request.now) script.now (reply_of o))) }
    ensures mended { IfOk result (IsMendedFor mode (request_view request.now)) }
    ensures err { IfErr result (λ stop. StoppedBy stop (F.files vault.old)
        (λ files. AnswerOver (last_over mode files (request_view request.now)) files (request_view request.now) script.now)
        (Rose (F.faults vault.old) (F.faults vault.new)) (check_paths (request_view request.now))) }
    ensures files { F.files vault.new ≡ F.files vault.old }
    ensures faults { F.faults vault.old ≤ F.faults vault.new }
{
    let metas = read_metamodels(alloc, vault, request, script)?;
    execute_models(alloc, vault, mode, request, script, &metas)
}

/// Executes the script that the words name over their models, in the direction towards their target.
pub(crate) fn execute<'w, F: Vault>(
    alloc: Global,
    vault: &mut F,
    mode: Mode,
    request: &CheckRequest<'w>,
) -> Result<Outcome<'w>, Stop<'w>>
    ensures ok { IfOk result (λ o. IfSome (F.files vault.old) (λ files. ExecutionAnswer mode files (request_view request.now) (reply_of o))) }
    ensures mended { IfOk result (IsMendedFor mode (request_view request.now)) }
    ensures err { IfErr result (λ stop. StoppedBy stop (F.files vault.old) (λ files. ExecutionAnswer mode files (request_view request.now))
        (Rose (F.faults vault.old) (F.faults vault.new)) (check_paths (request_view request.now))) }
    ensures files { F.files vault.new ≡ F.files vault.old }
    ensures faults { F.faults vault.old ≤ F.faults vault.new }
{
    let script = script_at(alloc, vault, request.script)?;
    fit_names(alloc, request, &script)?;
    execute_files(alloc, vault, mode, request, &script)
}
