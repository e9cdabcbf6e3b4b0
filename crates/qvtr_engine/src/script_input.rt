//! The second step of `check`: the script is read.
ghost use Rattle.std.specs.Prelude.{◌≡◌, ◌≤◌, ◌∷◌, [], IfOk, IfErr, IfSome};
ghost use Rattle.vault_io.specs.Counts.{Rose};
ghost use Rattle.script_files.specs.ScriptErrors as errors;
ghost use Rattle.script_files.specs.ScriptTexts.{script_text};
ghost use Rattle.script_files.specs.Scripts.{SpellsScript, IsTold};
ghost use Rattle.qvtr_engine.specs.Reply.{faulty};
ghost use Rattle.qvtr_engine.specs.ScriptFile.{HasShortScript, IsMisspelled, IsScriptAt, IsSpelled, ScriptStops};
ghost use Rattle.qvtr_engine.specs.Stops.{OnStop, StoppedBy};

use crate::outcome::Stop;
use mof_metamodel::{NoMemory, Seq};
use ql_lex::MAX_SCRIPT;
use qv_syntax::Script;
use script_files::{ScriptError, read_script, script_fault_text};
use std::alloc::Global;
use vault_io::{LoadError, Vault, load};

/// The bytes of a file that is no longer than a script may be.
fn load_script<'w, F: Vault>(
    alloc: Global,
    vault: &mut F,
    path: &'w str,
) -> Result<Seq<u8>, Stop<'w>>
    ensures ok { IfOk result (λ bytes. IfSome (F.files vault.old) (λ files. HasShortScript files path.now bytes)) }
    ensures err { IfErr result (λ stop. StoppedBy stop (F.files vault.old) (λ files. ScriptStops files path.now)
        (Rose (F.faults vault.old) (F.faults vault.new)) (path.now ∷ [])) }
    ensures files { F.files vault.new ≡ F.files vault.old }
    ensures faults { F.faults vault.old ≤ F.faults vault.new }
{
    match load(alloc, vault, path, MAX_SCRIPT) {
        Ok(bytes) => Ok(bytes),
        Err(LoadError::Failed) => Err(Stop::Fault(path)),
        Err(LoadError::TooLong) => Err(Stop::TooLong(path)),
        Err(LoadError::NoMemory) => Err(Stop::NoMemory),
    }
}

/// What stops the work at an error that is told of a script.
fn script_stop<'w>(alloc: Global, path: &str, error: &ScriptError) -> Stop<'w>
    ensures { OnStop result (λ reply. reply ≡ faulty (errors.is_limit error.now) (script_text path.now error.now)) }
{
    let is_limit = error.is_limit();
    match script_fault_text(alloc, path, error) {
        Ok(line) => Stop::Faulty { is_limit, line },
        Err(NoMemory) => Stop::NoMemory,
    }
}

/// What stops the work at an error of a script, or for want of memory.
fn script_unread<'w>(alloc: Global, path: &str, error: &ScriptError) -> Stop<'w>
    ensures { OnStop result (λ reply. IsTold error.now × (reply ≡ faulty (errors.is_limit error.now) (script_text path.now error.now))) }
{
    match error {
        ScriptError::NoMemory => Stop::NoMemory,
        _ => script_stop(alloc, path, error),
    }
}

/// The script that the bytes of a file are.
fn script_in<'w>(alloc: Global, path: &str, bytes: &[u8]) -> Result<Script, Stop<'w>>
    ensures ok { IfOk result (SpellsScript bytes.now) }
    ensures err { IfErr result (λ stop. OnStop stop (IsMisspelled path.now bytes.now)) }
{
    match read_script(alloc, bytes) {
        Ok(script) => Ok(script),
        Err(error) => Err(script_unread(alloc, path, &error)),
    }
}

/// The script that a file is.
pub(crate) fn script_at<'w, F: Vault>(
    alloc: Global,
    vault: &mut F,
    path: &'w str,
) -> Result<Script, Stop<'w>>
    ensures ok { IfOk result (λ script. IfSome (F.files vault.old) (λ files. IsScriptAt files path.now script)) }
    ensures spelled { IfOk result IsSpelled }
    ensures err { IfErr result (λ stop. StoppedBy stop (F.files vault.old) (λ files. ScriptStops files path.now)
        (Rose (F.faults vault.old) (F.faults vault.new)) (path.now ∷ [])) }
    ensures files { F.files vault.new ≡ F.files vault.old }
    ensures faults { F.faults vault.old ≤ F.faults vault.new }
{
    let bytes = load_script(alloc, vault, path)?;
    script_in(alloc, path, bytes.as_slice())
}
