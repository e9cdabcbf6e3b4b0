//! Files that are read: metamodels, and models with the form that their file has.
ghost use Rattle.std.specs.Prelude.{◌≡◌, ◌≤◌, ◌∷◌, [], IfOk, IfErr, IfSome};
ghost use Rattle.vault_io.specs.Counts.{Rose};
ghost use Rattle.model_assembly.specs.declared.fault.Externs.TheVariants as externs;
ghost use Rattle.model_files.specs.Emof.{emof};
ghost use Rattle.model_files.specs.FaultTexts.{IsKnownError};
ghost use Rattle.model_files.specs.FileForm.{form_of};
ghost use Rattle.model_files.specs.Files.{FileSpells, IsFileError, MetaSpells, IsMetaFileError};
ghost use Rattle.qvtr_engine.specs.ConvertAnswer.{IsMetamodelAt, IsModelAt};
ghost use Rattle.qvtr_engine.specs.FileStops.{HasShortFile, Unloaded, Stops};
ghost use Rattle.qvtr_engine.specs.ReadingFiles.{IsMisread, IsUnread, is_starved, IsStopBy};
ghost use Rattle.qvtr_engine.specs.ReadModels.{IsReadBy};
ghost use Rattle.qvtr_engine.specs.Stops.{StoppedBy};
ghost use Rattle.qvtr_engine.specs.Target.{form_at};

use crate::limits::MAX_FILE;
use crate::outcome::Stop;
use model_files::{
    FileError, Read, fault_text as error_text, metamodel_fault_text, read_any, read_metamodel,
};
use mof_metamodel::{MetaModel, NoMemory, Seq};
use std::alloc::Global;
use vault_io::{LoadError, Vault, load};

/// The bytes of a file that is no longer than a file may be.
pub(crate) fn load_file<'w, F: Vault>(
    alloc: Global,
    vault: &mut F,
    path: &'w str,
) -> Result<Seq<u8>, Stop<'w>>
    ensures ok { IfOk result (λ bytes. IfSome (F.files vault.old) (λ files. HasShortFile files path.now bytes)) }
    ensures err { IfErr result (λ stop. StoppedBy stop (F.files vault.old) (λ files. Unloaded files path.now)
        (Rose (F.faults vault.old) (F.faults vault.new)) (path.now ∷ [])) }
    ensures files { F.files vault.new ≡ F.files vault.old }
    ensures faults { F.faults vault.old ≤ F.faults vault.new }
{
    match load(alloc, vault, path, MAX_FILE) {
        Ok(bytes) => Ok(bytes),
        Err(LoadError::Failed) => Err(Stop::Fault(path)),
        Err(LoadError::TooLong) => Err(Stop::TooLong(path)),
        Err(LoadError::NoMemory) => Err(Stop::NoMemory),
    }
}

/// What stops the work at an error that is told of a metamodel's file.
fn metamodel_stop<'w>(alloc: Global, path: &'w str, error: &FileError) -> Stop<'w>
    requires { IsKnownError emof error.now }
    ensures { IsMisread result emof path.now error.now }
{
    let is_limit = error.is_limit();
    match metamodel_fault_text(alloc, path, error) {
        Ok(line) => Stop::Faulty { is_limit, line },
        Err(NoMemory) => Stop::NoMemory,
    }
}

/// What stops the work at an error that is told of a model's file.
fn model_stop<'w>(alloc: Global, meta: &MetaModel, path: &'w str, error: &FileError) -> Stop<'w>
    requires { IsKnownError meta.now error.now }
    ensures { IsMisread result meta.now path.now error.now }
{
    let is_limit = error.is_limit();
    match error_text(alloc, meta, path, error) {
        Ok(line) => Stop::Faulty { is_limit, line },
        Err(NoMemory) => Stop::NoMemory,
    }
}

/// Whether memory could not be had, which isn't told of a file.
fn is_starved(error: &FileError) -> bool
    ensures { result ≡ is_starved error.now }
{
    match error {
        FileError::NoMemory => true,
        _ => false,
    }
}

/// What stops the work at an error of a metamodel's file, or for want of memory.
fn metamodel_unread<'w>(alloc: Global, path: &'w str, error: &FileError) -> Stop<'w>
    requires { IsKnownError emof error.now }
    ensures { IsStopBy (is_starved error.now) result emof path.now error.now }
{
    if is_starved(error) {
        Stop::NoMemory
    } else {
        metamodel_stop(alloc, path, error)
    }
}

/// What stops the work at an error of a model's file, or for want of memory.
fn model_unread<'w>(alloc: Global, meta: &MetaModel, path: &'w str, error: &FileError) -> Stop<'w>
    requires { IsKnownError meta.now error.now }
    ensures { IsStopBy (is_starved error.now) result meta.now path.now error.now }
{
    if is_starved(error) {
        Stop::NoMemory
    } else {
        model_stop(alloc, meta, path, error)
    }
}

/// The metamodel that the bytes of a file are.
fn metamodel_in<'w>(alloc: Global, path: &'w str, bytes: &[u8]) -> Result<MetaModel, Stop<'w>>
    ensures ok { IfOk result (MetaSpells bytes.now) }
    ensures err { IfErr result (λ stop. IsUnread stop emof path.now (IsMetaFileError bytes.now)) }
{
    match read_metamodel(alloc, bytes) {
        Ok(meta) => Ok(meta),
        Err(error) => {
            let unread = metamodel_unread(alloc, path, &error);
            drop(error);
            Err(unread)
        }
    }
}

/// The metamodel that a file is.
pub(crate) fn metamodel_at<'w, F: Vault>(
    alloc: Global,
    vault: &mut F,
    path: &'w str,
) -> Result<MetaModel, Stop<'w>>
    ensures ok { IfOk result (λ meta. IfSome (F.files vault.old) (λ files. IsMetamodelAt files path.now meta)) }
    ensures err { IfErr result (λ stop. StoppedBy stop (F.files vault.old) (λ files. Stops files path.now emof IsMetaFileError)
        (Rose (F.faults vault.old) (F.faults vault.new)) (path.now ∷ [])) }
    ensures files { F.files vault.new ≡ F.files vault.old }
    ensures faults { F.faults vault.old ≤ F.faults vault.new }
{
    let bytes = load_file(alloc, vault, path)?;
    metamodel_in(alloc, path, bytes.as_slice())
}

/// The model that the bytes of a file are, with the form that they have.
pub(crate) fn model_in<'w, 'm>(
    alloc: Global,
    meta: &'m MetaModel,
    path: &'w str,
    bytes: &[u8],
) -> Result<Read<'m>, Stop<'w>>
    ensures ok { IfOk result (λ read. FileSpells meta.now externs.None bytes.now read.model) }
    ensures form { IfOk result (λ read. read.form ≡ form_of bytes.now) }
    ensures read { IfOk result (λ read. IsReadBy meta.now read.model) }
    ensures err { IfErr result (λ stop. IsUnread stop meta.now path.now (IsFileError meta.now externs.None bytes.now)) }
{
    match read_any(alloc, meta, bytes) {
        Ok(read) => {
            // What every model keeps is told by each of its calls.
            let _ = read.model.end();
            Ok(read)
        }
        Err(error) => {
            let unread = model_unread(alloc, meta, path, &error);
            drop(error);
            Err(unread)
        }
    }
}

/// The model that a file is, with the form that the file has.
pub(crate) fn model_at<'w, 'm, F: Vault>(
    alloc: Global,
    vault: &mut F,
    meta: &'m MetaModel,
    path: &'w str,
) -> Result<Read<'m>, Stop<'w>>
    ensures ok { IfOk result (λ read. IfSome (F.files vault.old) (λ files. IsModelAt files path.now meta.now read.model)) }
    ensures form { IfOk result (λ read. IfSome (F.files vault.old) (λ files. read.form ≡ form_at files path.now)) }
    ensures read { IfOk result (λ read. IsReadBy meta.now read.model) }
    ensures err { IfErr result (λ stop. StoppedBy stop (F.files vault.old) (λ files. Stops files path.now meta.now (IsFileError meta.now externs.None))
        (Rose (F.faults vault.old) (F.faults vault.new)) (path.now ∷ [])) }
    ensures files { F.files vault.new ≡ F.files vault.old }
    ensures faults { F.faults vault.old ≤ F.faults vault.new }
{
    let bytes = load_file(alloc, vault, path)?;
    model_in(alloc, meta, path, bytes.as_slice())
}
