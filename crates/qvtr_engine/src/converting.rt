//! The conversion of a model to a file of another form.
ghost use Rattle.std.specs.Prelude.{◌≡◌, ◌≤◌, ◌∷◌, [], IfOk, IfErr, IfSome};
ghost use Rattle.vault_io.specs.Counts.{Rose};
ghost use Rattle.model_assembly.specs.declared.fault.Externs.TheVariants as externs;
ghost use Rattle.model_files.specs.Files.{IsFileError};
ghost use Rattle.qvtr_engine.specs.ConvertAnswer.{ConvertAnswer};
ghost use Rattle.qvtr_engine.specs.ConvertView.{convert_view};
ghost use Rattle.qvtr_engine.specs.ConvertWords.{convert_paths};
ghost use Rattle.qvtr_engine.specs.FileStops.{Stops};
ghost use Rattle.qvtr_engine.specs.Command.{converts};
ghost use Rattle.qvtr_engine.specs.CommandEnds.{CommandEnds};
ghost use Rattle.qvtr_engine.specs.Converting.{IsDuePut, IsShort, IsTextAt, IsTooLong, IsWritten};
ghost use Rattle.qvtr_engine.specs.ReadingFiles.{IsUnread};
ghost use Rattle.qvtr_engine.specs.Reply as spec;
ghost use Rattle.qvtr_engine.specs.Stops.{StoppedBy};

use crate::convert_words::ConvertRequest;
use crate::limits::MAX_FILE;
use crate::outcome::Stop;
use crate::putting::put;
use crate::reading_files::{load_file, metamodel_at, model_in};
use crate::rendering::{DONE, fault_text};
use crate::reporting::report_stop;
use crate::status::Status;
use enforce_steps::model_text;
use model_files::Form;
use mof_metamodel::{MetaModel, NoMemory, Seq};
use std::alloc::Global;
use vault_io::{Sink, Vault};

/// What a conversion puts, and what is printed where the put fails: both are made before it, so that it needs no memory.
#[derive(Drop)]
pub(crate) struct Conversion {
    pub text: Seq<u8>,
    pub failure: Seq<u8>,
}

/// The text in this form of the model that the bytes of a file are.
fn text_of<'w>(
    alloc: Global,
    meta: &MetaModel,
    path: &'w str,
    bytes: &[u8],
    form: Form,
) -> Result<Seq<u8>, Stop<'w>>
    ensures ok { IfOk result (IsWritten meta.now bytes.now form) }
    ensures err { IfErr result (λ stop. IsUnread stop meta.now path.now (IsFileError meta.now externs.None bytes.now)) }
{
    let read = model_in(alloc, meta, path, bytes)?;
    match model_text(alloc, &read.model, form) {
        Ok(text) => Ok(text),
        Err(NoMemory) => Err(Stop::NoMemory),
    }
}

/// The text in this form of the model that a file is.
fn text_at<'w, F: Vault>(
    alloc: Global,
    vault: &mut F,
    meta: &MetaModel,
    path: &'w str,
    form: Form,
) -> Result<Seq<u8>, Stop<'w>>
    ensures ok { IfOk result (λ text. IfSome (F.files vault.old) (λ files. IsTextAt files path.now meta.now form text)) }
    ensures err { IfErr result (λ stop. StoppedBy stop (F.files vault.old) (λ files. Stops files path.now meta.now (IsFileError meta.now externs.None))
        (Rose (F.faults vault.old) (F.faults vault.new)) (path.now ∷ [])) }
    ensures files { F.files vault.new ≡ F.files vault.old }
    ensures faults { F.faults vault.old ≤ F.faults vault.new }
{
    let bytes = load_file(alloc, vault, path)?;
    text_of(alloc, meta, path, bytes.as_slice(), form)
}

/// The conversion that puts a text, unless it is longer than a file may be.
fn conversion_of<'w>(alloc: Global, path: &'w str, text: Seq<u8>) -> Result<Conversion, Stop<'w>>
    ensures ok { IfOk result (IsShort path.now text) }
    ensures err { IfErr result (λ stop. IsTooLong stop path.now text) }
{
    if text.len() > MAX_FILE {
        return Err(Stop::TooLong(path));
    }
    match fault_text(alloc, path) {
        Ok(failure) => Ok(Conversion { text, failure }),
        Err(NoMemory) => Err(Stop::NoMemory),
    }
}

/// Reads what a conversion asks for, and makes what it puts.
fn prepare<'w, F: Vault>(
    alloc: Global,
    vault: &mut F,
    request: &ConvertRequest<'w>,
) -> Result<Conversion, Stop<'w>>
    ensures ok { IfOk result (λ c. IsDuePut (F.files vault.old) (convert_view request.now) c.text) }
    ensures failure { IfOk result (λ c. c.failure ≡ spec.fault_text request.now.output.now) }
    ensures err { IfErr result (λ stop. StoppedBy stop (F.files vault.old) (λ files. ConvertAnswer files (convert_view request.now))
        (Rose (F.faults vault.old) (F.faults vault.new)) (convert_paths (convert_view request.now))) }
    ensures files { F.files vault.new ≡ F.files vault.old }
    ensures faults { F.faults vault.old ≤ F.faults vault.new }
{
    let meta = metamodel_at(alloc, vault, request.metamodel)?;
    let text = text_at(alloc, vault, &meta, request.model, request.form);
    drop(meta);
    let text = text?;
    conversion_of(alloc, request.output, text)
}

/// Converts the model that the words name, and prints what came of it.
pub(crate) fn convert<F: Vault, K: Sink>(
    alloc: Global,
    vault: &mut F,
    out: &mut K,
    request: &ConvertRequest<'_>,
) -> Status
    ensures ends { CommandEnds (F.files vault.old) (converts (convert_view request.now)) (Rose (F.faults vault.old) (F.faults vault.new))
        (Rose (K.faults out.old) (K.faults out.new)) (K.told out.old) (K.told out.new) (F.files vault.new) result }
    ensures vault_faults { F.faults vault.old ≤ F.faults vault.new }
    ensures sink_faults { K.faults out.old ≤ K.faults out.new }
{
    match prepare(alloc, vault, request) {
        Ok(conversion) => put(
            vault,
            out,
            request.output,
            conversion.text.as_slice(),
            DONE,
            conversion.failure.as_slice(),
        ),
        Err(stop) => report_stop(alloc, out, &stop),
    }
}
