//! A file as a model, or as a metamodel, in whichever form it is.
ghost use Rattle.std.specs.Prelude.{◌≡◌, IfOk, IfErr, IsOkUnless};
ghost use Rattle.mof_metamodel.specs.declared.desc.MetaDesc.{MetaDesc};
ghost use Rattle.object_tables.specs.Models.{ModelData};
ghost use Rattle.model_assembly.specs.declared.fault.Externs.TheVariants as externs;
ghost use Rattle.model_files.specs.declared.file_form.Form.TheVariants as forms;
ghost use Rattle.model_files.specs.Emof.{emof};
ghost use Rattle.model_files.specs.FaultTexts.{IsKnownError};
ghost use Rattle.model_files.specs.FileForm.{form_of};
ghost use Rattle.model_files.specs.FileErrors.{IsToldError};
ghost use Rattle.model_assembly.specs.Assembled.{IsWhole, IsAssembled};
ghost use Rattle.model_files.specs.Files.{SpellsIn, IsErrorIn, FileSpells, IsFileError, MetaSpells, IsMetaFileError};

use crate::emof::emof_metamodel;
use crate::fault::{FileError, JsonFault};
use crate::file_form::{Form, form_of};
use crate::json_filed::filed_of;
use crate::json_reading::read_objects;
use crate::metamodels::metamodel_of;
use model_assembly::{AssemblyError, Externs, Filed, assemble};
use mof_metamodel::MetaModel;
use object_tables::Model;
use std::alloc::Global;
use xmi_profile::read_model;

/// A model that was read, and the form of its file.
#[derive(Drop)]
pub struct Read<'m> {
    pub model: Model<'m>,
    pub form: Form,
}

/// The model of what a file of JSON writes.
fn assembled<'m>(alloc: Global, meta: &'m MetaModel, filed: Filed) -> Result<Model<'m>, FileError>
    requires { IsWhole meta.now filed }
    ensures ok { IfOk result (IsAssembled meta.now filed) }
    ensures fault { IfErr result (IsToldError meta.now filed) }
{
    match assemble(alloc, meta, filed) {
        Ok(model) => Ok(model),
        Err(AssemblyError::Content(fault)) => Err(FileError::Json(JsonFault::Content(fault))),
        Err(AssemblyError::NoMemory) => Err(FileError::NoMemory),
    }
}

/// The model that a file of JSON is.
fn read_json<'m>(alloc: Global, meta: &'m MetaModel, bytes: &[u8]) -> Result<Model<'m>, FileError>
    ensures ok { IfOk result (SpellsIn meta.now externs.None bytes.now forms.Json) }
    ensures fault { IfErr result (IsErrorIn meta.now externs.None bytes.now forms.Json) }
{
    // What every metamodel keeps is known here.
    let _ = meta.class_count();
    let value = read_objects(alloc, meta, bytes)?;
    let filed = filed_of(alloc, meta, &value);
    drop(value);
    let filed = filed?;
    assembled(alloc, meta, filed)
}

/// The model that a file of XMI is.
fn read_xmi<'m>(
    alloc: Global,
    meta: &'m MetaModel,
    outside: Externs,
    bytes: &[u8],
) -> Result<Model<'m>, FileError>
    ensures ok { IfOk result (SpellsIn meta.now outside bytes.now forms.Xmi) }
    ensures fault { IfErr result (IsErrorIn meta.now outside bytes.now forms.Xmi) }
{
    match read_model(alloc, meta, outside, bytes) {
        Ok(model) => Ok(model),
        Err(error) => Err(FileError::from(error)),
    }
}

/// The model that a file in this form is.
fn read_in<'m>(
    alloc: Global,
    meta: &'m MetaModel,
    outside: Externs,
    bytes: &[u8],
    form: Form,
) -> Result<Model<'m>, FileError>
    ensures ok { IfOk result (SpellsIn meta.now outside bytes.now form) }
    ensures fault { IfErr result (IsErrorIn meta.now outside bytes.now form) }
{
    match form {
        Form::Xmi => read_xmi(alloc, meta, outside, bytes),
        Form::Json => read_json(alloc, meta, bytes),
    }
}

/// The model that a file is, in the form that it has, by a metamodel; or the first fault of the file (XMI 2.5.1, clauses 7 and 9; RFC 8259).
/// In time linear in the file and its objects, but for the order of what stands at references.
pub fn read_any<'m>(alloc: Global, meta: &'m MetaModel, bytes: &[u8]) -> Result<Read<'m>, FileError>
    ensures form { IfOk result (λ read. read.form ≡ form_of bytes.now) }
    ensures model { IfOk result (λ read. FileSpells meta.now externs.None bytes.now read.model) }
    ensures fault { IfErr result (IsFileError meta.now externs.None bytes.now) }
    ensures printable { IfErr result (IsKnownError meta.now) }
    ensures only { (m : ModelData) → FileSpells meta.now externs.None bytes.now m → IsOkUnless result FileError.NoMemory }
{
    let form = form_of(bytes);
    match read_in(alloc, meta, Externs::None, bytes, form) {
        Ok(model) => Ok(Read { model, form }),
        Err(error) => Err(error),
    }
}

/// The metamodel that a file in either form is: a model of EMOF, in which references may name the primitive types outside, that describes
/// it (MOF 2.5.1, 12.4); or the first fault of that model, or else why it describes none.
pub fn read_metamodel(alloc: Global, bytes: &[u8]) -> Result<MetaModel, FileError>
    ensures ok { IfOk result (MetaSpells bytes.now) }
    ensures fault { IfErr result (IsMetaFileError bytes.now) }
    ensures printable { IfErr result (IsKnownError emof) }
    ensures only { (desc : MetaDesc) → MetaSpells bytes.now desc → IsOkUnless result FileError.NoMemory }
{
    let emof = emof_metamodel(alloc)?;
    let form = form_of(bytes);
    match read_in(alloc, &emof, Externs::Primitives, bytes, form) {
        Ok(model) => {
            let meta = metamodel_of(alloc, &model);
            drop(model);
            drop(emof);
            meta
        }
        Err(error) => {
            drop(emof);
            Err(error)
        }
    }
}
