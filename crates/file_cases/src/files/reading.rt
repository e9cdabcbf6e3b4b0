//! Files of models and of metamodels.
ghost use Rattle.std.specs.Prelude.{◌<◌};
ghost use Rattle.model_files.specs.FaultTexts.{IsKnownError};
ghost use Rattle.model_files.specs.Emof.{emof};

use crate::files::printing::put_metamodel;
use case_texts::{Pen, expanded};
use model_assembly::Externs;
use model_files::{
    FileError, Form, Read, fault_text, metamodel_fault_text, read_any, read_metamodel, write_json,
};
use mof_metamodel::{MetaModel, NoMemory};
use object_tables::Model;
use std::alloc::Global;
use xmi_profile::{ModelReader, XmiError};

/// Puts a text without the line feed at its end.
fn put_line(pen: &mut Pen, bytes: &[u8]) {
    match str::from_utf8(bytes) {
        Ok(text) => pen.put(text.trim_end_matches('\n')),
        Err(_) => pen.put("no text"),
    }
}

/// Puts what is printed of a fault, and whether it is a limit.
fn put_fault_line(pen: &mut Pen, error: &FileError, text: &[u8]) {
    if error.is_limit() {
        pen.put("(a limit) ");
    }
    put_line(pen, text);
}

/// Puts what is printed of the fault of a file of a metamodel.
fn put_meta_fault(alloc: Global, pen: &mut Pen, error: &FileError) -> Result<(), NoMemory>
    requires { IsKnownError emof error.now }
{
    let text = metamodel_fault_text(alloc, "META", error)?;
    put_fault_line(pen, error, text.as_slice());
    Ok(())
}

/// Reads a metamodel, by which files are read from then on.
pub(crate) fn read_meta(
    alloc: Global,
    pen: &mut Pen,
    current: &mut MetaModel,
    text: &str,
) -> Result<(), NoMemory> {
    let bytes = expanded(alloc, text)?;
    match read_metamodel(alloc, bytes.as_slice()) {
        Ok(meta) => {
            put_metamodel(alloc, pen, &meta);
            drop(std::mem::replace(current, meta));
            Ok(())
        }
        Err(error) => put_meta_fault(alloc, pen, &error),
    }
}

/// Puts a model as JSON.
fn put_model(alloc: Global, pen: &mut Pen, model: &Model<'_>) -> Result<(), NoMemory> {
    let json = write_json(alloc, model)?;
    put_line(pen, json.as_slice());
    Ok(())
}

/// Puts the form of a file and its model as JSON.
fn put_read(alloc: Global, pen: &mut Pen, read: &Read<'_>) -> Result<(), NoMemory> {
    pen.put(match read.form {
        Form::Xmi => "xmi ",
        Form::Json => "json ",
    });
    put_model(alloc, pen, &read.model)
}

/// Puts what is printed of the fault of a file.
fn put_model_fault(
    alloc: Global,
    pen: &mut Pen,
    meta: &MetaModel,
    error: &FileError,
) -> Result<(), NoMemory>
    requires { IsKnownError meta.now error.now }
{
    let text = fault_text(alloc, meta, "IN", error)?;
    put_fault_line(pen, error, text.as_slice());
    Ok(())
}

/// Reads a model.
pub(crate) fn read(
    alloc: Global,
    pen: &mut Pen,
    meta: &MetaModel,
    text: &str,
) -> Result<(), NoMemory> {
    let bytes = expanded(alloc, text)?;
    match read_any(alloc, meta, bytes.as_slice()) {
        Ok(read) => put_read(alloc, pen, &read),
        Err(error) => put_model_fault(alloc, pen, meta, &error),
    }
}

/// Puts a model that was read as XMI, as JSON; of a fault only that there is one.
fn put_pieces(
    alloc: Global,
    pen: &mut Pen,
    model: &Result<Model<'_>, XmiError>,
) -> Result<(), NoMemory> {
    match model {
        Ok(model) => {
            pen.put("xmi ");
            put_model(alloc, pen, model)
        }
        Err(XmiError::NoMemory) => Err(NoMemory),
        Err(_) => {
            pen.put("refused");
            Ok(())
        }
    }
}

/// Reads a model as XMI that comes in pieces of at most so many bytes.
pub(crate) fn read_pieces(
    alloc: Global,
    pen: &mut Pen,
    meta: &MetaModel,
    most: usize,
    text: &str,
) -> Result<(), NoMemory>
    requires { 0 < most }
{
    let bytes = expanded(alloc, text)?;
    let mut reader = ModelReader::new(alloc, meta, Externs::None);
    for piece in bytes.as_slice().chunks(most) {
        reader.feed(piece)?;
    }
    drop(bytes);
    let model = reader.finish();
    let put = put_pieces(alloc, pen, &model);
    drop(model);
    put
}
