//! Cases of files of models and of metamodels.
mod building;
mod printing;
mod reading;

use crate::files::building::built;
use crate::files::printing::put_metamodel;
use crate::files::reading::{read, read_meta, read_pieces};
use case_texts::Pen;
use model_files::{FileError, emof_metamodel, metamodel_of};
use mof_metamodel::{MetaModel, NoMemory, Text, or_drop};
use object_tables::Model;
use std::alloc::Global;

/// Puts why a model describes no metamodel.
fn put_error(alloc: Global, pen: &mut Pen, error: &FileError) {
    match error {
        FileError::NoPackage(number) => pen.put_string(format!(in alloc; "NoPackage {number}")),
        FileError::Meta(fault) => {
            pen.put(fault.kind.word());
            pen.put(" ");
            pen.put(fault.name.as_str());
        }
        FileError::NoMemory => pen.put("no memory"),
        _ => pen.put("no model"),
    }
}

/// Puts what a model describes.
fn put_description(alloc: Global, pen: &mut Pen, model: &Model<'_>) {
    match metamodel_of(alloc, model) {
        Ok(meta) => {
            put_metamodel(alloc, pen, &meta);
            drop(meta);
        }
        Err(error) => {
            put_error(alloc, pen, &error);
            drop(error);
        }
    }
}

/// Puts the answer to a case of a model.
fn put_described(alloc: Global, pen: &mut Pen, emof: &MetaModel, line: &str) {
    match built(alloc, emof, line) {
        Ok(editor) => {
            put_description(alloc, pen, editor.model());
            drop(editor);
        }
        Err(refusal) => pen.put(refusal.word()),
    }
}

/// The metamodel EMOF, and the one by which files are read.
#[derive(Drop)]
pub(crate) struct Metas {
    emof: MetaModel,
    current: MetaModel,
}

impl Metas {
    /// EMOF, by which files are read at first.
    pub(crate) fn new(alloc: Global) -> Result<Metas, NoMemory> {
        let emof = emof_metamodel(alloc)?;
        let current = or_drop!(emof_metamodel(alloc); emof);
        Ok(Metas { emof, current })
    }

    /// The answer to a case.
    pub(crate) fn answer(&mut self, alloc: Global, line: &str) -> Result<Text, NoMemory> {
        let mut pen = Pen::new(alloc)?;
        or_drop!(self.put_answer(alloc, &mut pen, line); pen);
        pen.written()
    }

    fn put_answer(&mut self, alloc: Global, pen: &mut Pen, line: &str) -> Result<(), NoMemory> {
        if let Some(text) = line.strip_prefix("meta ") {
            read_meta(alloc, pen, &mut self.current, text)
        } else if let Some(text) = line.strip_prefix("read ") {
            read(alloc, pen, &self.current, text)
        } else if let Some(text) = line.strip_prefix("pieces 1 ") {
            read_pieces(alloc, pen, &self.current, 1, text)
        } else if let Some(text) = line.strip_prefix("pieces 2 ") {
            read_pieces(alloc, pen, &self.current, 2, text)
        } else if let Some(text) = line.strip_prefix("pieces 7 ") {
            read_pieces(alloc, pen, &self.current, 7, text)
        } else {
            put_described(alloc, pen, &self.emof, line);
            Ok(())
        }
    }
}
