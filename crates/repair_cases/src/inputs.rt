//! The metamodels and models of a case, in the order of the script.
ghost use Rattle.std.specs.Prelude.{◌≡◌, IfOk, IfSome};
ghost use Rattle.object_tables.specs.Kept.{Kept};
ghost use Rattle.evaluation_laws.specs.TypedValues.{IsModelFor, AreModels};

use crate::dice::Dice;
use crate::drawing::random_model;
use crate::files::CaseFiles;
use model_files::{FileError, read_any, read_metamodel};
use mof_metamodel::{MetaModel, NoMemory, Text};
use object_tables::Model;
use ocl_environments::Metas;
use ocl_eval::Models;
use qv_syntax::ModelSlot;
use std::alloc::Global;

/// The file of a name among pairs `NAME=FILE`, empty where there is none.
fn file_of<'a>(pairs: &'a str, name: &Text) -> &'a str {
    for pair in pairs.split(' ') {
        if let Some((own, file)) = pair.split_once('=') {
            if name.is(own) {
                return file;
            }
        }
    }
    ""
}

/// The metamodel of a name, if its file is one.
fn meta_of(files: &CaseFiles, pairs: &str, name: &Text) -> Result<Option<MetaModel>, NoMemory> {
    match read_metamodel(files.alloc, files.bytes(file_of(pairs, name))) {
        Ok(meta) => Ok(Some(meta)),
        Err(FileError::NoMemory) => Err(NoMemory),
        Err(_) => Ok(None),
    }
}

/// The metamodels of a script, if each file is one.
pub fn metas_of(files: &CaseFiles, pairs: &str, names: &[Text]) -> Result<Option<Metas>, NoMemory> {
    let mut metas = Metas::new(files.alloc);
    for name in names {
        match meta_of(files, pairs, name)? {
            Some(meta) => metas.push(meta)?,
            None => return Ok(None),
        }
    }
    Ok(Some(metas))
}

/// Where models come from: from the files of pairs `NAME=FILE`, or from dice.
#[derive(Drop)]
pub enum Origin<'a> {
    Files(&'a CaseFiles, &'a str),
    Dice(Dice),
}

/// The model of a file, if it is one.
fn read_model<'m>(
    files: &CaseFiles,
    meta: &'m MetaModel,
    name: &str,
) -> Result<Option<Model<'m>>, NoMemory>
    ensures kept { IfOk result (λ found. IfSome found Kept) }
    ensures meta { IfOk result (λ found. IfSome found (λ model. model.meta ≡ meta.now)) }
{
    match read_any(files.alloc, meta, files.bytes(name)) {
        Ok(read) => {
            let _kept = read.model.end();
            Ok(Some(read.model))
        }
        Err(FileError::NoMemory) => Err(NoMemory),
        Err(_) => Ok(None),
    }
}

/// The model of a slot, if there is one.
fn model_of<'m>(
    alloc: Global,
    origin: &mut Origin<'_>,
    metas: &'m Metas,
    slot: &ModelSlot,
) -> Result<Option<Model<'m>>, NoMemory>
    ensures { IfOk result (λ found. IfSome found (IsModelFor metas.now slot.now)) }
{
    if slot.meta >= metas.len() {
        return Ok(None);
    }
    let meta = metas.get(slot.meta);
    match origin {
        Origin::Files(files, pairs) => read_model(*files, meta, file_of(*pairs, &slot.name)),
        Origin::Dice(dice) => Ok(Some(random_model(alloc, dice, meta)?)),
    }
}

/// The models of a script, if there is one for each slot.
pub fn models_of<'m>(
    alloc: Global,
    origin: &mut Origin<'_>,
    metas: &'m Metas,
    slots: &[ModelSlot],
) -> Result<Option<Models<'m>>, NoMemory>
    ensures { IfOk result (λ found. IfSome found (λ models. AreModels metas.now (record { slots = slots.now; models = models }))) }
{
    let mut models = Models::new(alloc);
    for slot in slots {
        match model_of(alloc, origin, metas, slot)? {
            Some(model) => models.push(model)?,
            None => return Ok(None),
        }
    }
    Ok(Some(models))
}
