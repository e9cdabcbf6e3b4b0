//! The models of a setting.
ghost use Rattle.std.specs.Prelude.{◌≡◌, nat_lt};
ghost use Rattle.ocl_environments.specs.Environments.{have_metas};

use crate::refused::{Refused, put_if_refused};
use crate::type_names::meta_named;
use case_texts::Pen;
use mof_metamodel::{NoMemory, Seq, Text, or_drop};
use ocl_environments::{Env, Metas};
use qv_syntax::ModelSlot;
use std::alloc::Global;

/// The model parameters of a setting.
pub fn slots(
    alloc: Global,
    pen: &mut Pen,
    metas: &Metas,
    lines: &str,
) -> Result<Seq<ModelSlot>, NoMemory> {
    let mut slots = Seq::new(alloc);
    for line in lines.lines() {
        if let Some(text) = line.strip_prefix("model ") {
            let added = add_slot(alloc, metas, &mut slots, text);
            put_if_refused(pen, line, &added);
        }
    }
    Ok(slots)
}

/// Adds the model of a text `left M`.
fn add_slot(
    alloc: Global,
    metas: &Metas,
    slots: &mut Seq<ModelSlot>,
    text: &str,
) -> Result<(), Refused> {
    let (name, meta) = text.split_once(' ').ok_or(Refused)?;
    let meta = meta_named(metas, meta).ok_or(Refused)?;
    let name = Text::new(alloc, name)?;
    slots.push(ModelSlot { name, meta })?;
    Ok(())
}

fn names(alloc: Global, metas: &Metas) -> Result<Seq<Text>, NoMemory> {
    let mut names = Seq::new(alloc);
    for i in 0..metas.len() {
        names.push(Text::new(alloc, metas.get(i).name())?)?;
    }
    Ok(names)
}

fn are_placed(models: &[ModelSlot], count: usize) -> bool
    ensures { result ≡ have_metas models.now count }
{
    models.iter().all(|slot| (slot.meta as usize) < count)
}

/// The models over the metamodels, and nothing else in reach.
pub fn over_models<'m>(
    alloc: Global,
    metas: &'m Metas,
    models: Seq<ModelSlot>,
) -> Result<Env<'m>, NoMemory> {
    let names = or_drop!(names(alloc, metas); models);
    if names.len() != metas.len() as usize || !are_placed(models.as_slice(), names.len()) {
        drop(names);
        drop(models);
        return Ok(Env::new(alloc));
    }
    Env::over(alloc, metas, names, models)
}
