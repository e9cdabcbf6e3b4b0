//! The models of a setting.
use crate::values::editing::edited;
use case_texts::Pen;
use expression_settings::{meta_named, put_if_refused};
use model_building::Editor;
use mof_metamodel::{NoMemory, or_drop};
use ocl_environments::Metas;
use ocl_eval::Models;
use std::alloc::Global;

/// The models of a setting.
pub(crate) fn models<'m>(
    alloc: Global,
    pen: &mut Pen,
    metas: &'m Metas,
    setting: &str,
) -> Result<Models<'m>, NoMemory> {
    let mut models = Models::new(alloc);
    for part in setting.split("\nmodel ").skip(1) {
        or_drop!(add_model(alloc, pen, metas, &mut models, part); models);
    }
    Ok(models)
}

fn add_model<'m>(
    alloc: Global,
    pen: &mut Pen,
    metas: &'m Metas,
    models: &mut Models<'m>,
    part: &str,
) -> Result<(), NoMemory> {
    let mut lines = part.lines();
    let head = lines.next().unwrap_or("");
    let (_, meta) = head.split_once(' ').unwrap_or((head, ""));
    if let Some(number) = meta_named(metas, meta)
        && number < metas.len()
    {
        let mut editor = Editor::new(alloc, metas.get(number));
        for line in lines.take_while(|line| line.starts_with(' ')) {
            let made = edited(alloc, &mut editor, line.trim_start());
            put_if_refused(pen, line, &made);
        }
        let made = editor.model().duplicate(alloc);
        drop(editor);
        models.push(made?)?;
    }
    Ok(())
}
