use case_texts::Pen;
use expression_settings::{Refused, bind_query, bind_variable, over_models, put_if_refused, slots};
use mof_metamodel::NoMemory;
use ocl_environments::{Env, Metas};
use std::alloc::Global;

/// The environment of a setting.
pub(crate) fn environment<'m>(
    alloc: Global,
    pen: &mut Pen,
    metas: &'m Metas,
    lines: &str,
) -> Result<Env<'m>, NoMemory> {
    let slots = slots(alloc, pen, metas, lines)?;
    let mut env = over_models(alloc, metas, slots)?;
    for line in lines.lines() {
        let added = add_line(alloc, metas, &mut env, line);
        put_if_refused(pen, line, &added);
    }
    Ok(env)
}

/// Brings what a line names into reach.
fn add_line(alloc: Global, metas: &Metas, env: &mut Env<'_>, line: &str) -> Result<(), Refused> {
    match line.split_once(' ') {
        Some(("variable", text)) => {
            let (name, of) = text.split_once(" : ").ok_or(Refused)?;
            bind_variable(alloc, metas, env, name, of)
        }
        Some(("query", text)) => bind_query(alloc, metas, env, text),
        _ => Ok(()),
    }
}
