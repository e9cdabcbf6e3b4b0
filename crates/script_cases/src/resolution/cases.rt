use crate::reading::script_of;
use crate::resolution::asked::{Asked, Case, case_of};
use crate::resolution::names::put_names;
use crate::resolution::resolving::put_resolved;
use crate::resolution::texts::script_text;
use case_texts::Pen;
use mof_metamodel::{NoMemory, Text, or_drop};
use std::alloc::Global;

/// The answers to the cases of a setting, whose name is its first line.
pub(crate) fn answers(alloc: Global, setting: &str) -> Result<Text, NoMemory> {
    let mut pen = Pen::new(alloc)?;
    let (name, lines) = setting.split_once('\n').unwrap_or((setting, ""));
    put_heading(&mut pen, name);
    or_drop!(answer_lines(alloc, &mut pen, setting, lines); pen);
    pen.written()
}

/// Prints the cases among lines, each with its answer.
fn answer_lines(alloc: Global, pen: &mut Pen, setting: &str, lines: &str) -> Result<(), NoMemory> {
    let mut item = Text::new(alloc, "")?;
    for line in lines.lines() {
        if line.starts_with(' ') {
            or_drop!(item.push_str("\n"); item);
        } else {
            let answered = answer_item(alloc, pen, setting, item.as_str());
            drop(item);
            answered?;
            item = Text::new(alloc, "")?;
        }
        or_drop!(item.push_str(line); item);
    }
    let answered = answer_item(alloc, pen, setting, item.as_str());
    drop(item);
    answered
}

/// Names the setting, but not where a comment stands above the first one.
fn put_heading(pen: &mut Pen, name: &str) {
    if !name.starts_with('#') {
        pen.put("setting ");
        pen.put(name);
        pen.put("\n");
    }
}

/// Prints a line with those below it, if they are a case, and its answer.
fn answer_item(alloc: Global, pen: &mut Pen, setting: &str, item: &str) -> Result<(), NoMemory> {
    match case_of(item) {
        Some(case) => {
            pen.put(item);
            pen.put(" =>");
            put_answer(alloc, pen, setting, &case)?;
            pen.put("\n");
            Ok(())
        }
        None => Ok(()),
    }
}

fn put_answer(
    alloc: Global,
    pen: &mut Pen,
    setting: &str,
    case: &Case<'_>,
) -> Result<(), NoMemory> {
    match case.asked {
        Asked::Names => put_names(alloc, pen, case),
        _ => put_of_script(alloc, pen, setting, case),
    }
}

/// What is told of the script of a case.
fn put_of_script(
    alloc: Global,
    pen: &mut Pen,
    setting: &str,
    case: &Case<'_>,
) -> Result<(), NoMemory> {
    let bytes = script_text(alloc, setting, case.text)?;
    let script = script_of(alloc, pen, bytes.as_slice());
    drop(bytes);
    match script {
        Some(script) => {
            let put = put_resolved(alloc, pen, setting, case, &script);
            drop(script);
            put
        }
        None => Ok(()),
    }
}
