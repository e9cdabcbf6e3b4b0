use crate::reading::script_of;
use crate::trees::scripts::put_script;
use case_texts::{Pen, expanded};
use mof_metamodel::{NoMemory, Text, or_drop};
use std::alloc::Global;

/// Each line that is a case, with its answer.
pub(crate) fn answers(alloc: Global, cases: &str) -> Result<Text, NoMemory> {
    let mut pen = Pen::new(alloc)?;
    for line in cases.lines() {
        if !line.is_empty() && !line.starts_with('#') {
            or_drop!(answer_line(alloc, &mut pen, line); pen);
        }
    }
    pen.written()
}

fn answer_line(alloc: Global, pen: &mut Pen, line: &str) -> Result<(), NoMemory> {
    let bytes = expanded(alloc, line)?;
    pen.put(line);
    pen.put(" =>");
    put_answer(alloc, pen, bytes.as_slice());
    drop(bytes);
    pen.put("\n");
    Ok(())
}

/// What is told of a text: its script in short, or its fault.
fn put_answer(alloc: Global, pen: &mut Pen, bytes: &[u8]) {
    if let Some(script) = script_of(alloc, pen, bytes) {
        pen.put(" ");
        put_script(pen, &script);
        drop(script);
    }
}
