use crate::types::expression_answers::{put_end, put_expr, put_type, put_typed};
use crate::types::setting::environment;
use crate::types::tokens::{put_count, put_tokens};
use crate::types::type_answers::{
    put_conforms, put_path, put_same, put_storable, put_type_text, put_upper, put_values,
};
use case_texts::{Pen, expanded};
use expression_settings::metamodels;
use mof_metamodel::{NoMemory, Text, or_drop};
use ocl_environments::{Env, Metas};
use std::alloc::Global;

/// Puts the answers to the cases of a setting over these metamodels.
fn put_answers(alloc: Global, pen: &mut Pen, metas: &Metas, lines: &str) -> Result<(), NoMemory> {
    let env = environment(alloc, pen, metas, lines)?;
    for line in lines.lines() {
        answer_line(alloc, pen, metas, &env, line);
    }
    drop(env);
    Ok(())
}

/// The answers to the cases of a setting, whose name is its first line.
pub(crate) fn answers(alloc: Global, setting: &str) -> Result<Text, NoMemory> {
    let mut pen = Pen::new(alloc)?;
    let (_, lines) = setting.split_once('\n').unwrap_or((setting, ""));
    let metas = or_drop!(metamodels(alloc, &mut pen, setting); pen);
    let put = put_answers(alloc, &mut pen, &metas, lines);
    drop(metas);
    or_drop!(put; pen);
    pen.written()
}

/// Whether a line that begins with this word asks for an answer. An empty word is that of an indented line.
fn is_case(word: &str) -> bool {
    !word.starts_with('#') && !matches!(word, "" | "metamodel" | "model" | "variable" | "query")
}

/// Prints a line that is a case, and its answer.
fn answer_line(alloc: Global, pen: &mut Pen, metas: &Metas, env: &Env<'_>, line: &str) {
    let (word, text) = line.split_once(' ').unwrap_or((line, ""));
    if is_case(word) {
        pen.put(line);
        pen.put(" =>");
        let answer = answer(alloc, metas, env, word, text);
        match &answer {
            Ok(answer) => put_answer(alloc, pen, answer),
            Err(_) => pen.put(" no memory"),
        }
        drop(answer);
        pen.put("\n");
    }
}

fn put_answer(alloc: Global, pen: &mut Pen, answer: &Text) {
    if !answer.is_empty() {
        pen.put(" ");
        pen.put_on_line(alloc, answer.as_str());
    }
}

/// The answer to a case.
fn answer(
    alloc: Global,
    metas: &Metas,
    env: &Env<'_>,
    word: &str,
    text: &str,
) -> Result<Text, NoMemory> {
    let bytes = expanded(alloc, text)?;
    let mut pen = or_drop!(Pen::new(alloc); bytes);
    match word {
        "tokens" => put_tokens(alloc, &mut pen, bytes.as_slice()),
        "count" => put_count(alloc, &mut pen, bytes.as_slice()),
        "parse" => put_expr(alloc, &mut pen, bytes.as_slice()),
        "end" => put_end(alloc, &mut pen, bytes.as_slice()),
        "type" => put_type(alloc, &mut pen, metas, env, bytes.as_slice()),
        "tree" => put_typed(alloc, &mut pen, metas, env, bytes.as_slice()),
        "storable" => put_storable(alloc, &mut pen, bytes.as_slice()),
        _ => put_of_types(alloc, &mut pen, metas, env, word, text),
    }
    drop(bytes);
    pen.written()
}

/// The answer to a case on types by their names.
fn put_of_types(
    alloc: Global,
    pen: &mut Pen,
    metas: &Metas,
    env: &Env<'_>,
    word: &str,
    text: &str,
) {
    match word {
        "path" => put_path(alloc, pen, metas, env, text),
        "text" => put_type_text(alloc, pen, metas, text),
        "same" => put_same(alloc, pen, metas, text),
        "conforms" => put_conforms(alloc, pen, metas, text),
        "upper" => put_upper(alloc, pen, metas, text),
        "values" => put_values(pen, metas, text),
        _ => pen.put("no such case"),
    }
}
