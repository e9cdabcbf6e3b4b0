use crate::markup::reading::{outcome, put_outcomes, put_prefixes, put_times};
use crate::markup::writing::put_written;
use case_texts::{Pen, expanded};
use mof_metamodel::{NoMemory, Text, or_drop};
use std::alloc::Global;
use std::str;
use xmi_text::is_name;

/// The answer to the case of a line.
pub(crate) fn answer(alloc: Global, line: &str) -> Result<Text, NoMemory> {
    let mut pen = Pen::new(alloc)?;
    or_drop!(put_answer(alloc, &mut pen, line); pen);
    pen.written()
}

fn put_answer(alloc: Global, pen: &mut Pen, line: &str) -> Result<(), NoMemory> {
    let (word, rest) = line.split_once(' ').unwrap_or((line, ""));
    match word {
        "pieces" => put_pieces(alloc, pen, rest),
        "write" => put_written(alloc, pen, rest),
        _ => put_read(alloc, pen, word, rest),
    }
}

/// Puts what a word asks of a text.
fn put_read(alloc: Global, pen: &mut Pen, word: &str, text: &str) -> Result<(), NoMemory> {
    let bytes = expanded(alloc, text)?;
    let put = put_of_bytes(alloc, pen, word, bytes.as_slice());
    drop(bytes);
    put
}

fn put_of_bytes(alloc: Global, pen: &mut Pen, word: &str, bytes: &[u8]) -> Result<(), NoMemory> {
    match word {
        "read" => put_outcomes(alloc, pen, bytes),
        "when" => put_times(alloc, pen, bytes),
        "prefixes" => put_prefixes(alloc, pen, bytes),
        _ => {
            pen.put(if word == "name" {
                name_answer(bytes)
            } else {
                "no case"
            });
            Ok(())
        }
    }
}

/// Puts the outcome of a text in pieces of so many bytes.
fn put_pieces(alloc: Global, pen: &mut Pen, rest: &str) -> Result<(), NoMemory> {
    let (size, text) = rest.split_once(' ').unwrap_or((rest, ""));
    let bytes = expanded(alloc, text)?;
    pen.put_text(outcome(alloc, bytes.as_slice(), size.parse().unwrap_or(1)));
    drop(bytes);
    Ok(())
}

/// Whether a text is a name.
fn name_answer(bytes: &[u8]) -> &'static str {
    match str::from_utf8(bytes) {
        Ok(text) if is_name(text) => "yes",
        Ok(_) => "no",
        Err(_) => "no text",
    }
}
