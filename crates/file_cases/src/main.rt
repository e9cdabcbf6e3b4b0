//! Cases of markup and of files: the program reads them from its input and prints each with its answer behind
//! ` => `. A line `cases of markup` or `cases of files` begins those of each, and what stands before the
//! first of them is passed over. Lines that are empty or begin with `#` are printed as they are. In each TEXT
//! `%` and two hexadecimal digits are a byte, and `%[3 ab^ ]` is `ab0 ab1 ab2 `.
//!
//! # Markup
//!
//! | line | answer |
//! |---|---|
//! | `read TEXT` | the marks of a text with their places, and `END` or its fault: the text is read whole and in pieces of 1, 2 and 7 bytes, and each answer that is another than the first is printed too |
//! | `pieces N TEXT` | the same of a text in pieces of N bytes alone |
//! | `when TEXT` | the marks and the fault of a text that comes byte by byte, behind the count of bytes with which they come |
//! | `prefixes TEXT` | the lengths of those of its proper prefixes that don't end too early |
//! | `name TEXT` | whether it is a name |
//! | `write CALL; CALL..` | the text that these calls of a writer write, and what is read of it; or the first call that may not come |
//!
//! In an answer `(a b='c' @0)` is a start tag with its attributes, `'x'@3` character data, `/6` an end tag; a
//! character that isn't printed ASCII is shown as its number, as `[E9]`. Of long texts and of many marks only
//! some are shown, and their count. The calls are `open NAME`, `attr NAME TEXT`, `data TEXT`, `close`,
//! `declare` and `line DEPTH`.
//!
//! # Files
//!
//! | line | answer |
//! |---|---|
//! | `meta TEXT` | the metamodel that a file with this text is, or what is printed of its fault; the `read` lines below it are by this metamodel |
//! | `read TEXT` | the form of a file with this text, and the model that it is as JSON; or what is printed of its fault |
//! | `pieces N TEXT` | the same for a file that is XMI and comes in pieces of N bytes, N being 1, 2 or 7; of a fault only `refused` |
//! | another one | the metamodel that a model of EMOF describes, or why it describes none. The line is objects parted by `; `, each by words with a blank between: its class, its identifier, and slots as `PROPERTY=VALUES`, values parted by commas |
//!
//! The first metamodel is EMOF.
#![tactic(auto)]

mod files;
mod markup;

use files::Metas;
use mof_metamodel::{NoMemory, Text};
use std::alloc::Global;
use std::io::{self, ErrorKind};

/// Prints a case with its answer.
fn print_answer(rt: &impl Print, line: &str, answer: Result<Text, NoMemory>) -> io::Result<()> {
    match answer {
        Ok(text) => {
            let answer = text.as_str();
            let printed = println!(rt; "{line} => {answer}");
            drop(text);
            printed
        }
        Err(_) => println!(rt; "{line} => no memory"),
    }
}

/// Whether a line is a case.
fn is_case(line: &str) -> bool {
    !line.is_empty() && !line.starts_with('#')
}

fn print_markup(rt: &impl Print, alloc: Global, lines: &str) -> io::Result<()> {
    for line in lines.lines() {
        if is_case(line) {
            print_answer(rt, line, markup::answer(alloc, line))?;
        } else {
            println!(rt; "{line}")?;
        }
    }
    Ok(())
}

fn print_file_lines(
    rt: &impl Print,
    alloc: Global,
    metas: &mut Metas,
    lines: &str,
) -> io::Result<()> {
    for line in lines.lines() {
        if is_case(line) {
            print_answer(rt, line, metas.answer(alloc, line))?;
        } else {
            println!(rt; "{line}")?;
        }
    }
    Ok(())
}

fn print_files(rt: &impl Print, alloc: Global, lines: &str) -> io::Result<()> {
    match Metas::new(alloc) {
        Ok(mut metas) => {
            let printed = print_file_lines(rt, alloc, &mut metas, lines);
            drop(metas);
            printed
        }
        Err(_) => Err(io::Error::from(ErrorKind::OutOfMemory)),
    }
}

/// Prints the cases of what the first line names.
fn print_part(rt: &impl Print, alloc: Global, part: &str) -> io::Result<()> {
    let (name, lines) = part.split_once('\n').unwrap_or((part, ""));
    println!(rt; "cases of {name}")?;
    match name {
        "markup" => print_markup(rt, alloc, lines),
        "files" => print_files(rt, alloc, lines),
        _ => println!(rt; "no such cases"),
    }
}

fn print_parts(rt: &impl Print, alloc: Global, text: &str) -> io::Result<()> {
    for part in text.split("\ncases of ").skip(1) {
        print_part(rt, alloc, part)?;
    }
    Ok(())
}

fn main(rt: HostRuntime) -> io::Result<()> {
    let text = io::read_to_string(rt.alloc(), rt.reader())?;
    let printed = print_parts(&rt, rt.alloc(), text.as_str());
    drop(text);
    printed
}
