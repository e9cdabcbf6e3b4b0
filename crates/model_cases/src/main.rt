//! Cases of metamodels, models and arenas of links: the program reads them from its input and prints each
//! with its answer.
//!
//! Blocks of lines are parted by an empty line. A line that begins with `#` says what those below it are.
//!
//! - `descriptions`: each further line is the description of a metamodel (`model_building::described`), and
//!   is answered by `accepted` or by its first fault. `[4096 times ; class C% < C^]` in a description stands
//!   for so many pieces: `%` is the piece's number from 0, `^` the next one, each with eight digits, and `~`
//!   are the names of `C` with all numbers before.
//! - `metamodel DESCRIPTION`: each further line is a command to a model of that metamodel, which is empty at
//!   first (`Session::answer` has the commands).
//! - `links`: each further line is an edit of an arena of links, which is empty at first, or asks for
//!   something (`Arenas::edit` and `Arenas::answer` have them). Those that ask are printed with their
//!   answers.
#![tactic(auto)]

mod breaches;
mod descriptions;
mod filling;
mod links;
mod mirrored;
mod objects;
mod printing;
mod script;
mod session;

use crate::descriptions::{description_answer, made};
use crate::links::{Arenas, is_question};
use crate::session::Session;
use mof_metamodel::{MetaModel, NoMemory, Text};
use std::alloc::Global;
use std::io::{self, ErrorKind};

/// Prints a case and its answer. Want of memory ends the program.
fn print_answer(rt: &impl Print, line: &str, answer: Result<Text, NoMemory>) -> io::Result<()> {
    match answer {
        Ok(text) => {
            let answer = text.as_str();
            let printed = println!(rt; "{line} => {answer}");
            drop(text);
            printed
        }
        Err(_) => Err(io::Error::from(ErrorKind::OutOfMemory)),
    }
}

fn print_descriptions(rt: &impl Print, alloc: Global, lines: &str) -> io::Result<()> {
    for line in lines.lines() {
        if line.starts_with('#') {
            println!(rt; "{line}")?;
        } else {
            print_answer(rt, line, description_answer(alloc, line))?;
        }
    }
    Ok(())
}

/// Gives the lines to a session one after another.
fn print_commands(
    rt: &impl Print,
    alloc: Global,
    session: &mut Session<'_>,
    lines: &str,
) -> io::Result<()> {
    for line in lines.lines() {
        if line.starts_with('#') {
            println!(rt; "{line}")?;
        } else {
            print_answer(rt, line, session.answer(alloc, line))?;
        }
    }
    Ok(())
}

/// Prints the commands to a model of the metamodel of a description, with their answers.
fn print_known(
    rt: &impl Print,
    alloc: Global,
    description: &str,
    meta: &MetaModel,
    lines: &str,
) -> io::Result<()> {
    println!(rt; "metamodel {description}")?;
    let mut session = Session::new(alloc, meta);
    let printed = print_commands(rt, alloc, &mut session, lines);
    drop(session);
    printed
}

fn print_session(rt: &impl Print, alloc: Global, description: &str, lines: &str) -> io::Result<()> {
    match made(alloc, description) {
        Ok(Ok(meta)) => {
            let printed = print_known(rt, alloc, description, &meta, lines);
            drop(meta);
            printed
        }
        Ok(Err(_)) => println!(rt; "metamodel {description} => fault"),
        Err(_) => Err(io::Error::from(ErrorKind::OutOfMemory)),
    }
}

/// Gives a line to arenas, and prints it again with its answer, if it has one.
fn print_link_line(rt: &impl Print, arenas: &mut Arenas, line: &str) -> io::Result<()> {
    if line.starts_with('#') {
        println!(rt; "{line}")
    } else if is_question(line) {
        print_answer(rt, line, arenas.answer(line))
    } else {
        match arenas.edit(line) {
            Ok(()) => Ok(()),
            Err(_) => Err(io::Error::from(ErrorKind::OutOfMemory)),
        }
    }
}

fn print_link_lines(rt: &impl Print, arenas: &mut Arenas, lines: &str) -> io::Result<()> {
    for line in lines.lines() {
        print_link_line(rt, arenas, line)?;
    }
    Ok(())
}

fn print_links(rt: &impl Print, alloc: Global, lines: &str) -> io::Result<()> {
    let mut arenas = Arenas::new(alloc);
    let printed = print_link_lines(rt, &mut arenas, lines);
    drop(arenas);
    printed
}

fn print_block(rt: &impl Print, alloc: Global, block: &str) -> io::Result<()> {
    let (head, lines) = block.split_once('\n').unwrap_or((block, ""));
    match head.strip_prefix("metamodel ") {
        Some(description) => print_session(rt, alloc, description, lines),
        None => {
            println!(rt; "{head}")?;
            if head == "links" {
                print_links(rt, alloc, lines)
            } else {
                print_descriptions(rt, alloc, lines)
            }
        }
    }
}

fn print_blocks(rt: &impl Print, alloc: Global, text: &str) -> io::Result<()> {
    for block in text.trim_end().split("\n\n") {
        print_block(rt, alloc, block)?;
        println!(rt; "")?;
    }
    Ok(())
}

fn main(rt: HostRuntime) -> io::Result<()> {
    let text = io::read_to_string(rt.alloc(), rt.reader())?;
    let printed = print_blocks(&rt, rt.alloc(), text.as_str());
    drop(text);
    printed
}
