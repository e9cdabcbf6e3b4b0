//! Cases of vaults, sinks and whole runs. They stand in the standard input, a line each, and each that asks for something
//! is printed again with its answer behind ` => `.
//!
//! | line | what it does or answers |
//! |---|---|
//! | `file NAME TEXT` | adds a file to those that the next vaults begin with; of two of one name the later counts |
//! | `+ TEXT` | adds a line to the file before |
//! | `* N TEXT` | adds the text to the file before, N times |
//! | `failing N..` | the numbers of the calls that fail in the next vaults and sinks |
//! | `pace N` | the most bytes that a call of a vault or a sink takes from now on |
//! | `vault`, `sink` | begins a new one |
//! | `read NAME AT COUNT`, `load NAME LIMIT` | the bytes |
//! | `file? NAME` | the bytes of a file, without a call |
//! | `put NAME TEXT` | whether the file was put |
//! | `vault?`, `sink?` | how many calls failed, and how many of them wanted memory; of a sink also what it holds |
//! | `print TEXT` | whether the text was printed |
//! | `run WORD..` | the status and the text of a run over the vault and a new sink; two spaces enclose an empty word |
//! | `system load NAME LIMIT`, `system put NAME TEXT`, `system print TEXT` | the same over the files and the output of the system |
//!
//! In each TEXT `\n` is a line feed. Lines that are empty or begin with `#` are passed over.
#![tactic(auto)]

mod bytes;
mod paced;
mod session;
mod system;

use mof_metamodel::NoMemory;
use session::Session;
use std::io;
use std::rt::Files;

/// What a line comes to: nothing, or an answer.
fn answer<R: Files + AllocGlobal + Print>(
    rt: &R,
    session: &mut Session,
    line: &str,
) -> Result<Option<String>, NoMemory> {
    match line.strip_prefix("system ") {
        Some(rest) => system::answer(rt, rest),
        None => session.answer(line),
    }
}

/// Prints a line with its answer, if it asks for something.
fn print_answer<R: Files + AllocGlobal + Print>(
    rt: &R,
    session: &mut Session,
    line: &str,
) -> io::Result<()> {
    match answer(rt, session, line) {
        Ok(Some(text)) => {
            let printed = println!(rt; "{line} => {text}");
            drop(text);
            printed
        }
        Ok(None) => Ok(()),
        Err(_) => println!(rt; "{line} => no memory"),
    }
}

fn print_answers(rt: &HostRuntime, session: &mut Session) -> io::Result<()> {
    for line in rt.lines(rt.alloc()) {
        let line = line?;
        let printed = print_answer(rt, session, line.as_str());
        drop(line);
        printed?;
    }
    Ok(())
}

fn main(rt: HostRuntime) -> io::Result<()> {
    let Ok(mut session) = Session::new(rt.alloc()) else {
        return println!(rt; "no memory");
    };
    let printed = print_answers(&rt, &mut session);
    drop(session);
    printed
}
