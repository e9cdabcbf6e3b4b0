//! Cases of repairs: from a script, its metamodels and its models to the entries, demands and terms of a repair, or to the one refusal. They
//! stand in the standard input, a line each, and each that asks for something is printed again with its answer.
//!
//! | line | what it does or answers |
//! |---|---|
//! | `file NAME TEXT` | adds a file; of two of one name the later counts |
//! | `+ TEXT` | adds a line to the file before |
//! | `demands SCRIPT TARGET NAME=FILE..` | the entries with what they make, the demands, each with the number of its entry, and the terms |
//! | `counts SCRIPT TARGET NAME=FILE..` | how many of each there are |
//! | `repair SCRIPT TARGET NAME=FILE..` | what a repair of the target makes, changes and deletes, and each object of it, or what stands against it, by the plain account |
//! | `enforce SCRIPT TARGET NAME=FILE..` | the same by `enforce_mode`, and whether the account is the same |
//! | `size SCRIPT TARGET NAME=FILE..` | the same without the account, and in place of the objects their number |
//! | `bindings N SEED Left=FILE Right=FILE` | how many bindings of N random scripts over random models of two metamodels were compared with those that trying all finds, and their verdicts, with the first trial whole that ends in another way, or a single one |
//! | `random N SEED SCRIPT TARGET NAME=FILE..` | how N repairs of random models end, with the first one whole that the account ends in another way, or a single one |
//!
//! A refusal is printed with the entries that it names. In a TEXT `%` and two hexadecimal digits are a byte, and `%[3 ab]` is `ababab`. Lines
//! that are empty or begin with `#` are passed over.
#![tactic(auto)]

mod asking;
mod binding_comparisons;
mod binding_tally;
mod binding_trials;
mod comparing;
mod dice;
mod draft;
mod draft_expressions;
mod drawing;
mod enforcing;
mod entries;
mod files;
mod inputs;
mod outcomes;
mod plain_calls;
mod plain_error;
mod plain_reading;
mod plain_search;
mod plain_values;
mod random_relations;
mod small;
mod tally;
mod terms;
mod trials;

use asking::answer;
use binding_trials::put_binding_trials;
use case_texts::Pen;
use files::CaseFiles;
use mof_metamodel::{NoMemory, Text};
use outcomes::{Demanded, Made, Question, Shown};
use std::io;

/// What a verb asks for.
fn shown_by(verb: &str) -> Option<Shown> {
    match verb {
        "demands" => Some(Shown::Demanded(Demanded::All)),
        "counts" => Some(Shown::Demanded(Demanded::Counts)),
        "repair" => Some(Shown::Demanded(Demanded::Account)),
        "enforce" => Some(Shown::Made(Made::All)),
        "size" => Some(Shown::Made(Made::Size)),
        _ => None,
    }
}

/// The answer to words `N SEED` before those of a case.
fn random(files: &CaseFiles, words: &str) -> Result<Text, NoMemory> {
    let (count, rest) = words.split_once(' ').unwrap_or((words, ""));
    let (seed, rest) = rest.split_once(' ').unwrap_or((rest, ""));
    let trials = Question::Trials {
        count: count.parse().unwrap_or(0),
        seed: seed.parse().unwrap_or(0),
    };
    answer(files, rest, trials)
}

/// How trials of random scripts end, by words `N SEED` before the files of their metamodels.
fn random_bindings(files: &CaseFiles, words: &str) -> Result<Text, NoMemory> {
    let (count, rest) = words.split_once(' ').unwrap_or((words, ""));
    let (seed, pairs) = rest.split_once(' ').unwrap_or((rest, ""));
    let mut pen = Pen::new(files.alloc)?;
    let count = count.parse().unwrap_or(0);
    let seed = seed.parse().unwrap_or(0);
    put_binding_trials(&mut pen, files, pairs, count, seed)?;
    pen.written()
}

/// The answer to a verb, if it asks for something.
fn asked(files: &CaseFiles, verb: &str, words: &str) -> Result<Option<Text>, NoMemory> {
    match shown_by(verb) {
        Some(shown) => Ok(Some(answer(files, words, Question::Files(shown))?)),
        None => Ok(None),
    }
}

/// What a line comes to: nothing, or an answer.
fn answered(files: &mut CaseFiles, line: &str) -> Result<Option<Text>, NoMemory> {
    match line.split_once(' ') {
        Some(("random", words)) => Ok(Some(random(files, words)?)),
        Some(("bindings", words)) => Ok(Some(random_bindings(files, words)?)),
        Some(("file", rest)) => {
            files.add(rest)?;
            Ok(None)
        }
        Some(("+", rest)) => {
            files.add_line(rest)?;
            Ok(None)
        }
        Some((verb, words)) => asked(files, verb, words),
        None => Ok(None),
    }
}

/// Prints a line with its answer, if it asks for something.
fn print_answer(rt: &HostRuntime, files: &mut CaseFiles, line: &str) -> io::Result<()> {
    match answered(files, line) {
        Ok(Some(text)) => {
            let shown = text.as_str();
            let printed = println!(rt; "{line} =>{shown}");
            drop(text);
            printed
        }
        Ok(None) => Ok(()),
        Err(_) => println!(rt; "{line} => no memory"),
    }
}

fn main(rt: HostRuntime) -> io::Result<()> {
    let mut files = CaseFiles::new(rt.alloc());
    for line in rt.lines(rt.alloc()) {
        let line = line?;
        let printed = print_answer(&rt, &mut files, line.as_str());
        drop(line);
        printed?;
    }
    Ok(())
}
