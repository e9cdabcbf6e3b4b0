//! Cases of expressions: their types, their values, and queries. They stand in the standard input, a line
//! each, and each is printed again with its answer behind ` => `. A line `cases of types`, `cases of values`
//! or `cases of queries` begins those of each, and what stands before the first of them is passed over. In
//! each TEXT `%` and two hexadecimal digits are a byte, and `%[3 ab]` is `ababab`. What is in reach of the
//! cases of types and of values is written above them, up to the line `setting NAME` that begins another
//! setting; a line of it that is refused is printed. Lines that are empty or begin with `#` are passed over.
//!
//! # Types
//!
//! From a text to the typed tree: tokens, grammar and types together.
//!
//! | line | answer |
//! |---|---|
//! | `tokens TEXT` | the kind, the text and the bytes of each token |
//! | `count TEXT` | how many tokens there are |
//! | `parse TEXT` | the expression, with the number of the token behind it where there is one |
//! | `end TEXT` | the number of the token behind the expression |
//! | `type TEXT` | the type of the expression |
//! | `tree TEXT` | the expression with its types, names by their numbers |
//! | `path M::C` | the type that a path names as a written type |
//! | `text TYPE` | the type as it is printed |
//! | `same TYPE, TYPE` | whether two types are one |
//! | `conforms TYPE, TYPE` | whether the first type conforms to the second |
//! | `upper TYPE, TYPE` | that of the two types to which both conform |
//! | `values M::C.NAME` | what navigation to a property gives |
//! | `storable TEXT` | whether a text may be the value of a String |
//!
//! In place of an answer a fault may stand, with its place or its names. A TYPE is `Integer`, `M::Node`,
//! `Set(M::Node)`, or by numbers `class 2 0`. In reach are `metamodel M`, with the items of
//! `model_building::described` on indented lines below it; `model left M`; `variable x : TYPE`, or
//! `variable x : TYPE in left` for the objects of one model; `query q(TYPE, TYPE) : TYPE`.
//!
//! # Values
//!
//! Expressions, typed among metamodels, models, variables and queries, and evaluated.
//!
//! | line | answer |
//! |---|---|
//! | `value TEXT` | the value of the expression, or the kind of its fault |
//! | `holds TEXT` | whether its value is true |
//!
//! | line of a setting | meaning |
//! |---|---|
//! | `metamodel M` | a metamodel, with the items of `model_building::described` on indented lines below it |
//! | `model left M` | a model, with edits on indented lines below it: `add C id`, `set id prop values`, `link id prop id`, `row C id 20` |
//! | `variable x : TYPE = TEXT` | a variable of a data type, with the datum that is the value of the expression |
//! | `variable x : TYPE in 0 = id` | a variable of a class, with an object of the model of that number |
//! | `query q(x : TYPE, y : TYPE) : TYPE = TEXT` | a query |
//!
//! # Queries
//!
//! Each line is the queries of a script. Its answer is for each query its name, the number of its parameters
//! and the type of its body, or the fault.
#![tactic(auto)]

mod queries;
mod types;
mod values;

use mof_metamodel::{NoMemory, Text};
use std::alloc::Global;
use std::io;

/// The answers to cases of a setting, by what they are cases of.
fn answers(alloc: Global, name: &str, setting: &str) -> Result<Text, NoMemory> {
    match name {
        "types" => types::answers(alloc, setting),
        "values" => values::answers(alloc, setting),
        "queries" => queries::answers(alloc, setting),
        _ => Text::new(alloc, "no such cases\n"),
    }
}

/// Prints the name of a setting, but not where a comment stands above the first one.
fn print_heading(rt: &impl Print, setting: &str) -> io::Result<()> {
    if setting.starts_with('#') {
        return Ok(());
    }
    let (name, _) = setting.split_once('\n').unwrap_or((setting, ""));
    println!(rt; "setting {name}")
}

/// Prints the answers to the cases of a setting.
fn print_answers(rt: &impl Print, answers: Result<Text, NoMemory>) -> io::Result<()> {
    match answers {
        Ok(text) => {
            let printed = rt.print(text.as_str());
            drop(text);
            printed
        }
        Err(_) => println!(rt; "no memory"),
    }
}

/// Prints the cases of what the first line names.
fn print_part(rt: &impl Print, alloc: Global, part: &str) -> io::Result<()> {
    let (name, cases) = part.split_once('\n').unwrap_or((part, ""));
    println!(rt; "cases of {name}")?;
    for setting in cases.split("\nsetting ") {
        print_heading(rt, setting)?;
        print_answers(rt, answers(alloc, name, setting))?;
    }
    Ok(())
}

fn print_parts(rt: &impl Print, alloc: Global, text: &str) -> io::Result<()> {
    for part in text.split("\ncases of ").skip(1) {
        print_part(rt, alloc, part)?;
    }
    Ok(())
}

fn main(rt: HostRuntime) -> io::Result<()> {
    let text = io::read_to_string(rt.alloc(), rt.reader())?;
    let printed = print_parts(&rt, rt.alloc(), text.as_str());
    drop(text);
    printed
}
