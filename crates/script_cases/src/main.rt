//! Cases of scripts, from their text to their tree and to what they resolve to. They stand in the standard
//! input, and each is printed again with its answer behind ` =>`. A line `cases of trees` or
//! `cases of programs` begins those of each, and what stands before the first of them is passed over. Lines
//! that are empty or begin with `#` are passed over. In each TEXT `%` and two hexadecimal digits are a byte,
//! and `%[3 ab]` is `ababab`. Where a text has no script or no program the answer is the line that is printed
//! of its fault.
//!
//! # Trees
//!
//! Each line is the text of a script, and the answer is the script in short: its name and its models, then
//! each declaration behind a `;`: a key with its class and its properties, a query with its parameters, a
//! relation with its variables, its domains, and how many expressions its clauses have. A template is its
//! class with its items in braces, where an expression is `_`.
//!
//! # Programs
//!
//! A case is a word, a target and a text, on one line and the indented lines below it:
//!
//! | case | answer |
//! |---|---|
//! | `resolves TARGET TEXT` | that the text resolves in the direction towards the model TARGET |
//! | `program TARGET TEXT` | the program, a line each for its name with its target's number, its models, keys, queries and relations |
//! | `relations TARGET TEXT` | of the program, the relations: name, top, part of the direction, stratum |
//! | `variables TARGET TEXT` | the variables of each, and which are universal and existential |
//! | `domains TARGET TEXT` | its domains, with their templates |
//! | `clauses TARGET TEXT` | the conjuncts of its clauses |
//! | `enforceable TARGET TEXT` | `ok` where the program can be enforced, and else the rule that is broken and the relation that breaks it |
//! | `example TARGET TEXT` | the program of the example, as code makes it, over the metamodels of the text |
//! | `names TARGET NAMES: TEXT` | whether these names, of files say, are those of the text |
//!
//! A program has numbers for names: a model of a metamodel is `model uml of 0`, a key `key 1 2: 3 0` with its
//! metamodel, its class and its properties, a template `4: class 2 {3 = 5: class 1 {}}` with its variable,
//! its class and its items. Expressions are printed with their types, each part in parentheses.
//!
//! The metamodels of the cases are written above them, up to the line `setting NAME` that begins another
//! setting: `metamodel M`, with the items of `model_building::described` on indented lines below it. In a
//! setting with the line `models MODELS` a text that doesn't begin with `transformation` is what a
//! transformation `T` over these models declares.
#![tactic(auto)]

mod lines;
mod reading;
mod resolution;
mod trees;

use mof_metamodel::{NoMemory, Text};
use std::alloc::Global;
use std::io;

/// Prints cases with their answers.
fn print_answers(rt: &impl Print, answers: Result<Text, NoMemory>) -> io::Result<()> {
    match answers {
        Ok(text) => {
            let printed = rt.print(text.as_str());
            drop(text);
            printed
        }
        Err(_) => println!(rt; "no memory"),
    }
}

fn print_programs(rt: &impl Print, alloc: Global, cases: &str) -> io::Result<()> {
    for setting in cases.split("\nsetting ") {
        print_answers(rt, resolution::answers(alloc, setting))?;
    }
    Ok(())
}

/// Prints the cases of what the first line names.
fn print_part(rt: &impl Print, alloc: Global, part: &str) -> io::Result<()> {
    let (name, cases) = part.split_once('\n').unwrap_or((part, ""));
    println!(rt; "cases of {name}")?;
    match name {
        "trees" => print_answers(rt, trees::answers(alloc, cases)),
        "programs" => print_programs(rt, alloc, cases),
        _ => println!(rt; "no such cases"),
    }
}

fn print_parts(rt: &impl Print, alloc: Global, text: &str) -> io::Result<()> {
    for part in text.split("\ncases of ").skip(1) {
        print_part(rt, alloc, part)?;
    }
    Ok(())
}

fn main(rt: HostRuntime) -> io::Result<()> {
    let text = io::read_to_string(rt.alloc(), rt.reader())?;
    let printed = print_parts(&rt, rt.alloc(), text.as_str());
    drop(text);
    printed
}
