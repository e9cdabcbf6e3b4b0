use crate::bytes::{meant, split_word};
use crate::session::{loaded, put};
use mof_metamodel::NoMemory;
use std::rt::Files;
use vault_io::{Failed, FileVault, StdSink, print_all};

/// What a case over the files and the output of the system comes to.
pub fn answer<R: Files + AllocGlobal + Print>(
    rt: &R,
    case: &str,
) -> Result<Option<String>, NoMemory> {
    let (verb, rest) = split_word(case);
    let answer = match verb {
        "load" => loaded(rt.alloc(), &mut FileVault::new(rt), rest),
        "put" => put(rt.alloc(), &mut FileVault::new(rt), rest),
        "print" => print(rt, rest),
        _ => return Ok(None),
    };
    Ok(Some(answer?))
}

fn print<R: AllocGlobal + Print>(rt: &R, text: &str) -> Result<String, NoMemory> {
    let bytes = meant(rt.alloc(), text)?;
    let word = match print_all(&mut StdSink::new(rt), bytes.as_slice()) {
        Ok(()) => "printed",
        Err(Failed) => "failed",
    };
    drop(bytes);
    Ok(String::from_str(rt.alloc(), word)?)
}
