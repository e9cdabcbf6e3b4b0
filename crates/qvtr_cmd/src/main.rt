//! The program `qvtr`: it gives its words, its files and its standard output to the engine, and ends with its status.
#![tactic(auto)]

use qvtr_engine::{Status, run};
use std::env;
use std::io::ErrorKind;
use std::process::ExitCode;
use std::rt::Env;
use vault_io::{FileVault, StdSink};

/// The words after the program's name. Words that aren't all UTF-8 are no command, so there are none.
fn words<R: Env + AllocGlobal>(rt: &R) -> Result<Vec<String>, Status> {
    match env::args(rt) {
        Ok(words) => words
            .skip(1)
            .collect(rt.alloc())
            .map_err(|_| Status::NoMemory),
        Err(error) => match error.kind() {
            ErrorKind::OutOfMemory => Err(Status::NoMemory),
            ErrorKind::InvalidData => Ok(Vec::new(rt.alloc())),
            _ => Err(Status::Fault),
        },
    }
}

fn main(rt: HostRuntime) -> ExitCode {
    let status = match words(&rt) {
        Ok(words) => {
            let mut vault = FileVault::new(&rt);
            let mut out = StdSink::new(&rt);
            run(rt.alloc(), words.as_slice(), &mut vault, &mut out)
        }
        Err(status) => status,
    };
    ExitCode::from(status.code())
}
