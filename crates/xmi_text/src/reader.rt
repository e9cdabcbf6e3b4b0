ghost use Rattle.std.specs.Prelude.{◌≡◌, ◌<◌, ◌≤◌, ℕ, [], false, true, ◌++◌, length, OnOk, OnErr};
ghost use Rattle.xmi_text.specs.Fixing.{Tells};
ghost use Rattle.xmi_text.specs.Reading.{Reached, Answers, answer, after_answer, last_by};
ghost use Rattle.xmi_text.specs.declared.state.Ready.TheVariants as ready;

use crate::error::TextError;
use crate::mark::{Mark, Step};
use crate::state::State;
use mof_metamodel::NoMemory;
use std::alloc::Global;
use std::marker::Model;

/// Reads the markup of a text that comes in pieces. Contracts see what it was fed and how many marks it gave.
#[derive(Drop)]
pub struct Reader {
    alloc: Global,
    bytes: Vec<u8>,
    finished: bool,
    given: u128,
    at: usize,
    state: State,
}

impl Model for Reader {
    ghost use Rattle.xmi_text.specs.Reading.{Fed, Reached};

    ghost Value = { Fed };

    ghost view = { λ r. record { bytes = r.bytes.items; finished = r.finished; given = r.given } };

    ghost invariant = { λ r. Reached r.bytes.items r.at r.given r.state };
}

impl Reader {
    /// A reader that was fed nothing.
    pub fn new(alloc: Global) -> Reader
        ensures { result ≡ record { bytes = []; finished = false; given = 0 } }
    {
        Reader {
            alloc,
            bytes: Vec::new(alloc),
            finished: false,
            given: 0,
            at: 0,
            state: State::new(alloc),
        }
    }

    /// Takes the next bytes of the text. After `NoMemory` the reader is as it was.
    pub fn feed(&mut self, piece: &[u8]) -> Result<(), NoMemory>
        requires { self.old.finished ≡ false }
        ensures ok { OnOk result (self.new ≡ record self.old { bytes = self.old.bytes ++ piece.now }) }
        ensures err { OnErr result (self.new ≡ self.old) }
    {
        self.bytes.extend_from_slice(piece)?;
        Ok(())
    }

    /// Says that the text ends behind the bytes so far.
    pub fn finish(&mut self)
        ensures { self.new ≡ record self.old { finished = true } }
    {
        self.finished = true;
    }

    /// The next mark of the text, or behind the last one `End` or the fault, which comes again then. While the text
    /// may go on it is answered where the bytes so far fix it, whatever follows, and `NotYet` where they leave it
    /// open. After `NoMemory` the reader is as it was.
    pub fn next(&mut self) -> Result<Step, TextError>
        ensures answer { Answers result (answer self.old) }
        ensures tells { Tells result self.old }
        ensures behind { self.new ≡ after_answer result self.old }
    {
        advance(
            self.alloc,
            &mut self.state,
            self.bytes.as_slice(),
            &mut self.at,
        )?;
        match self.state.take_mark(self.alloc) {
            Some(mark) => {
                self.given += 1;
                Ok(Step::Mark(mark))
            }
            None => last_answer(&self.state, self.at as u64, self.finished),
        }
    }
}

/// Steps over bytes until a mark is complete. What was reached is true after `NoMemory` too.
fn advance(alloc: Global, state: &mut State, bytes: &[u8], at: &mut usize) -> Result<(), NoMemory>
    requires { at.old ≤ length bytes.now }
    ensures reached { (given : ℕ) → Reached bytes.now at.old given state.old → Reached bytes.now at.new given state.new }
    ensures stopped { OnOk result (state.new.ready ≡ ready.Nothing → at.new ≡ length bytes.now) }
{
    while *at < bytes.len() && state.is_idle() {
        state.step(alloc, *at as u64, bytes[*at])?;
        *at += 1;
    }
    Ok(())
}

/// The answer behind the last mark.
fn last_answer(state: &State, length: u64, finished: bool) -> Result<Step, TextError>
    ensures { result ≡ last_by finished state.now length }
{
    if finished {
        match state.end_fault(length) {
            Some(fault) => Err(TextError::Fault(fault)),
            None => Ok(Step::Mark(Mark::End)),
        }
    } else {
        match state.fault() {
            Some(fault) => Err(TextError::Fault(fault)),
            None => Ok(Step::NotYet),
        }
    }
}
