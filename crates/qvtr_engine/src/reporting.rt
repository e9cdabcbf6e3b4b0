//! What a run prints, and the status with which it ends.
ghost use Rattle.std.specs.Prelude.{◌≡◌, ◌≤◌, Some};
ghost use Rattle.vault_io.specs.Counts.{Rose};
ghost use Rattle.qvtr_engine.specs.Outcome.{Finishes, RefusesWords, Reports, reply_of, reply_of_stop};

use crate::outcome::{Outcome, Stop};
use crate::rendering::{NO_MEMORY, USAGE, render_outcome, render_stop};
use crate::status::Status;
use command_words::WordsError;
use mof_metamodel::NoMemory;
use std::alloc::Global;
use vault_io::{Failed, Sink, print_all};

/// Prints a text, and answers the status of the run.
pub(crate) fn finish<K: Sink>(out: &mut K, status: Status, text: &[u8]) -> Status
    ensures ends { Finishes status text.now (K.told out.old) (K.told out.new) (Rose (K.faults out.old) (K.faults out.new)) result }
    ensures faults { K.faults out.old ≤ K.faults out.new }
{
    match print_all(out, text) {
        Ok(()) => status,
        Err(Failed) => Status::Fault,
    }
}

/// Prints that the words are no command, or that memory to read them could not be had.
pub(crate) fn report_words<K: Sink>(out: &mut K, error: WordsError) -> Status
    ensures ends { RefusesWords error (K.told out.old) (K.told out.new) (Rose (K.faults out.old) (K.faults out.new)) result }
    ensures faults { K.faults out.old ≤ K.faults out.new }
{
    match error {
        WordsError::Usage => finish(out, Status::Usage, USAGE),
        WordsError::NoMemory => finish(out, Status::NoMemory, NO_MEMORY),
    }
}

/// Prints what an execution came to by which no file is put.
pub(crate) fn report_outcome<K: Sink>(alloc: Global, out: &mut K, outcome: &Outcome<'_>) -> Status
    ensures ends { Reports (Some (reply_of outcome.now)) (K.told out.old) (K.told out.new) (Rose (K.faults out.old) (K.faults out.new)) result }
    ensures faults { K.faults out.old ≤ K.faults out.new }
{
    match render_outcome(alloc, outcome) {
        Ok(page) => finish(out, page.status, page.text.as_slice()),
        Err(NoMemory) => finish(out, Status::NoMemory, NO_MEMORY),
    }
}

/// Prints what stopped the work.
pub(crate) fn report_stop<K: Sink>(alloc: Global, out: &mut K, stop: &Stop<'_>) -> Status
    ensures ends { Reports (reply_of_stop stop.now) (K.told out.old) (K.told out.new) (Rose (K.faults out.old) (K.faults out.new)) result }
    ensures faults { K.faults out.old ≤ K.faults out.new }
{
    match render_stop(alloc, stop) {
        Ok(page) => finish(out, page.status, page.text.as_slice()),
        Err(NoMemory) => finish(out, Status::NoMemory, NO_MEMORY),
    }
}
