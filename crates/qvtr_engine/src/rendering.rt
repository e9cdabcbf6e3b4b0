ghost use Rattle.std.specs.Prelude.{◌≡◌, IfOk, IsSomeAnd};
ghost use Rattle.qvtr_engine.specs.Reply as spec;
ghost use Rattle.qvtr_engine.specs.Outcome.{reply_of, reply_of_stop};

use crate::outcome::{Outcome, Stop};
use crate::status::Status;
use answer_texts::concatenate;
use enforce_steps::{Cause, report_text};
use mof_metamodel::{NoMemory, Seq};
use std::alloc::Global;

/// What is printed where the words are no command.
pub(crate) const USAGE: &[u8] = b"usage\n";

/// What is printed where a file was put.
pub(crate) const DONE: &[u8] = b"done\n";

/// What is printed where memory could not be had.
pub(crate) const NO_MEMORY: &[u8] = b"no memory\n";

/// A status and the text that is printed with it.
#[derive(Drop)]
pub(crate) struct Page {
    pub status: Status,
    pub text: Seq<u8>,
}

/// What is printed where the file at the path couldn't be read or put.
pub(crate) fn fault_text(alloc: Global, path: &str) -> Result<Seq<u8>, NoMemory>
    ensures { IfOk result (λ text. text ≡ spec.fault_text path.now) }
{
    concatenate(alloc, &[b"fault ", path.as_bytes(), b"\n"])
}

/// What is printed where the file at the path is too long.
fn too_long_text(alloc: Global, path: &str) -> Result<Seq<u8>, NoMemory>
    ensures { IfOk result (λ text. text ≡ spec.too_long_text path.now) }
{
    concatenate(alloc, &[b"limit bytes ", path.as_bytes(), b"\n"])
}

/// A page with a copy of this text.
fn page_of(alloc: Global, status: Status, text: &[u8]) -> Result<Page, NoMemory>
    ensures { IfOk result (λ page. (page.status ≡ status) × (page.text ≡ text.now)) }
{
    Ok(Page {
        status,
        text: Seq::from_slice(alloc, text)?,
    })
}

/// What is printed of an outcome, where it needs no put or after it.
pub(crate) fn render_outcome(alloc: Global, outcome: &Outcome<'_>) -> Result<Page, NoMemory>
    ensures { IfOk result (λ page. (page.status ≡ spec.status_of (reply_of outcome.now)) × (page.text ≡ spec.text_of (reply_of outcome.now))) }
{
    match outcome {
        Outcome::Yes => page_of(alloc, Status::Done, b"yes\n"),
        Outcome::No(text) => page_of(alloc, Status::No, text.as_slice()),
        Outcome::Kept => page_of(alloc, Status::Done, b"unchanged\n"),
        Outcome::Traced(text) => page_of(alloc, Status::Done, text.as_slice()),
        Outcome::Mended { report, .. } => Ok(Page {
            status: Status::Done,
            text: report_text(alloc, report)?,
        }),
    }
}

/// The status of a refusal for a cause.
fn status_of_cause(cause: Cause) -> Status
    ensures { result ≡ spec.status_of_cause cause }
{
    match cause {
        Cause::NotEnforceable => Status::NotEnforceable,
        Cause::Chain => Status::Chain,
        Cause::Unmet => Status::Unmet,
        Cause::Conflict => Status::Conflict,
        Cause::Invalid => Status::Invalid,
        Cause::Limit => Status::Limit,
    }
}

/// The status of a fault of a file.
fn status_of_fault(is_limit: bool) -> Status
    ensures { result ≡ spec.status_of_fault is_limit }
{
    if is_limit {
        Status::Limit
    } else {
        Status::Refused
    }
}

/// What is printed of what stops the work. Where that is want of memory, so is the answer.
pub(crate) fn render_stop(alloc: Global, stop: &Stop<'_>) -> Result<Page, NoMemory>
    ensures { IfOk result (λ page. IsSomeAnd (reply_of_stop stop.now)
        (λ reply. (page.status ≡ spec.status_of reply) × (page.text ≡ spec.text_of reply))) }
{
    match stop {
        Stop::Fault(path) => Ok(Page {
            status: Status::Fault,
            text: fault_text(alloc, path)?,
        }),
        Stop::TooLong(path) => Ok(Page {
            status: Status::Limit,
            text: too_long_text(alloc, path)?,
        }),
        Stop::Faulty { is_limit, line } => {
            page_of(alloc, status_of_fault(*is_limit), line.as_slice())
        }
        Stop::Refused { cause, text } => page_of(alloc, status_of_cause(*cause), text.as_slice()),
        Stop::NoMemory => Err(NoMemory),
    }
}
