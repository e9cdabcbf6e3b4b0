ghost use Rattle.std.specs.Prelude.{◌≡◌, ◌<◌, false, OnOk};

use crate::markup::printing::{Trace, put_fault};
use case_texts::Pen;
use mof_metamodel::{NoMemory, Text, or_drop};
use std::alloc::Global;
use xmi_text::{Mark, Reader, Step, TextError, TextFault, TextKind};

/// Where a reader stops.
#[derive(Clone, Copy)]
enum Stop {
    NotYet,
    End,
    Fault(TextFault),
}

/// Takes the marks that a reader has, up to where it stops.
fn drain(reader: &mut Reader, trace: &mut Trace) -> Result<Stop, NoMemory>
    ensures { OnOk result (reader.new.finished ≡ reader.old.finished) }
{
    'marks: for _ in 0..u64::MAX {
        match reader.next() {
            Ok(Step::Mark(Mark::End)) => return Ok(Stop::End),
            Ok(Step::Mark(mark)) => {
                trace.push(&mark);
                drop(mark);
            }
            Ok(Step::NotYet) => return Ok(Stop::NotYet),
            Err(TextError::Fault(fault)) => return Ok(Stop::Fault(fault)),
            Err(TextError::NoMemory) => return Err(NoMemory),
        }
    }
    Ok(Stop::NotYet)
}

/// Feeds a text in pieces of a size, and takes the marks behind each piece.
fn feed(reader: &mut Reader, bytes: &[u8], size: usize, trace: &mut Trace) -> Result<(), NoMemory>
    requires some { 0 < size }
    requires goes_on { reader.old.finished ≡ false }
{
    'pieces: for piece in bytes.chunks(size) {
        reader.feed(piece)?;
        drain(reader, trace)?;
    }
    Ok(())
}

/// Puts the marks that a reader gives of a text in pieces of a size, and its last answer, which is asked for
/// twice.
fn put_outcome(
    alloc: Global,
    pen: &mut Pen,
    reader: &mut Reader,
    bytes: &[u8],
    size: usize,
) -> Result<(), NoMemory>
    requires { reader.old.finished ≡ false }
{
    let mut trace = Trace::new(alloc)?;
    or_drop!(feed(reader, bytes, size.max(1), &mut trace); trace);
    reader.finish();
    or_drop!(drain(reader, &mut trace); trace);
    let stop = or_drop!(drain(reader, &mut trace); trace);
    trace.put_into(pen);
    put_stop(alloc, pen, stop);
    Ok(())
}

/// The marks of a text in pieces of a size, and its last answer.
pub(crate) fn outcome(alloc: Global, bytes: &[u8], size: usize) -> Result<Text, NoMemory> {
    let mut pen = Pen::new(alloc)?;
    let mut reader = Reader::new(alloc);
    let put = put_outcome(alloc, &mut pen, &mut reader, bytes, size);
    drop(reader);
    or_drop!(put; pen);
    pen.written()
}

fn put_stop(alloc: Global, pen: &mut Pen, stop: Stop) {
    match stop {
        Stop::NotYet => pen.put("no last answer"),
        Stop::End => pen.put("END"),
        Stop::Fault(fault) => put_fault(alloc, pen, fault),
    }
}

/// Puts the outcome of a whole text, and those of its pieces that are others.
pub(crate) fn put_outcomes(alloc: Global, pen: &mut Pen, bytes: &[u8]) -> Result<(), NoMemory> {
    let whole = outcome(alloc, bytes, bytes.len())?;
    pen.put(whole.as_str());
    let put = put_others(alloc, pen, bytes, whole.as_str());
    drop(whole);
    put
}

fn put_others(alloc: Global, pen: &mut Pen, bytes: &[u8], whole: &str) -> Result<(), NoMemory> {
    for size in [1, 2, 7] {
        put_if_other(alloc, pen, outcome(alloc, bytes, size)?, size, whole);
    }
    Ok(())
}

/// Puts the outcome of pieces of a size, if it is another than that of the whole.
fn put_if_other(alloc: Global, pen: &mut Pen, other: Text, size: usize, whole: &str) {
    if other.as_str() != whole {
        pen.put_string(format!(in alloc; " but in pieces of {size} "));
        pen.put(other.as_str());
    }
    drop(other);
}

/// Puts what a reader gives at the end of a text.
fn put_end(alloc: Global, pen: &mut Pen, reader: &mut Reader) -> Result<(), NoMemory> {
    let mut trace = Trace::new(alloc)?;
    let stop = or_drop!(drain(reader, &mut trace); trace);
    pen.put("end: ");
    trace.put_into(pen);
    put_stop(alloc, pen, stop);
    Ok(())
}

/// Puts what a reader gives with each byte of a text, and at its end.
fn put_times_of(
    alloc: Global,
    pen: &mut Pen,
    reader: &mut Reader,
    bytes: &[u8],
) -> Result<(), NoMemory>
    requires { reader.old.finished ≡ false }
{
    feed_bytes(alloc, pen, reader, bytes)?;
    reader.finish();
    put_end(alloc, pen, reader)
}

/// Puts what comes with each byte of a text, and at its end.
pub(crate) fn put_times(alloc: Global, pen: &mut Pen, bytes: &[u8]) -> Result<(), NoMemory> {
    let mut reader = Reader::new(alloc);
    let put = put_times_of(alloc, pen, &mut reader, bytes);
    drop(reader);
    put
}

/// Feeds the bytes of a text, and puts what comes with each, up to a fault.
fn feed_bytes(
    alloc: Global,
    pen: &mut Pen,
    reader: &mut Reader,
    bytes: &[u8],
) -> Result<(), NoMemory>
    requires { reader.old.finished ≡ false }
{
    let mut count = 0u64;
    'bytes: for piece in bytes.chunks(1) {
        count = count.saturating_add(1);
        reader.feed(piece)?;
        let mut trace = Trace::new(alloc)?;
        let stop = or_drop!(drain(reader, &mut trace); trace);
        if put_time(alloc, pen, count, trace, stop) {
            return Ok(());
        }
    }
    Ok(())
}

/// Puts what came with a byte, and says whether it was a fault.
fn put_time(alloc: Global, pen: &mut Pen, count: u64, trace: Trace, stop: Stop) -> bool {
    let fault = match stop {
        Stop::Fault(fault) => Some(fault),
        _ => None,
    };
    if trace.is_empty() && fault.is_none() {
        drop(trace);
        return false;
    }
    pen.put_string(format!(in alloc; "{count}: "));
    trace.put_into(pen);
    match fault {
        Some(fault) => {
            put_fault(alloc, pen, fault);
            pen.put(" ");
            true
        }
        None => false,
    }
}

/// Where a reader stops that is fed a whole text at once.
fn stop_of(alloc: Global, reader: &mut Reader, bytes: &[u8]) -> Result<Stop, NoMemory>
    requires { reader.old.finished ≡ false }
{
    let mut trace = Trace::new(alloc)?;
    or_drop!(reader.feed(bytes); trace);
    reader.finish();
    let stop = drain(reader, &mut trace);
    drop(trace);
    stop
}

/// Whether bytes end before a text is whole, and have no other fault.
fn is_open(alloc: Global, bytes: &[u8]) -> Result<bool, NoMemory> {
    let mut reader = Reader::new(alloc);
    let stop = stop_of(alloc, &mut reader, bytes);
    drop(reader);
    match stop? {
        Stop::Fault(fault) => {
            Ok(matches!(fault.kind, TextKind::OpenTag) && fault.at == bytes.len() as u64)
        }
        _ => Ok(false),
    }
}

/// Puts the lengths of the proper prefixes of a text that don't end too early.
pub(crate) fn put_prefixes(alloc: Global, pen: &mut Pen, bytes: &[u8]) -> Result<(), NoMemory> {
    for length in 0..bytes.len() {
        if !is_open(alloc, &bytes[..length])? {
            pen.put_string(format!(in alloc; "{length} "));
        }
    }
    let count = bytes.len();
    pen.put_string(format!(in alloc; "of {count}"));
    Ok(())
}
