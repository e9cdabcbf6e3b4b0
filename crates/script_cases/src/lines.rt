//! Pieces of what is printed.
use case_texts::Pen;
use mof_metamodel::{NoMemory, Seq};
use std::alloc::Global;

/// A line that was made, without its line feed.
pub(crate) fn put_line(pen: &mut Pen, made: &Result<Seq<u8>, NoMemory>) {
    match made {
        Ok(line) => put_bytes(pen, line.as_slice()),
        Err(_) => pen.put(" no memory"),
    }
}

fn put_bytes(pen: &mut Pen, line: &[u8]) {
    pen.put(" ");
    match str::from_utf8(line) {
        Ok(text) => pen.put(text.trim_end_matches('\n')),
        Err(_) => pen.put("no text"),
    }
}

/// A number behind a blank.
pub(crate) fn put_number(alloc: Global, pen: &mut Pen, number: u32) {
    pen.put_string(format!(in alloc; " {number}"));
}

/// Numbers, each behind a blank.
pub(crate) fn put_numbers(alloc: Global, pen: &mut Pen, numbers: &[u32]) {
    for number in numbers {
        put_number(alloc, pen, *number);
    }
}
