use crate::markup::printing::{put_shown, put_shown_up_to};
use crate::markup::reading::put_outcomes;
use case_texts::{Pen, expanded};
use mof_metamodel::{NoMemory, is_storable, or_drop};
use std::alloc::Global;
use std::str;
use xmi_text::{Writer, is_name};

/// The most characters of a written text that are shown.
const SHOWN_CHARACTERS: usize = 400;

/// Puts what the calls of a script write, and what is read of it.
pub(crate) fn put_written(alloc: Global, pen: &mut Pen, script: &str) -> Result<(), NoMemory> {
    let bytes = expanded(alloc, script)?;
    let put = match str::from_utf8(bytes.as_slice()) {
        Ok(text) => put_carried_out(alloc, pen, text),
        Err(_) => {
            pen.put("no text");
            Ok(())
        }
    };
    drop(bytes);
    put
}

/// Carries the calls of a script out, up to the first that may not come.
fn carry_all_out<'a>(writer: &mut Writer, script: &'a str) -> Result<Option<&'a str>, NoMemory> {
    for call in script.split("; ") {
        if !carry_out(writer, call)? {
            return Ok(Some(call));
        }
    }
    Ok(None)
}

/// Puts what a writer wrote, if it may end there, and what is read of it.
fn put_read_again(alloc: Global, pen: &mut Pen, writer: Writer) -> Result<(), NoMemory> {
    if !writer.is_whole() {
        drop(writer);
        pen.put("not whole");
        return Ok(());
    }
    let bytes = writer.into_bytes();
    put_bytes(alloc, pen, bytes.as_slice());
    pen.put(" | ");
    let put = put_outcomes(alloc, pen, bytes.as_slice());
    drop(bytes);
    put
}

fn put_carried_out(alloc: Global, pen: &mut Pen, script: &str) -> Result<(), NoMemory> {
    let mut writer = Writer::new(alloc);
    match or_drop!(carry_all_out(&mut writer, script); writer) {
        Some(call) => {
            drop(writer);
            pen.put("may not come: ");
            put_shown(alloc, pen, call);
            Ok(())
        }
        None => put_read_again(alloc, pen, writer),
    }
}

fn put_bytes(alloc: Global, pen: &mut Pen, bytes: &[u8]) {
    match str::from_utf8(bytes) {
        Ok(text) => put_shown_up_to(alloc, pen, text, SHOWN_CHARACTERS),
        Err(_) => pen.put("no text"),
    }
}

/// Carries a call out, if it may come.
fn carry_out(writer: &mut Writer, call: &str) -> Result<bool, NoMemory> {
    let (word, text) = call.split_once(' ').unwrap_or((call, ""));
    match word {
        "open" => open(writer, text),
        "attr" => {
            let (name, value) = text.split_once(' ').unwrap_or((text, ""));
            attr(writer, name, value)
        }
        "data" => data(writer, text),
        "close" => close(writer),
        "declare" => declare(writer),
        "line" => {
            writer.line(text.parse().unwrap_or(0))?;
            Ok(true)
        }
        _ => Ok(false),
    }
}

fn open(writer: &mut Writer, name: &str) -> Result<bool, NoMemory> {
    if !is_name(name) || !writer.may_open() {
        return Ok(false);
    }
    writer.open(name)?;
    Ok(true)
}

fn attr(writer: &mut Writer, name: &str, value: &str) -> Result<bool, NoMemory> {
    if !is_name(name) || !is_storable(value) || !writer.may_attr(name) {
        return Ok(false);
    }
    writer.attr(name, value)?;
    Ok(true)
}

fn data(writer: &mut Writer, text: &str) -> Result<bool, NoMemory> {
    if !is_storable(text) || !writer.is_inside() {
        return Ok(false);
    }
    writer.data(text)?;
    Ok(true)
}

fn close(writer: &mut Writer) -> Result<bool, NoMemory> {
    if !writer.is_inside() {
        return Ok(false);
    }
    writer.close()?;
    Ok(true)
}

fn declare(writer: &mut Writer) -> Result<bool, NoMemory> {
    if !writer.is_empty() {
        return Ok(false);
    }
    writer.declare()?;
    Ok(true)
}
