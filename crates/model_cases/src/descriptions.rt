use case_texts::Pen;
use model_building::described;
use mof_metamodel::{MetaError, MetaFault, MetaModel, NoMemory, Text};
use std::alloc::Global;

/// What becomes of a description.
pub(crate) fn description_answer(alloc: Global, line: &str) -> Result<Text, NoMemory> {
    match made(alloc, line)? {
        Ok(meta) => {
            drop(meta);
            Text::new(alloc, "accepted")
        }
        Err(fault) => fault_text(alloc, &fault),
    }
}

fn fault_text(alloc: Global, fault: &MetaFault) -> Result<Text, NoMemory> {
    let mut pen = Pen::new(alloc)?;
    pen.put(fault.kind.word());
    if !fault.name.as_str().is_empty() {
        pen.put(" ");
        pen.put(fault.name.as_str());
    }
    pen.written()
}

/// The metamodel of a description, or its first fault.
pub(crate) fn made(alloc: Global, line: &str) -> Result<Result<MetaModel, MetaFault>, NoMemory> {
    let text = expanded(alloc, line)?;
    match MetaModel::new(alloc, described(alloc, text.as_str())?) {
        Ok(meta) => Ok(Ok(meta)),
        Err(MetaError::Fault(fault)) => Ok(Err(fault)),
        Err(MetaError::NoMemory) => Err(NoMemory),
    }
}

/// The description with what it repeats written out.
fn expanded(alloc: Global, text: &str) -> Result<Text, NoMemory> {
    let mut pen = Pen::new(alloc)?;
    let mut pieces = text.split('[');
    if let Some(first) = pieces.next() {
        pen.put(first);
    }
    for piece in pieces {
        put_repeated(alloc, &mut pen, piece);
    }
    pen.written()
}

/// Writes out `4096 times PIECE]`, and what stands behind it.
fn put_repeated(alloc: Global, pen: &mut Pen, text: &str) {
    let (repeated, rest) = text.split_once(']').unwrap_or((text, ""));
    let (count, piece) = repeated.split_once(" times ").unwrap_or(("0", ""));
    for number in 0..count.parse().unwrap_or(0) {
        put_piece(alloc, pen, piece, number);
    }
    pen.put(rest);
}

fn put_piece(alloc: Global, pen: &mut Pen, piece: &str, number: u32) {
    for c in piece.chars() {
        match c {
            '%' => pen.put_string(format!(in alloc; "{number:08}")),
            '^' => pen.put_string(format!(in alloc; "{:08}", u64::from(number) + 1)),
            '~' => put_earlier(alloc, pen, number),
            _ => pen.put_char(c),
        }
    }
}

/// The names of all classes before.
fn put_earlier(alloc: Global, pen: &mut Pen, number: u32) {
    for earlier in 0..number {
        pen.put_string(format!(in alloc; " C{earlier:08}"));
    }
}
