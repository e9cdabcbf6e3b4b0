use case_texts::Pen;
use mof_metamodel::{NoMemory, Text};
use std::alloc::Global;
use xmi_text::{Attr, Mark, TextFault};

/// The most characters of a name or a text that are shown.
const SHOWN_CHARACTERS: usize = 40;

/// The most marks that are shown.
const SHOWN_MARKS: usize = 16;

/// Puts a text with the numbers of its characters that aren't printed ASCII.
pub(crate) fn put_shown(alloc: Global, pen: &mut Pen, text: &str) {
    put_shown_up_to(alloc, pen, text, SHOWN_CHARACTERS);
}

/// The same. Of a text that has more characters than this, the first eight and their count.
pub(crate) fn put_shown_up_to(alloc: Global, pen: &mut Pen, text: &str, most: usize) {
    let count = text.chars().count();
    let taken = if count > most { 8 } else { most };
    for c in text.chars().take(taken) {
        put_character(alloc, pen, c);
    }
    if count > most {
        pen.put_string(format!(in alloc; "..[{count} characters]"));
    }
}

fn put_character(alloc: Global, pen: &mut Pen, c: char) {
    if c >= ' ' && c <= '~' {
        pen.put_char(c);
    } else {
        let number = u32::from(c);
        pen.put_string(format!(in alloc; "[{number:X}]"));
    }
}

/// Puts a fault: the word of its kind, and its place.
pub(crate) fn put_fault(alloc: Global, pen: &mut Pen, fault: TextFault) {
    let at = fault.at;
    pen.put(fault.kind.word());
    pen.put_string(format!(in alloc; " {at}"));
}

fn put_mark(alloc: Global, pen: &mut Pen, mark: &Mark) {
    match mark {
        Mark::Open { name, attrs, at } => {
            pen.put("(");
            put_shown(alloc, pen, name.as_str());
            put_attrs(alloc, pen, attrs.as_slice());
            pen.put_string(format!(in alloc; "@{at}) "));
        }
        Mark::Data { text, at } => {
            put_quoted(alloc, pen, text.as_str());
            pen.put_string(format!(in alloc; "@{at} "));
        }
        Mark::Close { at } => pen.put_string(format!(in alloc; "/{at} ")),
        Mark::End => pen.put("END "),
    }
}

fn put_quoted(alloc: Global, pen: &mut Pen, text: &str) {
    pen.put("'");
    put_shown(alloc, pen, text);
    pen.put("'");
}

/// Puts the attributes of a tag, each with a blank before it, and a blank behind them.
fn put_attrs(alloc: Global, pen: &mut Pen, attrs: &[Attr]) {
    for attr in attrs {
        let at = attr.at;
        pen.put(" ");
        put_shown(alloc, pen, attr.name.as_str());
        pen.put("=");
        put_quoted(alloc, pen, attr.value.as_str());
        pen.put_string(format!(in alloc; "@{at}"));
    }
    if !attrs.is_empty() {
        pen.put(" ");
    }
}

fn shown_mark(alloc: Global, mark: &Mark) -> Result<Text, NoMemory> {
    let mut pen = Pen::new(alloc)?;
    put_mark(alloc, &mut pen, mark);
    pen.written()
}

/// The marks that a reader gave, each with a blank behind it. Of many only the first ones are shown, the last
/// one, and their count.
#[derive(Drop)]
pub(crate) struct Trace {
    alloc: Global,
    pen: Pen,
    count: usize,
    last: Result<Text, NoMemory>,
}

impl Trace {
    /// Without a mark.
    pub(crate) fn new(alloc: Global) -> Result<Trace, NoMemory> {
        let pen = Pen::new(alloc)?;
        Ok(Trace {
            alloc,
            pen,
            count: 0,
            last: Text::new(alloc, ""),
        })
    }

    /// Adds a mark.
    pub(crate) fn push(&mut self, mark: &Mark) {
        if self.count < SHOWN_MARKS {
            put_mark(self.alloc, &mut self.pen, mark);
        } else {
            self.last = shown_mark(self.alloc, mark);
        }
        self.count = self.count.saturating_add(1);
    }

    /// Whether no mark came.
    pub(crate) fn is_empty(&self) -> bool {
        self.count == 0
    }

    /// Puts the marks.
    pub(crate) fn put_into(self, pen: &mut Pen) {
        let Trace {
            alloc,
            pen: shown,
            count,
            last,
        } = self;
        pen.put_text(shown.written());
        if count > SHOWN_MARKS {
            pen.put(".. ");
            pen.put_text(last);
            pen.put_string(format!(in alloc; "[{count} marks] "));
        } else {
            drop(last);
        }
    }
}
