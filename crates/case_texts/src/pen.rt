use mof_metamodel::{NoMemory, Text};
use std::alloc::{AllocError, Global};

/// A text that is written piece by piece. A piece for which memory does not reach is left out, and the end tells it.
#[derive(Drop)]
pub struct Pen {
    text: Text,
    is_whole: bool,
}

impl Pen {
    /// With nothing written.
    pub fn new(alloc: Global) -> Result<Pen, NoMemory> {
        let text = Text::new(alloc, "")?;
        Ok(Pen {
            text,
            is_whole: true,
        })
    }

    /// Writes a piece.
    pub fn put(&mut self, piece: &str) {
        if self.text.push_str(piece).is_err() {
            self.is_whole = false;
        }
    }

    /// Writes a character.
    pub fn put_char(&mut self, c: char) {
        if self.text.push(c).is_err() {
            self.is_whole = false;
        }
    }

    /// Writes a piece on one line: a control character and `%` as `%` and two hexadecimal digits.
    pub fn put_on_line(&mut self, alloc: Global, piece: &str) {
        for c in piece.chars() {
            if c < ' ' || c == '%' || c == '\u{7f}' {
                let code = u32::from(c);
                self.put_string(format!(in alloc; "%{code:02x}"));
            } else {
                self.put_char(c);
            }
        }
    }

    /// Writes what was made, if it was.
    pub fn put_text(&mut self, made: Result<Text, NoMemory>) {
        match made {
            Ok(text) => {
                self.put(text.as_str());
                drop(text);
            }
            Err(_) => self.is_whole = false,
        }
    }

    /// Writes what was formatted, if it was.
    pub fn put_string(&mut self, made: Result<String, AllocError>) {
        match made {
            Ok(text) => {
                self.put(text.as_str());
                drop(text);
            }
            Err(_) => self.is_whole = false,
        }
    }

    /// What was written, if all of it was.
    pub fn written(self) -> Result<Text, NoMemory> {
        let Pen { text, is_whole } = self;
        if is_whole { Ok(text) } else { Err(NoMemory) }
    }
}
