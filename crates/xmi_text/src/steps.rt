ghost use Rattle.std.specs.Prelude.{◌≡◌, ◌<◌, OnOk, OnErr};
ghost use Rattle.xmi_text.specs.Steps as steps;

use crate::byte_class::{begins_name, continues_name, is_blank, is_storable_byte};
use crate::error::TextKind;
use crate::limits::MAX_XMI_NESTING;
use crate::reference::Reference;
use crate::state::{Brackets, Mode, Quote, State, Within};
use mof_metamodel::NoMemory;
use std::alloc::Global;

impl State {
    /// Before or behind the root element.
    pub(crate) fn step_outside(&mut self, at: u64, byte: u8)
        ensures { self.new ≡ steps.outside self.old at byte }
    {
        if byte == b'<' {
            self.go(Mode::Less(at));
        } else if is_blank(byte) {
            self.go(Mode::Outside);
        } else {
            self.fail(TextKind::BadMark, at);
        }
    }

    /// In the content of an element. A line end is read as one line feed.
    pub(crate) fn step_inside(&mut self, at: u64, byte: u8) -> Result<(), NoMemory>
        ensures ok { OnOk result (self.new ≡ steps.inside self.old at byte) }
        ensures err { OnErr result (self.new ≡ self.old) }
    {
        match byte {
            b'<' => self.go(Mode::Less(at)),
            b'&' => self.go(Mode::Reference {
                at,
                within: Within::Content,
                part: Reference::Begun,
            }),
            b'\r' => self.add(Mode::Inside, '\n', true)?,
            b'\n' if self.returned => self.go(Mode::Inside),
            _ if is_storable_byte(byte) => self.add(Mode::Inside, char::from(byte), false)?,
            _ => self.fail(TextKind::BadMark, at),
        }
        Ok(())
    }

    /// In a CDATA section, which the next `]]>` ends.
    pub(crate) fn step_cdata(
        &mut self,
        alloc: Global,
        brackets: Brackets,
        at: u64,
        byte: u8,
    ) -> Result<(), NoMemory>
        ensures ok { OnOk result (self.new ≡ steps.cdata self.old brackets at byte) }
        ensures err { OnErr result (self.new ≡ self.old) }
    {
        match byte {
            b']' => self.step_bracket(brackets)?,
            b'>' if matches!(brackets, Brackets::Two) => self.go(Mode::Inside),
            b'\r' => self.add_behind(alloc, brackets, '\n', true)?,
            b'\n' if self.returned => self.go(Mode::Cdata(Brackets::None)),
            _ if is_storable_byte(byte) => {
                self.add_behind(alloc, brackets, char::from(byte), false)?;
            }
            _ => self.fail(TextKind::BadMark, at),
        }
        Ok(())
    }

    /// One more `]` in a CDATA section.
    pub(crate) fn step_bracket(&mut self, brackets: Brackets) -> Result<(), NoMemory>
        ensures ok { OnOk result (self.new ≡ steps.bracket self.old brackets) }
        ensures err { OnErr result (self.new ≡ self.old) }
    {
        match brackets {
            Brackets::None => self.go(Mode::Cdata(Brackets::One)),
            Brackets::One => self.go(Mode::Cdata(Brackets::Two)),
            Brackets::Two => self.add(Mode::Cdata(Brackets::Two), ']', false)?,
        }
        Ok(())
    }

    /// Behind a `<`.
    pub(crate) fn step_less(
        &mut self,
        alloc: Global,
        less: u64,
        at: u64,
        byte: u8,
    ) -> Result<(), NoMemory>
        ensures ok { OnOk result (self.new ≡ steps.less self.old less at byte) }
        ensures err { OnErr result (self.new ≡ self.old) }
    {
        match byte {
            b'!' => self.go(Mode::Bang(less)),
            b'?' => self.go(Mode::Question),
            b'/' => self.step_end(less, at),
            _ if begins_name(byte) => self.begin_element(alloc, less, at, char::from(byte))?,
            _ => self.fail(TextKind::BadName, at),
        }
        Ok(())
    }

    /// At the `/` of `</`.
    pub(crate) fn step_end(&mut self, less: u64, at: u64)
        ensures { self.new ≡ steps.end self.old less at }
    {
        if self.is_inside() {
            self.begin_end(less);
        } else {
            self.fail(TextKind::BadMark, at);
        }
    }

    /// At the first character of a start tag's name.
    pub(crate) fn begin_element(
        &mut self,
        alloc: Global,
        less: u64,
        at: u64,
        c: char,
    ) -> Result<(), NoMemory>
        ensures ok { OnOk result (self.new ≡ steps.begin_element self.old less at c) }
        ensures err { OnErr result (self.new ≡ self.old) }
    {
        if self.is_inside() {
            if self.elements.len() < MAX_XMI_NESTING {
                self.begin_tag(alloc, less, c)
            } else {
                self.ready = self.due();
                self.fail(TextKind::Limit, less);
                Ok(())
            }
        } else if self.rooted {
            self.fail(TextKind::BadMark, at);
            Ok(())
        } else {
            self.begin_tag(alloc, less, c)
        }
    }

    /// Behind `<!`.
    pub(crate) fn step_bang(&mut self, less: u64, at: u64, byte: u8)
        ensures { self.new ≡ steps.bang self.old less at byte }
    {
        match byte {
            b'-' => self.go(Mode::Dash),
            b'[' if self.is_inside() => self.go(Mode::CdataStart(1)),
            b'D' => self.go(Mode::Doctype {
                at: less,
                word_at: at,
                matched: 1,
            }),
            _ => self.fail(TextKind::BadMark, at),
        }
    }

    /// In the word `DOCTYPE`.
    pub(crate) fn step_doctype(&mut self, less: u64, word_at: u64, matched: u8, byte: u8)
        ensures { self.new ≡ steps.doctype self.old less word_at matched byte }
    {
        if doctype_byte(matched) != Some(byte) {
            self.fail(TextKind::BadMark, word_at);
        } else if matched < 6 {
            self.go(Mode::Doctype {
                at: less,
                word_at,
                matched: matched + 1,
            });
        } else {
            self.fail(TextKind::Doctype, less);
        }
    }

    /// In the word `[CDATA[`.
    pub(crate) fn step_cdata_start(&mut self, matched: u8, at: u64, byte: u8)
        ensures { self.new ≡ steps.cdata_start self.old matched at byte }
    {
        if cdata_byte(matched) != Some(byte) {
            self.fail(TextKind::BadMark, at);
        } else if matched < 6 {
            self.go(Mode::CdataStart(matched + 1));
        } else {
            self.go(Mode::Cdata(Brackets::None));
        }
    }

    /// In a comment or an instruction, which holds only storable characters.
    pub(crate) fn step_passed(&mut self, mode: Mode, at: u64, byte: u8)
        ensures { self.new ≡ steps.passed self.old mode at byte }
    {
        if is_storable_byte(byte) {
            self.go(mode);
        } else {
            self.fail(TextKind::BadMark, at);
        }
    }

    /// At a byte that has to be this one.
    pub(crate) fn step_only(&mut self, wanted: u8, mode: Mode, at: u64, byte: u8)
        ensures { self.new ≡ steps.only self.old wanted mode at byte }
    {
        if byte == wanted {
            self.go(mode);
        } else {
            self.fail(TextKind::BadMark, at);
        }
    }

    /// In a comment behind no dash or one dash.
    pub(crate) fn step_comment(&mut self, dashed: Mode, at: u64, byte: u8)
        ensures { self.new ≡ steps.comment self.old dashed at byte }
    {
        if byte == b'-' {
            self.go(dashed);
        } else {
            self.step_passed(Mode::Comment, at, byte);
        }
    }

    /// In a comment behind two dashes.
    pub(crate) fn step_comment_end(&mut self, at: u64, byte: u8)
        ensures { self.new ≡ steps.comment_end self.old at byte }
    {
        if byte == b'>' {
            self.go(self.around());
        } else {
            self.step_comment(Mode::CommentDashes, at, byte);
        }
    }

    /// Behind `<?`.
    pub(crate) fn step_question(&mut self, at: u64, byte: u8)
        ensures { self.new ≡ steps.question self.old at byte }
    {
        if begins_name(byte) {
            self.go(Mode::Target(false));
        } else {
            self.fail(TextKind::BadName, at);
        }
    }

    /// In the name of an instruction.
    pub(crate) fn step_target(&mut self, colon: bool, at: u64, byte: u8)
        ensures { self.new ≡ steps.target self.old colon at byte }
    {
        if byte == b':' {
            self.step_colon(colon, Mode::Target(true), at);
        } else if continues_name(byte) {
            self.go(Mode::Target(colon));
        } else {
            self.step_instruction(at, byte);
        }
    }

    /// At a `:` in a name.
    pub(crate) fn step_colon(&mut self, colon: bool, mode: Mode, at: u64)
        ensures { self.new ≡ steps.colon self.old colon mode at }
    {
        if colon {
            self.fail(TextKind::BadName, at);
        } else {
            self.go(mode);
        }
    }

    /// In an instruction, not behind a `?`.
    pub(crate) fn step_instruction(&mut self, at: u64, byte: u8)
        ensures { self.new ≡ steps.instruction self.old at byte }
    {
        if byte == b'?' {
            self.go(Mode::InstructionQuestion);
        } else {
            self.step_passed(Mode::Instruction, at, byte);
        }
    }

    /// In an instruction behind a `?`.
    pub(crate) fn step_instruction_end(&mut self, at: u64, byte: u8)
        ensures { self.new ≡ steps.instruction_end self.old at byte }
    {
        if byte == b'>' {
            self.go(self.around());
        } else {
            self.step_instruction(at, byte);
        }
    }

    /// In the name of a start tag.
    pub(crate) fn step_tag_name(
        &mut self,
        alloc: Global,
        colon: bool,
        at: u64,
        byte: u8,
    ) -> Result<(), NoMemory>
        requires { at < u64.MAX }
        ensures ok { OnOk result (self.new ≡ steps.tag_name self.old colon at byte) }
        ensures err { OnErr result (self.new ≡ self.old) }
    {
        if byte == b':' {
            if colon {
                self.fail(TextKind::BadName, at);
                Ok(())
            } else {
                self.add_to_tag(true, ':')
            }
        } else if continues_name(byte) {
            self.add_to_tag(colon, char::from(byte))
        } else {
            self.step_part(alloc, at, byte)
        }
    }

    /// Behind a part of a start tag: a blank, or its end.
    pub(crate) fn step_part(&mut self, alloc: Global, at: u64, byte: u8) -> Result<(), NoMemory>
        requires { at < u64.MAX }
        ensures ok { OnOk result (self.new ≡ steps.part self.old at byte) }
        ensures err { OnErr result (self.new ≡ self.old) }
    {
        match byte {
            b'/' => self.go(Mode::Slash),
            b'>' => self.open_tag(alloc, at)?,
            _ if is_blank(byte) => self.go(Mode::Tag),
            _ => self.fail(TextKind::BadMark, at),
        }
        Ok(())
    }

    /// Behind a blank in a start tag.
    pub(crate) fn step_tag(&mut self, alloc: Global, at: u64, byte: u8) -> Result<(), NoMemory>
        requires { at < u64.MAX }
        ensures ok { OnOk result (self.new ≡ steps.tag self.old at byte) }
        ensures err { OnErr result (self.new ≡ self.old) }
    {
        if begins_name(byte) {
            self.begin_attr(alloc, at, char::from(byte))
        } else {
            self.step_part(alloc, at, byte)
        }
    }

    /// In the name of an attribute.
    pub(crate) fn step_attr_name(&mut self, colon: bool, at: u64, byte: u8) -> Result<(), NoMemory>
        ensures ok { OnOk result (self.new ≡ steps.attr_name self.old colon at byte) }
        ensures err { OnErr result (self.new ≡ self.old) }
    {
        if byte == b':' {
            if colon {
                self.fail(TextKind::BadName, at);
                Ok(())
            } else {
                self.add_to_name(true, ':')
            }
        } else if continues_name(byte) {
            self.add_to_name(colon, char::from(byte))
        } else {
            self.step_name_end(at, byte);
            Ok(())
        }
    }

    /// At the first byte behind the name of an attribute.
    pub(crate) fn step_name_end(&mut self, at: u64, byte: u8)
        ensures { self.new ≡ steps.name_end self.old at byte }
    {
        if self.attrs.has(&self.attr.name) {
            self.fail(TextKind::DuplicateAttribute, self.attr.at);
        } else {
            self.step_equals(at, byte);
        }
    }

    /// Before the `=` of an attribute.
    pub(crate) fn step_equals(&mut self, at: u64, byte: u8)
        ensures { self.new ≡ steps.equals self.old at byte }
    {
        if byte == b'=' {
            self.go(Mode::BeforeValue);
        } else if is_blank(byte) {
            self.go(Mode::AfterName);
        } else {
            self.fail(TextKind::BadMark, at);
        }
    }

    /// Before the value of an attribute.
    pub(crate) fn step_before_value(&mut self, at: u64, byte: u8)
        ensures { self.new ≡ steps.before_value self.old at byte }
    {
        match byte {
            b'"' => self.go(Mode::Value(Quote::Double)),
            b'\'' => self.go(Mode::Value(Quote::Single)),
            _ if is_blank(byte) => self.go(Mode::BeforeValue),
            _ => self.fail(TextKind::BadMark, at),
        }
    }

    /// In the value of an attribute. A line end and a tab are read as one space.
    pub(crate) fn step_value(
        &mut self,
        alloc: Global,
        quote: Quote,
        at: u64,
        byte: u8,
    ) -> Result<(), NoMemory>
        ensures ok { OnOk result (self.new ≡ steps.value self.old quote at byte) }
        ensures err { OnErr result (self.new ≡ self.old) }
    {
        match byte {
            _ if byte == quote_byte(quote) => self.end_attr(alloc)?,
            b'<' => self.fail(TextKind::BadMark, at),
            b'&' => self.go(Mode::Reference {
                at,
                within: Within::Value(quote),
                part: Reference::Begun,
            }),
            b'\r' => self.add_to_value(quote, ' ', true)?,
            b'\n' if self.returned => self.go(Mode::Value(quote)),
            b'\n' | b'\t' => self.add_to_value(quote, ' ', false)?,
            _ if is_storable_byte(byte) => self.add_to_value(quote, char::from(byte), false)?,
            _ => self.fail(TextKind::BadMark, at),
        }
        Ok(())
    }

    /// At the end of an empty element's tag.
    pub(crate) fn step_slash(&mut self, at: u64, byte: u8)
        requires { at < u64.MAX }
        ensures { self.new ≡ steps.slash self.old at byte }
    {
        if byte == b'>' {
            self.empty_tag(at);
        } else {
            self.fail(TextKind::BadMark, at);
        }
    }

    /// Behind the name of an end tag.
    pub(crate) fn step_tail(&mut self, less: u64, at: u64, byte: u8)
        requires { at < u64.MAX }
        ensures { self.new ≡ steps.tail self.old less at byte }
    {
        if byte == b'>' {
            self.close_tag(less, at);
        } else if is_blank(byte) {
            self.go(Mode::EndTail(less));
        } else {
            self.fail(TextKind::BadMark, at);
        }
    }
}

/// A byte of the word `DOCTYPE`.
fn doctype_byte(place: u8) -> Option<u8>
    ensures { result ≡ steps.doctype_byte place }
{
    match place {
        1 => Some(b'O'),
        2 => Some(b'C'),
        3 => Some(b'T'),
        4 => Some(b'Y'),
        5 => Some(b'P'),
        6 => Some(b'E'),
        _ => None,
    }
}

/// A byte of the word `[CDATA[`.
fn cdata_byte(place: u8) -> Option<u8>
    ensures { result ≡ steps.cdata_byte place }
{
    match place {
        1 => Some(b'C'),
        2 => Some(b'D'),
        3 => Some(b'A'),
        4 => Some(b'T'),
        5 => Some(b'A'),
        6 => Some(b'['),
        _ => None,
    }
}

/// The byte of a quote.
fn quote_byte(quote: Quote) -> u8
    ensures { result ≡ steps.quote_byte quote }
{
    match quote {
        Quote::Double => b'"',
        Quote::Single => b'\'',
    }
}
