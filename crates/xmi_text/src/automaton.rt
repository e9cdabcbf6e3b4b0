ghost use Rattle.std.specs.Prelude.{◌≡◌, ◌<◌, OnOk, OnErr, OnSome, slice_get, encode_utf8_all};
ghost use Rattle.xmi_text.specs.Automaton as automaton;

use crate::byte_class::holds_in_name;
use crate::error::{TextFault, TextKind};
use crate::limits::MAX_XMI_NESTING;
use crate::reference::{Reference, character, extended};
use crate::state::{Brackets, Mode, Quote, State, Within};
use crate::utf_eight::{Growth, Partial, Rest, begun, extended as grown};
use mof_metamodel::{NoMemory, Text};
use std::alloc::Global;

impl State {
    /// One more byte, at this place.
    pub(crate) fn step(&mut self, alloc: Global, at: u64, byte: u8) -> Result<(), NoMemory>
        requires { at < u64.MAX }
        ensures ok { OnOk result (self.new ≡ automaton.step self.old at byte) }
        ensures err { OnErr result (self.new ≡ self.old) }
    {
        match self.mode {
            Mode::Failed(_) => Ok(()),
            Mode::Reference { at, within, part } => self.step_reference(
                alloc, at, within, part, byte,
            ),
            Mode::Doctype {
                at,
                word_at,
                matched,
            } => {
                self.step_doctype(at, word_at, matched, byte);
                Ok(())
            }
            Mode::EndName { at: less, matched } => {
                self.step_end_name(less, matched, at, byte);
                Ok(())
            }
            mode => self.step_character(alloc, mode, at, byte),
        }
    }

    /// One more byte of a character, or a character of one byte.
    fn step_character(
        &mut self,
        alloc: Global,
        mode: Mode,
        at: u64,
        byte: u8,
    ) -> Result<(), NoMemory>
        requires { at < u64.MAX }
        ensures ok { OnOk result (self.new ≡ automaton.character_step self.old mode at byte) }
        ensures err { OnErr result (self.new ≡ self.old) }
    {
        match self.partial {
            Some(partial) => self.step_partial(alloc, mode, partial, at, byte),
            None => {
                if byte < 128 {
                    self.step_ascii(alloc, mode, at, byte)
                } else {
                    self.step_lead(mode, at, byte);
                    Ok(())
                }
            }
        }
    }

    /// A byte of a reference.
    fn step_reference(
        &mut self,
        alloc: Global,
        at: u64,
        within: Within,
        part: Reference,
        byte: u8,
    ) -> Result<(), NoMemory>
        ensures ok { OnOk result (self.new ≡ automaton.reference self.old at within part byte) }
        ensures err { OnErr result (self.new ≡ self.old) }
    {
        if byte == b';' {
            return self.end_reference(at, within, part);
        }
        match extended(part, byte) {
            Some(part) => self.go(Mode::Reference { at, within, part }),
            None => self.fail(TextKind::BadEntity, at),
        }
        Ok(())
    }

    /// The `;` of a reference.
    fn end_reference(&mut self, at: u64, within: Within, part: Reference) -> Result<(), NoMemory>
        ensures ok { OnOk result (self.new ≡ automaton.reference_end self.old at within part) }
        ensures err { OnErr result (self.new ≡ self.old) }
    {
        match character(part) {
            Some(c) => match within {
                Within::Content => self.add(Mode::Inside, c, false),
                Within::Value(quote) => self.add_to_value(quote, c, false),
            },
            None => {
                self.fail(TextKind::BadEntity, at);
                Ok(())
            }
        }
    }

    /// A byte of an end tag's name, which has to be the innermost element's.
    fn step_end_name(&mut self, less: u64, matched: usize, at: u64, byte: u8)
        requires { at < u64.MAX }
        ensures { self.new ≡ automaton.end_name self.old less matched at byte }
    {
        match self.wanted(matched) {
            Some(wanted) if wanted == byte => self.go(Mode::EndName {
                at: less,
                matched: matched + 1,
            }),
            Some(_) => self.fail(TextKind::WrongEnd, less),
            None => self.step_name_behind(less, at, byte),
        }
    }

    /// The byte behind the whole name of an end tag.
    fn step_name_behind(&mut self, less: u64, at: u64, byte: u8)
        requires { at < u64.MAX }
        ensures { self.new ≡ automaton.name_behind self.old less at byte }
    {
        if holds_in_name(byte) {
            self.fail(TextKind::WrongEnd, less);
        } else if byte < 128 {
            self.step_tail(less, at, byte);
        } else {
            self.fail(TextKind::BadUtf8, at);
        }
    }

    /// A byte of the innermost element's name.
    fn wanted(&self, place: usize) -> Option<u8>
        ensures byte { result ≡ automaton.wanted self.now place }
        ensures below { OnSome result (place < usize.MAX) }
    {
        match self.elements.as_slice().last() {
            Some(name) => byte_of(name, place),
            None => None,
        }
    }

    /// A byte that isn't ASCII, where no character is cut.
    fn step_lead(&mut self, mode: Mode, at: u64, byte: u8)
        ensures { self.new ≡ automaton.lead self.old mode at byte }
    {
        if self.ends_twin(mode, byte) {
            self.fail(TextKind::DuplicateAttribute, self.attr.at);
            return;
        }
        match begun(at, byte) {
            Some(partial) => self.partial = Some(partial),
            None => self.fail(TextKind::BadUtf8, at),
        }
    }

    /// Whether a byte ends an attribute's name that its tag has already.
    fn ends_twin(&self, mode: Mode, byte: u8) -> bool
        ensures { result ≡ automaton.ends_twin self.now mode byte }
    {
        match mode {
            Mode::AttrName(_) => !holds_in_name(byte) && self.attrs.has(&self.attr.name),
            _ => false,
        }
    }

    /// One more byte of a character.
    fn step_partial(
        &mut self,
        alloc: Global,
        mode: Mode,
        partial: Partial,
        at: u64,
        byte: u8,
    ) -> Result<(), NoMemory>
        ensures ok { OnOk result (self.new ≡ automaton.partial self.old mode partial at byte) }
        ensures err { OnErr result (self.new ≡ self.old) }
    {
        match grown(partial, byte) {
            Growth::Broken => self.fail(TextKind::BadUtf8, partial.lead),
            Growth::Partial(partial) => self.partial = Some(partial),
            Growth::Whole(c) => {
                self.step_whole(alloc, mode, partial.lead, at, c)?;
                self.partial = None;
            }
        }
        Ok(())
    }

    /// A whole character that isn't ASCII, from `lead` to `at`.
    fn step_whole(
        &mut self,
        alloc: Global,
        mode: Mode,
        lead: u64,
        at: u64,
        c: char,
    ) -> Result<(), NoMemory>
        ensures ok { OnOk result (self.new ≡ automaton.whole self.old mode lead at c) }
        ensures err { OnErr result (self.new ≡ self.old) }
    {
        if matches!(mode, Mode::Start) {
            self.step_start(lead, c);
            return Ok(());
        }
        if c == '\u{fffe}' || c == '\u{ffff}' {
            let place = if self.admits(mode) { at } else { lead };
            self.fail(TextKind::BadMark, place);
            return Ok(());
        }
        if let Mode::Less(less) = mode {
            return self.begin_element(alloc, less, lead, c);
        }
        self.step_admitted(alloc, mode, lead, c)
    }

    /// A character that isn't ASCII at the start of the bytes: a byte order mark, or a fault at the first byte
    /// that differs from one's.
    fn step_start(&mut self, lead: u64, c: char)
        ensures { self.new ≡ automaton.start_whole self.old lead c }
    {
        match c {
            '\u{feff}' => self.go(Mode::Outside),
            '\u{fec0}'..='\u{fefe}' => self.fail(TextKind::BadMark, 2),
            '\u{f000}'..='\u{ffff}' => self.fail(TextKind::BadMark, 1),
            _ => self.fail(TextKind::BadMark, lead),
        }
    }

    /// Whether a character that isn't ASCII may stand here.
    fn admits(&self, mode: Mode) -> bool
        ensures { result ≡ automaton.admits self.now mode }
    {
        match mode {
            Mode::Less(_) => self.admits_element(),
            Mode::Inside
            | Mode::Comment
            | Mode::CommentDash
            | Mode::CommentDashes
            | Mode::Cdata(_)
            | Mode::Question
            | Mode::Target(_)
            | Mode::Instruction
            | Mode::InstructionQuestion
            | Mode::TagName(_)
            | Mode::Tag
            | Mode::AttrName(_)
            | Mode::Value(_) => true,
            _ => false,
        }
    }

    /// Whether an element may begin here.
    fn admits_element(&self) -> bool
        ensures { result ≡ automaton.admits_element self.now }
    {
        if self.is_inside() {
            self.elements.len() < MAX_XMI_NESTING
        } else {
            !self.rooted
        }
    }

    /// A storable character that isn't ASCII, elsewhere than behind a `<`.
    fn step_admitted(
        &mut self,
        alloc: Global,
        mode: Mode,
        lead: u64,
        c: char,
    ) -> Result<(), NoMemory>
        ensures ok { OnOk result (self.new ≡ automaton.admitted self.old mode lead c) }
        ensures err { OnErr result (self.new ≡ self.old) }
    {
        match mode {
            Mode::Inside => self.add(Mode::Inside, c, false)?,
            Mode::Cdata(brackets) => self.add_behind(alloc, brackets, c, false)?,
            Mode::TagName(colon) => self.add_to_tag(colon, c)?,
            Mode::Tag => self.begin_attr(alloc, lead, c)?,
            Mode::AttrName(colon) => self.add_to_name(colon, c)?,
            Mode::Value(quote) => self.add_to_value(quote, c, false)?,
            Mode::Comment | Mode::CommentDash | Mode::CommentDashes => self.go(Mode::Comment),
            Mode::Question => self.go(Mode::Target(false)),
            Mode::Target(colon) => self.go(Mode::Target(colon)),
            Mode::Instruction | Mode::InstructionQuestion => self.go(Mode::Instruction),
            _ => self.fail(TextKind::BadMark, lead),
        }
        Ok(())
    }

    /// An ASCII byte, elsewhere than in a reference, in `<!DOCTYPE` and in an end tag's name.
    fn step_ascii(&mut self, alloc: Global, mode: Mode, at: u64, byte: u8) -> Result<(), NoMemory>
        requires { at < u64.MAX }
        ensures ok { OnOk result (self.new ≡ automaton.ascii self.old mode at byte) }
        ensures err { OnErr result (self.new ≡ self.old) }
    {
        match mode {
            Mode::Inside => self.step_inside(at, byte),
            Mode::Less(less) => self.step_less(alloc, less, at, byte),
            Mode::Cdata(brackets) => self.step_cdata(alloc, brackets, at, byte),
            Mode::TagName(colon) => self.step_tag_name(alloc, colon, at, byte),
            Mode::Tag => self.step_tag(alloc, at, byte),
            Mode::AttrName(colon) => self.step_attr_name(colon, at, byte),
            Mode::Value(quote) => self.step_value(alloc, quote, at, byte),
            Mode::AfterValue => self.step_part(alloc, at, byte),
            _ => {
                self.step_plain(mode, at, byte);
                Ok(())
            }
        }
    }

    /// An ASCII byte where it takes no memory.
    fn step_plain(&mut self, mode: Mode, at: u64, byte: u8)
        requires { at < u64.MAX }
        ensures { self.new ≡ automaton.plain self.old mode at byte }
    {
        match mode {
            Mode::Bang(less) => self.step_bang(less, at, byte),
            Mode::Dash => self.step_only(b'-', Mode::Comment, at, byte),
            Mode::Comment => self.step_comment(Mode::CommentDash, at, byte),
            Mode::CommentDash => self.step_comment(Mode::CommentDashes, at, byte),
            Mode::CommentDashes => self.step_comment_end(at, byte),
            Mode::CdataStart(matched) => self.step_cdata_start(matched, at, byte),
            Mode::Question => self.step_question(at, byte),
            Mode::Target(colon) => self.step_target(colon, at, byte),
            Mode::Instruction => self.step_instruction(at, byte),
            Mode::InstructionQuestion => self.step_instruction_end(at, byte),
            Mode::AfterName => self.step_equals(at, byte),
            Mode::BeforeValue => self.step_before_value(at, byte),
            Mode::Slash => self.step_slash(at, byte),
            Mode::EndTail(less) => self.step_tail(less, at, byte),
            _ => self.step_outside(at, byte),
        }
    }

    /// The fault, where the bytes have one.
    pub(crate) fn fault(&self) -> Option<TextFault>
        ensures { result ≡ automaton.fault self.now }
    {
        match self.mode {
            Mode::Failed(fault) => Some(fault),
            _ => None,
        }
    }

    /// The fault of bytes that end here, if they have one.
    pub(crate) fn end_fault(&self, length: u64) -> Option<TextFault>
        ensures { result ≡ automaton.end_fault self.now length }
    {
        match self.mode {
            Mode::Failed(fault) => Some(fault),
            Mode::Doctype { word_at, .. } => Some(TextFault {
                kind: TextKind::BadMark,
                at: word_at,
            }),
            mode => match self.partial {
                Some(partial) => Some(self.cut_fault(mode, partial, length)),
                None => self.open_fault(mode, length),
            },
        }
    }

    /// The fault of bytes that end in a character.
    fn cut_fault(&self, mode: Mode, partial: Partial, length: u64) -> TextFault
        ensures { result ≡ automaton.cut_fault self.now mode partial length }
    {
        if matches!(mode, Mode::Start) {
            return cut_start(partial, length);
        }
        if self.admits(mode) {
            TextFault {
                kind: TextKind::OpenTag,
                at: length,
            }
        } else {
            TextFault {
                kind: TextKind::BadMark,
                at: partial.lead,
            }
        }
    }

    /// The fault of bytes that end between two characters.
    fn open_fault(&self, mode: Mode, length: u64) -> Option<TextFault>
        ensures { result ≡ automaton.open_fault self.now mode length }
    {
        if matches!(mode, Mode::Outside) && self.rooted {
            None
        } else {
            Some(TextFault {
                kind: TextKind::OpenTag,
                at: length,
            })
        }
    }
}

/// A byte of a name in UTF-8.
fn byte_of(name: &Text, place: usize) -> Option<u8>
    ensures byte { result ≡ slice_get (encode_utf8_all name.now) place }
    ensures below { OnSome result (place < usize.MAX) }
{
    let bytes = name.as_str().as_bytes();
    if place < bytes.len() {
        bytes.get(place).copied()
    } else {
        None
    }
}

/// The fault of bytes that are one cut character: the start of a byte order mark may go on.
fn cut_start(partial: Partial, length: u64) -> TextFault
    ensures { result ≡ automaton.cut_start partial length }
{
    let open = TextFault {
        kind: TextKind::OpenTag,
        at: length,
    };
    match partial.rest {
        Rest::Two(15) | Rest::One(0x3fb) => open,
        Rest::One(0x3c0..=0x3ff) => TextFault {
            kind: TextKind::BadMark,
            at: 1,
        },
        _ => TextFault {
            kind: TextKind::BadMark,
            at: partial.lead,
        },
    }
}
