ghost use Rattle.std.specs.Prelude.{◌≡◌};
ghost use Rattle.xmi_text.specs.Words.{kind_word};

use mof_metamodel::NoMemory;
use thiserror::Error;

/// Why bytes are no document, or why a call has no answer.
#[derive(Clone, Copy, Debug, Error)]
pub enum TextError {
    /// The bytes are no document, and this is the first fault that stands in them. With `OpenTag` they begin one, with
    /// any other kind no bytes that go on from them are one.
    #[error("the markup is faulty")]
    Fault(TextFault),
    /// Memory could not be had.
    #[error("out of memory")]
    NoMemory,
}

/// A fault, and the byte at which it stands, counted from 0.
#[derive(Clone, Copy, Debug)]
pub struct TextFault {
    pub kind: TextKind,
    pub at: u64,
}

/// What is wrong. Where several faults stand at one place, the first of this order is answered, but
/// `BadMark` only where no other stands.
#[derive(Clone, Copy, Debug)]
pub enum TextKind {
    /// No whole character of UTF-8 stands here.
    BadUtf8,
    /// With this byte the bytes begin no text of the profile.
    BadMark,
    /// No name begins here, or it has a second `:`.
    BadName,
    /// The bytes ended before the text was whole. The place is their number.
    OpenTag,
    /// The end tag that begins here has another name than the open element.
    WrongEnd,
    /// This name is that of an earlier attribute of its tag.
    DuplicateAttribute,
    /// No reference to a storable character begins here.
    BadEntity,
    /// A document type begins here.
    Doctype,
    /// The element that begins here is nested too deep: in `MAX_XMI_NESTING` others.
    Limit,
}

impl TextKind {
    /// The word that is printed of the kind.
    pub fn word(self) -> &'static str
        ensures { result.now ≡ kind_word self }
    {
        match self {
            TextKind::BadUtf8 => "BadUtf8",
            TextKind::BadMark => "BadMark",
            TextKind::BadName => "BadName",
            TextKind::OpenTag => "OpenTag",
            TextKind::WrongEnd => "WrongEnd",
            TextKind::DuplicateAttribute => "DuplicateAttribute",
            TextKind::BadEntity => "BadEntity",
            TextKind::Doctype => "Doctype",
            TextKind::Limit => "Limit",
        }
    }
}

impl From<NoMemory> for TextError {
    ghost use Rattle.std.specs.Prelude.{◌≡◌};
    ghost use Rattle.xmi_text.specs.declared.error.TextError.TheVariants as errors;

    ghost from_gives = { λ _ e. e ≡ errors.NoMemory };

    fn from(_error: NoMemory) -> TextError {
        TextError::NoMemory
    }
}
