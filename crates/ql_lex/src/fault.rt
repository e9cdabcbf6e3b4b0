ghost use Rattle.std.specs.Prelude.{◌≡◌};
ghost use Rattle.ql_lex.specs.Words.{kind_word};

use std::alloc::{AllocError, AllocFailed};
use thiserror::Error;

/// Why a text has no tokens.
#[derive(Clone, Copy, Debug)]
pub enum LexKind {
    /// At the first byte at which no whole character stands.
    BadUtf8,
    /// At a character that begins no token, at one in a string that can't be stored, or at the `\` of an unknown escape.
    BadChar,
    /// At the opening sign of a string or a quoted name behind which the text ends first.
    OpenString,
    /// At the opening sign of a comment behind which the text ends first.
    OpenComment,
    /// At the first digit of a number above `MAX_INTEGER`.
    BigNumber,
    /// The text has more bytes than `MAX_SCRIPT`, which is the place.
    Limit,
}

impl LexKind {
    /// The word that is printed of the kind.
    pub fn word(self) -> &'static str
        ensures { result.now ≡ kind_word self }
    {
        match self {
            LexKind::BadUtf8 => "BadUtf8",
            LexKind::BadChar => "BadChar",
            LexKind::OpenString => "OpenString",
            LexKind::OpenComment => "OpenComment",
            LexKind::BigNumber => "BigNumber",
            LexKind::Limit => "Limit",
        }
    }
}

/// The first fault of a text.
#[derive(Clone, Copy, Debug)]
pub struct LexFault {
    pub kind: LexKind,
    /// The place, in bytes from the start of the text.
    pub at: usize,
}

/// Why `lex` gave no tokens.
#[derive(Clone, Copy, Debug, Error)]
pub enum LexError {
    #[error("the text is no list of tokens")]
    Fault(LexFault),
    #[error("no memory")]
    NoMemory,
}

impl From<AllocError> for LexError {
    ghost use Rattle.ql_lex.specs.declared.fault.LexError.TheVariants.{NoMemory};

    ghost from_gives = { λ _ e. e ≡ NoMemory };

    fn from(_error: AllocError) -> LexError {
        LexError::NoMemory
    }
}

impl<T: Drop> From<AllocFailed<T>> for LexError {
    ghost use Rattle.ql_lex.specs.declared.fault.LexError.TheVariants.{NoMemory};

    ghost from_gives = { λ _ e. e ≡ NoMemory };

    fn from(_error: AllocFailed<T>) -> LexError {
        LexError::NoMemory
    }
}
