ghost use Rattle.std.specs.Prelude.{◌≡◌};
ghost use Rattle.script_files.specs.ScriptErrors as kinds;

use ocl_parser::ParseError;
use ql_lex::{LexError, LexFault, LexKind};

/// Why a text is no script. Places are in bytes from its start.
#[derive(Clone, Copy)]
pub enum ScriptError {
    /// It has no tokens. `LexKind::Limit`: it has more bytes than `MAX_SCRIPT`.
    Tokens(LexFault),
    /// At the first token with which no script goes on, or at the end of the text.
    Parse { at: usize },
    /// At the first token that opens a level past `MAX_NESTING`.
    Limit { at: usize },
    /// Memory could not be had.
    NoMemory,
}

impl ScriptError {
    /// Whether a limit is passed in the text.
    pub fn is_limit(&self) -> bool
        ensures { result ≡ kinds.is_limit self.now }
    {
        match self {
            ScriptError::Tokens(fault) => is_length(fault.kind),
            ScriptError::Limit { .. } => true,
            _ => false,
        }
    }
}

/// Whether a text is too long.
pub(crate) fn is_length(kind: LexKind) -> bool
    ensures { result ≡ kinds.is_length kind }
{
    matches!(kind, LexKind::Limit)
}

impl From<LexError> for ScriptError {
    ghost use Rattle.script_files.specs.ScriptErrors.{of_tokens};

    ghost from_gives = { λ given e. e ≡ of_tokens given };

    fn from(error: LexError) -> ScriptError {
        match error {
            LexError::Fault(fault) => ScriptError::Tokens(fault),
            LexError::NoMemory => ScriptError::NoMemory,
        }
    }
}

impl From<ParseError> for ScriptError {
    ghost use Rattle.script_files.specs.ScriptErrors.{of_parser};

    ghost from_gives = { λ given e. e ≡ of_parser given };

    fn from(error: ParseError) -> ScriptError {
        match error {
            ParseError::Parse { at } => ScriptError::Parse { at },
            ParseError::Limit { at } => ScriptError::Limit { at },
            ParseError::NoMemory => ScriptError::NoMemory,
        }
    }
}
