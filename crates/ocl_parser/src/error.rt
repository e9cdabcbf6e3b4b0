ghost use Rattle.std.specs.Prelude.{◌≡◌};
ghost use Rattle.ocl_parser.specs.Words.{error_word};

use mof_metamodel::NoMemory as OutOfMemory;
use thiserror::Error;

/// Why tokens gave no tree. Places are in bytes from the start of the text.
#[derive(Debug, Drop, Error)]
pub enum ParseError {
    /// At the first token with which the tokens so far begin nothing of the grammar, or at the end of the text.
    #[error("the tokens are not of the grammar")]
    Parse { at: usize },
    /// At the token that opens a level past `MAX_NESTING`.
    #[error("the text nests too deeply")]
    Limit { at: usize },
    #[error("no memory")]
    NoMemory,
}

impl ParseError {
    /// The word that is printed of the kind of fault.
    pub fn word(&self) -> &'static str
        ensures { result.now ≡ error_word self.now }
    {
        match self {
            ParseError::Parse { .. } => "Parse",
            ParseError::Limit { .. } => "Limit",
            ParseError::NoMemory => "NoMemory",
        }
    }
}

impl From<OutOfMemory> for ParseError {
    ghost use Rattle.ocl_parser.specs.declared.error.ParseError.TheVariants.{NoMemory};

    ghost from_gives = { λ _ e. e ≡ NoMemory };

    fn from(_error: OutOfMemory) -> ParseError {
        ParseError::NoMemory
    }
}
