ghost use Rattle.std.specs.Prelude.{◌≡◌};
ghost use Rattle.ql_lex.specs.Forms.{token, nothing, fault};

use crate::fault::{LexFault, LexKind};
use crate::token::TokenKind;

/// What stands at the front of some bytes.
#[derive(Clone, Copy)]
pub(crate) struct Piece {
    /// The kind of a token, or `None` for blanks and comments.
    pub kind: Option<TokenKind>,
    /// How many bytes it takes.
    pub len: usize,
}

/// A token of `len` bytes.
pub(crate) fn make_token(kind: TokenKind, len: usize) -> Result<Piece, LexFault>
    ensures { result ≡ token kind len }
{
    Ok(Piece {
        kind: Some(kind),
        len,
    })
}

/// Blanks or a comment of `len` bytes.
pub(crate) fn make_nothing(len: usize) -> Result<Piece, LexFault>
    ensures { result ≡ nothing len }
{
    Ok(Piece { kind: None, len })
}

/// A fault, `at` bytes behind the front.
pub(crate) fn make_fault(kind: LexKind, at: usize) -> Result<Piece, LexFault>
    ensures { result ≡ fault kind at }
{
    Err(LexFault { kind, at })
}
