ghost use Rattle.std.specs.Prelude.{◌≡◌, ◌<◌, length, slice_get, Some, None, IfSome, MatchOption};

use crate::token::Token;
use crate::tokens::Tokens;

/// The token of this number and its text, if there is one.
#[tactic(auto, using(crate::proofs::TokenLaws::lexeme))]
pub fn peek<'t>(tokens: &Tokens<'t>, at: usize) -> Option<(Token, &'t str)>
    ensures token { MatchOption result (slice_get tokens.now.lexemes at ≡ None)
        (λ r. slice_get tokens.now.lexemes at ≡ Some (record { token = r.0; text = r.1.now })) }
    ensures within { IfSome result (λ r. (at < length tokens.now.lexemes) × (at < usize.MAX)) }
{
    if at < tokens.len() {
        Some((tokens.token(at), tokens.text(at)))
    } else {
        None
    }
}
