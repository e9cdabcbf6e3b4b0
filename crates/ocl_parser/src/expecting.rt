ghost use Rattle.std.specs.Prelude.{◌≡◌, ◌<◌, true, OnOk};
ghost use Rattle.ql_lex.specs.Lexemes.{end_of, is_sign as sign_is, is_word as word_is, span_at, stands, start_of};
ghost use Rattle.ocl_parser.specs.Readings.{Gives, opening_read, sign_read, word_read};

use crate::halt::{Halt, Stop};
use mof_metamodel::Span;
use ql_lex::{Token, TokenKind, Tokens, peek};

/// Whether a token of this text is this sign.
fn is_sign(token: Token, text: &str, sign: &str) -> bool
    ensures { result ≡ sign_is sign.now (record { token = token; text = text.now }) }
{
    match token.kind {
        TokenKind::Name
        | TokenKind::Quoted
        | TokenKind::Reserved
        | TokenKind::Number
        | TokenKind::Str => false,
        TokenKind::Sign => text == sign,
    }
}

/// Whether the token of this number is this sign.
#[tactic(auto, using(crate::proofs::ReadingLaws::stands_there, crate::proofs::ReadingLaws::stands_nowhere))]
pub fn is_sign_at(tokens: &Tokens<'_>, at: usize, sign: &str) -> bool
    ensures stands { result ≡ stands (sign_is sign.now) tokens.now.lexemes at }
    ensures within { result ≡ true → at < usize.MAX }
{
    match peek(tokens, at) {
        Some((token, text)) => is_sign(token, text, sign),
        None => false,
    }
}

/// Whether a token of this text is this reserved word.
fn is_word(token: Token, text: &str, word: &str) -> bool
    ensures { result ≡ word_is word.now (record { token = token; text = text.now }) }
{
    match token.kind {
        TokenKind::Name
        | TokenKind::Quoted
        | TokenKind::Number
        | TokenKind::Str
        | TokenKind::Sign => false,
        TokenKind::Reserved => text == word,
    }
}

/// Whether the token of this number is this reserved word.
#[tactic(auto, using(crate::proofs::ReadingLaws::stands_there, crate::proofs::ReadingLaws::stands_nowhere))]
pub fn is_word_at(tokens: &Tokens<'_>, at: usize, word: &str) -> bool
    ensures stands { result ≡ stands (word_is word.now) tokens.now.lexemes at }
    ensures within { result ≡ true → at < usize.MAX }
{
    match peek(tokens, at) {
        Some((token, text)) => is_word(token, text, word),
        None => false,
    }
}

/// Goes past a sign.
pub fn read_sign(tokens: &Tokens<'_>, at: usize, sign: &str) -> Result<usize, Halt>
    ensures { Gives result (sign_read tokens.now.lexemes sign.now at) }
{
    if is_sign_at(tokens, at, sign) {
        return Ok(at + 1);
    }
    Err(Halt::Stop(Stop::Stuck { at }))
}

/// Goes past a reserved word.
pub fn read_word(tokens: &Tokens<'_>, at: usize, word: &str) -> Result<usize, Halt>
    ensures { Gives result (word_read tokens.now.lexemes word.now at) }
{
    if is_word_at(tokens, at, word) {
        return Ok(at + 1);
    }
    Err(Halt::Stop(Stop::Stuck { at }))
}

/// Goes past a sign that opens a level, where so many are left.
pub fn read_opening(
    tokens: &Tokens<'_>,
    at: usize,
    levels: usize,
    sign: &str,
) -> Result<usize, Halt>
    ensures given { Gives result (opening_read tokens.now.lexemes sign.now levels at) }
    ensures left { OnOk result (0 < levels) }
{
    if !is_sign_at(tokens, at, sign) {
        return Err(Halt::Stop(Stop::Stuck { at }));
    }
    if levels == 0 {
        return Err(Halt::Stop(Stop::Deep { at }));
    }
    Ok(at + 1)
}

/// Where the token of this number begins, or 0 where there is none.
fn start_at(tokens: &Tokens<'_>, at: usize) -> usize
    ensures { result ≡ start_of tokens.now.lexemes at }
{
    match peek(tokens, at) {
        Some((token, _)) => token.span.start,
        None => 0,
    }
}

/// Where the token of this number ends, or 0 where there is none.
fn end_at(tokens: &Tokens<'_>, at: usize) -> usize
    ensures { result ≡ end_of tokens.now.lexemes at }
{
    match peek(tokens, at) {
        Some((token, _)) => token.span.end,
        None => 0,
    }
}

/// The bytes from the token of number `from` up to the one before number `end`.
#[tactic(auto, using(crate::proofs::ReadingLaws::span_is))]
pub fn span_between(tokens: &Tokens<'_>, from: usize, end: usize) -> Span
    ensures { result ≡ span_at tokens.now.lexemes from end }
{
    Span {
        start: start_at(tokens, from),
        end: end_at(tokens, end.saturating_sub(1)),
    }
}
