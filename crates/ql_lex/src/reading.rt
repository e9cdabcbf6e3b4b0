ghost use Rattle.std.specs.Prelude.{◌≡◌, ◌≢◌, ◌≤◌, ◌<◌, ◌+◌, length, drop, take, Ok, Err, List, MatchResult, IfOk, IfErr};
ghost use Rattle.std.specs.Str.{IsUtf8};
ghost use Rattle.std.specs.Str.Lossy.{utf8_valid_len};
ghost use Rattle.mof_metamodel.specs.Giving.{Gives};
ghost use Rattle.ql_lex.specs.Forms.{whole_form};
ghost use Rattle.ql_lex.specs.Tokens.{IsLexed};
ghost use Rattle.ql_lex.specs.Lexed.{Lexeme, mark_len as byte_order_mark, lexed, lexed_from, with_front, AreSlices};
ghost use Rattle.ql_lex.specs.Answers.{Fails, fault_of, IsWholeBefore, seen_all};
ghost use Rattle.ql_lex.specs.Places.{IsUtf8Place, IsMalformedAt};

use crate::cuts::bytes_behind;
use crate::fault::{LexError, LexFault, LexKind};
use crate::forms::read_form;
use crate::limits::MAX_SCRIPT;
use crate::piece::Piece;
use crate::token::Token;
use crate::tokens::Tokens;
use crate::word::Word;
use mof_metamodel::Span;
use std::alloc::Global;

/// The first `len` bytes, if they are whole characters.
fn read_whole(bytes: &[u8], len: usize) -> Result<&str, LexFault>
    requires { len ≤ length bytes.now }
    ensures before { IfErr result (λ f. f.at ≤ len) }
    ensures whole { MatchResult result (λ s. IsUtf8 (take len bytes.now)) (λ f. IsUtf8 (take f.at bytes.now)) }
    ensures value { MatchResult result
        (λ s. (s.now ≡ take len bytes.now) × (utf8_valid_len (take len bytes.now) ≡ len))
        (λ f. (utf8_valid_len (take len bytes.now) ≢ len) × (f ≡ record { kind = LexKind.BadUtf8; at = utf8_valid_len (take len bytes.now) })) }
{
    match str::from_utf8(&bytes[..len]) {
        Ok(text) => Ok(text),
        Err(e) => Err(LexFault {
            kind: LexKind::BadUtf8,
            at: e.valid_up_to(),
        }),
    }
}

/// What stands at the front of bytes that aren't empty, in whole characters.
fn read_front(bytes: &[u8]) -> Result<(Piece, &str), LexFault>
    requires { 0 < length bytes.now }
    ensures value { MatchResult result
        (λ p. (whole_form bytes.now ≡ Ok p.0) × (p.1.now ≡ take p.0.len bytes.now))
        (λ f. whole_form bytes.now ≡ Err f) }
    ensures within { IfOk result (λ p. (0 < p.0.len) × (p.0.len ≤ length bytes.now)) }
    ensures before { IfErr result (λ f. f.at ≤ length bytes.now) }
    ensures whole { MatchResult result (λ p. IsUtf8 (take p.0.len bytes.now)) (λ f. IsUtf8 (take f.at bytes.now)) }
    ensures place { IfErr result (λ f. IsUtf8Place bytes.now f) }
{
    match read_form(bytes) {
        Ok(piece) => match read_whole(bytes, piece.len) {
            Ok(text) => Ok((piece, text)),
            Err(bad) => Err(bad),
        },
        Err(fault) => match read_whole(bytes, fault.at) {
            Ok(_) => Err(fault),
            Err(bad) => Err(bad),
        },
    }
}

/// Reads what stands at `at`, and says where the next begins.
fn read_word<'t>(words: &mut Vec<Word<'t>>, bytes: &'t [u8], at: usize) -> Result<usize, LexError>
    requires { at < length bytes.now }
    ensures within { IfOk result (λ end. (at < end) × (end ≤ length bytes.now)) }
    ensures ok { IfOk result (λ end. with_front (seen_all words.new.items) (lexed_from (drop end bytes.now) end 0)
        ≡ with_front (seen_all words.old.items) (lexed_from (drop at bytes.now) at 0)) }
    ensures err { IfErr result (λ e. Fails e (lexed_from (drop at bytes.now) at 0)) }
    ensures slices { IfOk result (λ end. AreSlices bytes.now 0 (seen_all words.old.items) at → AreSlices bytes.now 0 (seen_all words.new.items) end) }
    ensures whole { IsUtf8 (take at bytes.now) → MatchResult result (λ end. IsUtf8 (take end bytes.now)) (λ e. IsWholeBefore bytes.now e) }
    ensures place { IsUtf8 (take at bytes.now) → IfErr result (λ e. IsMalformedAt bytes.now e) }
{
    let (piece, text) = match read_front(bytes_behind(bytes, at)) {
        Ok(found) => found,
        Err(fault) => {
            return Err(LexError::Fault(LexFault {
                kind: fault.kind,
                at: at + fault.at,
            }));
        }
    };
    let end = at + piece.len;
    match piece.kind {
        None => Ok(end),
        Some(kind) => {
            let span = Span { start: at, end };
            words.push(Word {
                token: Token { kind, span },
                text,
            })?;
            Ok(end)
        }
    }
}

/// Reads all that stands from `start` on.
fn read_words<'t>(alloc: Global, bytes: &'t [u8], start: usize) -> Result<Vec<Word<'t>>, LexError>
    requires within { start ≤ length bytes.now }
    requires begun { IsUtf8 (take start bytes.now) }
    ensures value { Gives fault_of (λ v. seen_all v.items) result (lexed_from (drop start bytes.now) start 0) }
    ensures slices { IfOk result (λ v. AreSlices bytes.now 0 (seen_all v.items) (length bytes.now)) }
    ensures whole { MatchResult result (λ v. IsUtf8 bytes.now) (λ e. IsWholeBefore bytes.now e) }
    ensures place { IfErr result (λ e. IsMalformedAt bytes.now e) }
{
    let mut words = Vec::new(alloc);
    let mut at = start;
    while at < bytes.len() {
        at = read_word(&mut words, bytes, at)?;
    }
    Ok(words)
}

/// How many bytes a byte order mark takes at the front.
#[tactic(auto, unfolding(crate::specs::Lexed::mark_len))]
fn mark_len(bytes: &[u8]) -> usize
    ensures value { result ≡ byte_order_mark bytes.now }
    ensures within { result ≤ length bytes.now }
    ensures whole { IsUtf8 (take result bytes.now) }
{
    if bytes.starts_with(b"\xef\xbb\xbf") {
        3
    } else {
        0
    }
}

/// The tokens of a text by the forms that stand in it, or its fault.
fn read_tokens<'t>(alloc: Global, text: &'t [u8]) -> Result<Tokens<'t>, LexError>
    ensures lexed { Gives fault_of (λ t. t.lexemes) result (lexed text.now) }
    ensures slices { IfOk result (λ t. AreSlices text.now 0 t.lexemes t.end) }
    ensures end { IfOk result (λ t. t.end ≡ length text.now) }
    ensures utf8 { length text.now ≤ MAX_SCRIPT → MatchResult result (λ t. IsUtf8 text.now) (λ e. IsWholeBefore text.now e) }
    ensures utf8_place { IfErr result (λ e. IsMalformedAt text.now e) }
{
    if text.len() > MAX_SCRIPT {
        return Err(LexError::Fault(LexFault {
            kind: LexKind::Limit,
            at: MAX_SCRIPT,
        }));
    }
    match read_words(alloc, text, mark_len(text)) {
        Ok(words) => Ok(Tokens::new(words, text.len())),
        Err(e) => Err(e),
    }
}

/// The tokens of a script, which is UTF-8. A byte order mark at its start is skipped.
///
/// # Errors
///
/// The fault of least place, in bytes from the start of the text. `Limit` is told before any other fault. `NoMemory` where memory runs out.
pub fn lex<'t>(alloc: Global, text: &'t [u8]) -> Result<Tokens<'t>, LexError>
    // The tokens are those of the text.
    ensures tokens { IfOk result (λ t. IsLexed text.now t.lexemes) }
    // A text that has tokens gets them, unless memory runs out.
    ensures only { (ls : List Lexeme) → IsLexed text.now ls → IfErr result (λ e. e ≡ LexError.NoMemory) }
    // A fault is the first one of the text.
    ensures fault { IfErr result (λ e. Fails e (lexed text.now)) }
    // Each token is a slice of the text, behind the tokens before it.
    ensures slices { IfOk result (λ t. AreSlices text.now 0 t.lexemes t.end) }
    ensures end { IfOk result (λ t. t.end ≡ length text.now) }
    // What has tokens is UTF-8, and so is what stands before a fault, unless the text is too long.
    ensures utf8 { length text.now ≤ MAX_SCRIPT → MatchResult result (λ t. IsUtf8 text.now) (λ e. IsWholeBefore text.now e) }
    // `BadUtf8` stands at the first byte of the text at which no whole character does.
    ensures utf8_place { IfErr result (λ e. IsMalformedAt text.now e) }
{
    read_tokens(alloc, text)
}
