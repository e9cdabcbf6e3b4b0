ghost use Rattle.std.specs.Prelude.{◌≡◌, ◌≤◌, ◌<◌, ◌+◌, ◌-◌, ◌&&◌, ◌==◌, if◌then◌else◌, false, length, IfSome, IfOk, IfErr};
ghost use Rattle.ql_lex.specs.Forms.{comment_end, block_comment, string_end, closes as closing, escapes as escaping, is_escape as escape, begins_unstorable as unstorable, begins_misfit as misfit_begins, misfit_from, closed as closed_text, text as text_form};
ghost use Rattle.mof_metamodel.specs.Characters.{is_storable_character as storable};

use crate::cuts::bytes_behind;
use crate::fault::{LexFault, LexKind};
use crate::names::front_character;
use crate::piece::{Piece, make_fault, make_nothing, make_token};
use crate::token::TokenKind;

/// Whether a byte ends a comment, behind a `*` or not.
fn ends_comment(star: bool, b: u8) -> bool
    ensures { result ≡ (star && (b == 47)) }
{
    star && b == b'/'
}

/// How many bytes there are up to the next `*/` and with it.
fn find_comment_end(bytes: &[u8]) -> Option<usize>
    ensures value { result ≡ comment_end 0 false bytes.now }
    ensures within { IfSome result (λ n. n ≤ length bytes.now) }
{
    let mut star = false;
    for (i, b) in bytes.iter().enumerate() {
        if ends_comment(star, *b) {
            return Some(i + 1);
        }
        star = *b == b'*';
    }
    None
}

/// A comment that begins with `/*`.
pub(crate) fn read_block_comment(bytes: &[u8]) -> Result<Piece, LexFault>
    requires { 2 ≤ length bytes.now }
    ensures value { result ≡ block_comment bytes.now }
    ensures before { IfErr result (λ f. f.at ≤ length bytes.now) }
    ensures within { IfOk result (λ p. (0 < p.len) × (p.len ≤ length bytes.now)) }
{
    match find_comment_end(bytes_behind(bytes, 2)) {
        Some(n) => make_nothing(2 + n),
        None => make_fault(LexKind::OpenComment, 0),
    }
}

/// Whether the byte closes a text.
fn closes(escaped: bool, b: u8) -> bool
    ensures { result ≡ closing escaped b }
{
    !escaped && b == b'\''
}

/// Whether the byte begins an escape.
fn escapes(escaped: bool, b: u8) -> bool
    ensures { result ≡ escaping escaped b }
{
    !escaped && b == b'\\'
}

/// How many bytes there are up to the closing `'` and with it.
fn find_string_end(bytes: &[u8]) -> Option<usize>
    ensures value { result ≡ string_end 0 false bytes.now }
    ensures within { IfSome result (λ n. (0 < n) × (n ≤ length bytes.now)) }
{
    let mut escaped = false;
    for (i, b) in bytes.iter().enumerate() {
        if closes(escaped, *b) {
            return Some(i + 1);
        }
        escaped = escapes(escaped, *b);
    }
    None
}

/// Whether the byte may stand behind a `\`.
fn is_escape(b: u8) -> bool
    ensures { result ≡ escape b }
{
    matches!(b, b't' | b'n' | b'r' | b'"' | b'\'' | b'\\')
}

/// Whether a model may hold the character.
fn is_storable(c: char) -> bool
    ensures { result ≡ storable c }
{
    matches!(c, '\t' | '\n' | '\r') || (c >= ' ' && c != '\u{fffe}' && c != '\u{ffff}')
}

/// Whether a character stands at the front that a model can't hold.
fn begins_unstorable(bytes: &[u8]) -> bool
    ensures { result ≡ unstorable bytes.now }
{
    match front_character(bytes) {
        Some(c) => !is_storable(c),
        None => false,
    }
}

/// Whether what a text may not hold stands at the front.
fn begins_misfit(escaped: bool, bytes: &[u8]) -> bool
    requires { 0 < length bytes.now }
    ensures { result ≡ misfit_begins escaped bytes.now }
{
    if escaped {
        !is_escape(bytes[0])
    } else {
        begins_unstorable(bytes)
    }
}

/// The place of a misfit, or of the `\` before it.
fn misfit_place(escaped: bool, at: usize) -> usize
    ensures value { result ≡ (if escaped then at - 1 else at) }
    ensures within { result ≤ at }
{
    if escaped { at.saturating_sub(1) } else { at }
}

/// The place of the first thing that a text may not hold.
fn find_misfit(inside: &[u8]) -> Option<usize>
    ensures value { result ≡ misfit_from 0 false inside.now }
    ensures within { IfSome result (λ k. k < length inside.now) }
{
    let mut escaped = false;
    for (i, b) in inside.iter().enumerate() {
        if begins_misfit(escaped, bytes_behind(inside, i)) {
            return Some(misfit_place(escaped, i));
        }
        escaped = escapes(escaped, *b);
    }
    None
}

/// A string or quoted name whose inside and closing sign are the first `n` bytes of `inside`.
fn read_closed(kind: TokenKind, opening: usize, inside: &[u8], n: usize) -> Result<Piece, LexFault>
    requires some { 0 < n }
    requires within { n ≤ length inside.now }
    requires small { opening ≤ 2 }
    ensures value { result ≡ closed_text kind opening inside.now n }
    ensures len { IfOk result (λ p. p.len ≡ opening + n) }
    ensures before { IfErr result (λ f. f.at ≤ opening + n) }
{
    match find_misfit(&inside[..n - 1]) {
        Some(k) => make_fault(LexKind::BadChar, opening + k),
        None => make_token(kind, opening + n),
    }
}

/// A string or quoted name whose opening sign has `opening` bytes.
pub(crate) fn read_text(kind: TokenKind, opening: usize, bytes: &[u8]) -> Result<Piece, LexFault>
    requires begun { opening ≤ length bytes.now }
    requires small { opening ≤ 2 }
    ensures value { result ≡ text_form kind opening bytes.now }
    ensures before { IfErr result (λ f. f.at ≤ length bytes.now) }
    ensures within { IfOk result (λ p. (0 < p.len) × (p.len ≤ length bytes.now)) }
{
    let inside = bytes_behind(bytes, opening);
    match find_string_end(inside) {
        Some(n) => read_closed(kind, opening, inside, n),
        None => make_fault(LexKind::OpenString, 0),
    }
}
