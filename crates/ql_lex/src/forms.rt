ghost use Rattle.std.specs.Prelude.{◌≡◌, ◌≤◌, ◌<◌, ◌||◌, length, IfOk, IfErr, nat_lt, slice_index, codes, IsTrue};
ghost use Rattle.std.specs.List.{prefix_len};
ghost use Rattle.std.specs.Char.{is_ascii_digit};
ghost use Rattle.ql_lex.specs.Forms.{blank_len as blanks, begins_line_comment as line_comment_begins, line_len as line, line_comment, nothing, decimal, digits_len as digits, number, begins_long_sign as long_sign, begins_short_sign as short_sign, sign, form};
ghost use Rattle.mof_metamodel.specs.Characters.{is_blank as blank};

use crate::cuts::bytes_behind;
use crate::fault::{LexFault, LexKind};
use crate::limits::MAX_INTEGER;
use crate::names::{begins_name, front_character, read_name};
use crate::piece::{Piece, make_fault, make_nothing, make_token};
use crate::texts::{read_block_comment, read_text};
use crate::token::TokenKind;
use mof_metamodel::is_blank;

/// How many blanks there are at the front.
fn blank_len(bytes: &[u8]) -> usize
    ensures { result ≡ blanks bytes.now }
{
    bytes.iter().take_while(|b| is_blank(**b)).count()
}

/// Whether a comment begins at the front that goes on to the end of its line.
fn begins_line_comment(bytes: &[u8]) -> bool
    ensures within { IsTrue result → 2 ≤ length bytes.now }
    ensures value { result ≡ line_comment_begins bytes.now }
{
    bytes.starts_with(b"--") || bytes.starts_with(b"//")
}

/// How many bytes there are before the next line feed.
fn line_len(bytes: &[u8]) -> usize
    ensures { result ≡ line bytes.now }
{
    bytes.iter().take_while(|b| **b != b'\n').count()
}

/// A comment to the end of its line.
fn read_line_comment(bytes: &[u8]) -> Result<Piece, LexFault>
    requires { 2 ≤ length bytes.now }
    ensures value { result ≡ line_comment bytes.now }
    ensures before { IfErr result (λ f. f.at ≤ length bytes.now) }
    ensures within { IfOk result (λ p. (0 < p.len) × (p.len ≤ length bytes.now)) }
{
    make_nothing(2 + line_len(bytes_behind(bytes, 2)))
}

/// A run of blanks.
fn read_blanks(bytes: &[u8]) -> Result<Piece, LexFault>
    requires some { 0 < length bytes.now }
    requires begun { IsTrue (blank (slice_index bytes.now 0)) }
    ensures value { result ≡ nothing (blanks bytes.now) }
    ensures before { IfErr result (λ f. f.at ≤ length bytes.now) }
    ensures within { IfOk result (λ p. (0 < p.len) × (p.len ≤ length bytes.now)) }
{
    make_nothing(blank_len(bytes))
}

/// How many digits there are at the front.
fn digits_len(bytes: &[u8]) -> usize
    ensures { result ≡ digits bytes.now }
{
    bytes.iter().take_while(|b| b.is_ascii_digit()).count()
}

/// Whether the number that the digits write is above `MAX_INTEGER`.
fn is_big(digits: &[u8]) -> bool
    ensures { result ≡ nat_lt MAX_INTEGER (decimal 0 digits.now) }
{
    let mut value = 0;
    for d in digits {
        let digit = u64::from(d.saturating_sub(b'0'));
        if value > (MAX_INTEGER - digit) / 10 {
            return true;
        }
        value = 10 * value + digit;
    }
    false
}

/// A number.
fn read_number(bytes: &[u8]) -> Result<Piece, LexFault>
    requires { IsTrue (is_ascii_digit (slice_index bytes.now 0)) }
    ensures value { result ≡ number bytes.now }
    ensures before { IfErr result (λ f. f.at ≤ length bytes.now) }
    ensures within { IfOk result (λ p. (0 < p.len) × (p.len ≤ length bytes.now)) }
{
    let len = digits_len(bytes);
    if is_big(&bytes[..len]) {
        make_fault(LexKind::BigNumber, 0)
    } else {
        make_token(TokenKind::Number, len)
    }
}

/// Whether a sign of two bytes stands at the front.
#[tactic(auto, unfolding(crate::specs::Forms::begins_long_sign))]
fn begins_long_sign(bytes: &[u8]) -> bool
    ensures value { result ≡ long_sign bytes.now }
    ensures within { IsTrue result → 2 ≤ length bytes.now }
{
    bytes.starts_with(b"::")
        || bytes.starts_with(b"<>")
        || bytes.starts_with(b"<=")
        || bytes.starts_with(b">=")
        || bytes.starts_with(b"->")
}

/// Whether a sign of one byte stands at the front.
#[tactic(auto, unfolding(crate::specs::Forms::begins_short_sign))]
fn begins_short_sign(bytes: &[u8]) -> bool
    requires { 0 < length bytes.now }
    ensures value { result ≡ short_sign bytes.now }
{
    b"(){},;:=<>+-*.|".contains(&bytes[0])
}

/// A sign, or the fault where no form begins.
fn read_sign(bytes: &[u8]) -> Result<Piece, LexFault>
    requires { 0 < length bytes.now }
    ensures value { result ≡ sign bytes.now }
    ensures before { IfErr result (λ f. f.at ≤ length bytes.now) }
    ensures within { IfOk result (λ p. (0 < p.len) × (p.len ≤ length bytes.now)) }
{
    if begins_long_sign(bytes) {
        make_token(TokenKind::Sign, 2)
    } else if begins_short_sign(bytes) {
        make_token(TokenKind::Sign, 1)
    } else if front_character(bytes).is_some() {
        make_fault(LexKind::BadChar, 0)
    } else {
        make_fault(LexKind::BadUtf8, 0)
    }
}

/// What stands at the front of bytes that aren't empty.
#[tactic(auto, unfolding(crate::specs::Forms::form))]
pub(crate) fn read_form(bytes: &[u8]) -> Result<Piece, LexFault>
    requires { 0 < length bytes.now }
    ensures value { result ≡ form bytes.now }
    ensures before { IfErr result (λ f. f.at ≤ length bytes.now) }
    ensures within { IfOk result (λ p. (0 < p.len) × (p.len ≤ length bytes.now)) }
{
    let first = bytes[0];
    if is_blank(first) {
        read_blanks(bytes)
    } else if begins_line_comment(bytes) {
        read_line_comment(bytes)
    } else if bytes.starts_with(b"/*") {
        read_block_comment(bytes)
    } else if bytes.starts_with(b"_'") {
        read_text(TokenKind::Quoted, 2, bytes)
    } else if first == b'\'' {
        read_text(TokenKind::Str, 1, bytes)
    } else if first.is_ascii_digit() {
        read_number(bytes)
    } else if begins_name(bytes) {
        read_name(bytes)
    } else {
        read_sign(bytes)
    }
}
