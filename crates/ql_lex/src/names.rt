ghost use Rattle.std.specs.Prelude.{◌≡◌, ◌≤◌, ◌<◌, length, ◌+◌, IfOk, IfErr};
ghost use Rattle.std.specs.List.{list_any};
ghost use Rattle.std.specs.Str.{bytes_eq};
ghost use Rattle.ql_lex.specs.Forms.{front_character as character, front_width as width, begins_name as name_begins, continues_name as continues, step_len as step, name_len as whole_len, is_reserved as reserved, name as name_form};

use crate::cuts::bytes_behind;
use crate::fault::LexFault;
use crate::piece::{Piece, make_token};
use crate::token::TokenKind;

/// The character at the front, if a whole one stands there.
#[tactic(auto, unfolding(crate::specs::Forms::front_character))]
pub(crate) fn front_character(bytes: &[u8]) -> Option<char>
    ensures { result ≡ character bytes.now }
{
    bstr::decode_utf8(bytes).0
}

/// How many bytes the front takes.
#[tactic(auto, unfolding(crate::specs::Forms::front_width))]
fn front_width(bytes: &[u8]) -> usize
    requires { 0 < length bytes.now }
    ensures value { result ≡ width bytes.now }
    ensures some { 0 < result }
    ensures within { result ≤ length bytes.now }
{
    bstr::decode_utf8(bytes).1
}

/// Whether a name begins at the front.
pub(crate) fn begins_name(bytes: &[u8]) -> bool
    ensures { result ≡ name_begins bytes.now }
{
    match front_character(bytes) {
        Some(c) => unicode_ident::is_xid_start(c) || c == '_',
        None => false,
    }
}

/// Whether a character that goes on with a name stands at the front.
fn continues_name(bytes: &[u8]) -> bool
    ensures { result ≡ continues bytes.now }
{
    match front_character(bytes) {
        Some(c) => unicode_ident::is_xid_continue(c),
        None => false,
    }
}

/// How many bytes a character takes that goes on with a name, or 0 where none stands at the front.
#[tactic(auto, unfolding(crate::specs::Forms::step_len))]
fn step_len(bytes: &[u8]) -> usize
    requires { 0 < length bytes.now }
    ensures value { result ≡ step bytes.now }
    ensures within { result ≤ length bytes.now }
{
    if continues_name(bytes) {
        front_width(bytes)
    } else {
        0
    }
}

/// How many bytes characters take that go on with a name.
fn name_len(bytes: &[u8]) -> usize
    ensures value { result ≡ whole_len bytes.now 0 }
    ensures within { result ≤ length bytes.now }
{
    let mut len = 0;
    while len < bytes.len() {
        let step = step_len(bytes_behind(bytes, len));
        if step == 0 {
            break;
        }
        len += step;
    }
    len
}

/// The words that are no names.
const RESERVED: [&[u8]; 34] = [
    b"transformation",
    b"key",
    b"top",
    b"relation",
    b"query",
    b"domain",
    b"checkonly",
    b"enforce",
    b"primitive",
    b"when",
    b"where",
    b"default_values",
    b"if",
    b"then",
    b"else",
    b"endif",
    b"let",
    b"in",
    b"and",
    b"or",
    b"xor",
    b"implies",
    b"not",
    b"true",
    b"false",
    b"null",
    b"invalid",
    b"Set",
    b"Bag",
    b"Sequence",
    b"OrderedSet",
    b"String",
    b"Integer",
    b"Boolean",
];

/// Whether the word is one of the list.
fn is_listed(word: &[u8]) -> bool
    ensures { result ≡ list_any (λ r. bytes_eq r.now word.now) RESERVED }
{
    RESERVED.contains(&word)
}

/// Whether the word is reserved.
fn is_reserved(word: &[u8]) -> bool
    ensures { result ≡ reserved word.now }
{
    is_listed(word)
}

/// A name or a reserved word.
pub(crate) fn read_name(bytes: &[u8]) -> Result<Piece, LexFault>
    requires { 0 < length bytes.now }
    ensures value { result ≡ name_form bytes.now }
    ensures before { IfErr result (λ f. f.at ≤ length bytes.now) }
    ensures within { IfOk result (λ p. (0 < p.len) × (p.len ≤ length bytes.now)) }
{
    let first = front_width(bytes);
    let len = first + name_len(bytes_behind(bytes, first));
    if is_reserved(&bytes[..len]) {
        make_token(TokenKind::Reserved, len)
    } else {
        make_token(TokenKind::Name, len)
    }
}
