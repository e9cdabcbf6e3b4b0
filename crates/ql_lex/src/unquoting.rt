ghost use Rattle.std.specs.Prelude.{◌≡◌, ◌≤◌, true, None, Some, pos, IfOk, OnOk, MatchOption};
ghost use Rattle.std.specs.Str.{chars};
ghost use Rattle.ql_lex.specs.Lexemes.{integer_of, name_text as text_of_name};
ghost use Rattle.ql_lex.specs.Unquoting.{meaning as meaning_of, passed, unquoted};

use crate::limits::MAX_INTEGER;
use crate::token::TokenKind;
use mof_metamodel::{NoMemory, Text};
use std::alloc::Global;

/// What a string or a quoted name was found to stand for, from its first character on.
#[derive(Drop)]
struct Unquoted {
    text: Text,
    /// Whether the opening quote was passed.
    opened: bool,
    /// Whether the character before was the `\` of an escape.
    escaped: bool,
}

/// The character that a character stands for behind a `\`.
fn meaning(c: char) -> char
    ensures { result ≡ meaning_of c }
{
    match c {
        't' => '\t',
        'n' => '\n',
        'r' => '\r',
        _ => c,
    }
}

/// Goes past a character.
#[tactic(auto, unfolding(crate::specs::Unquoting::passed))]
fn pass(so_far: &mut Unquoted, c: char) -> Result<(), NoMemory>
    ensures { OnOk result (so_far.new ≡ passed so_far.old c) }
{
    if !so_far.opened {
        so_far.opened = c == '\'';
    } else if so_far.escaped {
        so_far.text.push(meaning(c))?;
        so_far.escaped = false;
    } else if c == '\\' {
        so_far.escaped = true;
    } else if c != '\'' {
        so_far.text.push(c)?;
    }
    Ok(())
}

/// What a string or a quoted name stands for: the characters between its quotes, with each escape as one.
#[tactic(auto, unfolding(crate::specs::Unquoting::unquoted))]
pub(crate) fn unquote(alloc: Global, token: &str) -> Result<Text, NoMemory>
    ensures { IfOk result (λ t. t ≡ unquoted (chars token.now)) }
{
    let mut so_far = Unquoted {
        text: Text::new(alloc, "")?,
        opened: false,
        escaped: false,
    };
    for c in token.chars() {
        pass(&mut so_far, c)?;
    }
    Ok(so_far.text)
}

/// The text of a name, in quotes or not.
#[tactic(auto, unfolding(crate::specs::Lexemes::name_text))]
pub fn name_text(alloc: Global, kind: TokenKind, text: &str) -> Result<Option<Text>, NoMemory>
    ensures { IfOk result (λ o. o ≡ text_of_name kind text.now) }
{
    match kind {
        TokenKind::Name => Ok(Some(Text::new(alloc, text)?)),
        TokenKind::Quoted => Ok(Some(unquote(alloc, text)?)),
        TokenKind::Reserved | TokenKind::Number | TokenKind::Str | TokenKind::Sign => Ok(None),
    }
}

/// The number that digits write, if all are digits and it is an Integer.
fn decimal_value(digits: &[u8]) -> Option<u64>
    ensures { MatchOption result (integer_of digits.now ≡ None) (λ v. (integer_of digits.now ≡ Some (pos v)) × (v ≤ MAX_INTEGER)) }
{
    let mut value = 0;
    for d in digits {
        if !d.is_ascii_digit() {
            return None;
        }
        let digit = u64::from(d.saturating_sub(b'0'));
        if value > (MAX_INTEGER - digit) / 10 {
            return None;
        }
        value = 10 * value + digit;
    }
    Some(value)
}

/// The Integer that digits write, if it is one.
pub(crate) fn integer_value(digits: &str) -> Option<i64>
    ensures { result ≡ integer_of digits.now }
{
    match decimal_value(digits.as_bytes()) {
        Some(value) => Some(value as i64),
        None => None,
    }
}
