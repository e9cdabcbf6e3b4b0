ghost use Rattle.std.specs.Prelude.{◌≡◌, nat_le, length, take, drop, IfOk};
ghost use Rattle.qvtr_semantics.specs.Outs.{string};
ghost use Rattle.qvtr_semantics.specs.Strings.{size, part_between, substring, integer_text, boolean_text};

use crate::integers::integer;
use mof_metamodel::{NoMemory, Text};
use object_tables::Value;
use qvtr_semantics::{Datum, MAX_RESULT, Out};
use std::alloc::Global;

/// How many characters a text has.
#[tactic(auto, using(std::proofs::lemmas::Str::chars_from_encodes))]
pub(crate) fn character_count(text: &Text) -> usize
    ensures { result ≡ length text.now }
{
    text.as_str().chars().count()
}

/// Whether a text has at most `limit` characters.
fn has_at_most(text: &Text, limit: usize) -> bool
    ensures { result ≡ nat_le (length text.now) limit }
{
    character_count(text) <= limit
}

/// A String as the value of an expression; one of more characters than [`MAX_RESULT`] is invalid.
pub fn string(text: Text) -> Out
    ensures { result ≡ string text }
{
    if has_at_most(&text, MAX_RESULT) {
        Out::One(Datum::Val(0, Value::Str(text)))
    } else {
        Out::Invalid
    }
}

/// `s.size()`, in characters.
#[tactic(auto, using(crate::proofs::IntegerLaws::unfit))]
pub fn size(text: &Text) -> Out
    ensures { result ≡ size text.now }
{
    let count = character_count(text);
    if count <= 9_223_372_036_854_775_807 {
        integer(count as i64)
    } else {
        Out::Invalid
    }
}

// so many characters, after those that are left out
fn part(alloc: Global, text: &Text, left_out: usize, count: usize) -> Result<Text, NoMemory>
    ensures { IfOk result (λ part. part ≡ take count (drop left_out text.now)) }
{
    let mut part = Text::new(alloc, "")?;
    for c in text.as_str().chars().skip(left_out).take(count) {
        part.push(c)?;
    }
    Ok(part)
}

/// The characters from that of number `lower` to that of number `upper`, which are counted from 1.
fn part_between(alloc: Global, text: &Text, lower: usize, upper: usize) -> Result<Out, NoMemory>
    ensures { IfOk result (λ out. out ≡ part_between text.now lower upper) }
{
    if 1 <= lower && lower <= upper && upper <= character_count(text) {
        Ok(string(part(alloc, text, lower - 1, upper - lower + 1)?))
    } else {
        Ok(Out::Invalid)
    }
}

/// `s.substring(lower, upper)`: characters are counted from 1, and one that isn't there makes it invalid.
pub fn substring(alloc: Global, text: &Text, lower: i64, upper: i64) -> Result<Out, NoMemory>
    ensures { IfOk result (λ out. out ≡ substring text.now lower upper) }
{
    if lower < 0 || upper < 0 {
        return Ok(Out::Invalid);
    }
    part_between(alloc, text, lower as usize, upper as usize)
}

/// `i.toString()`.
#[tactic(auto, using(crate::proofs::StringLaws::signed_characters))]
pub fn integer_text(alloc: Global, i: i64) -> Result<Out, NoMemory>
    ensures { IfOk result (λ out. out ≡ integer_text i) }
{
    let text = format!(in alloc; "{i}")?;
    Ok(string(Text::from_string(text)))
}

/// `b.toString()`.
#[tactic(auto, using(crate::proofs::StringLaws::true_characters, crate::proofs::StringLaws::false_characters))]
pub fn boolean_text(alloc: Global, b: bool) -> Result<Out, NoMemory>
    ensures { IfOk result (λ out. out ≡ boolean_text b) }
{
    let text = if b { "true" } else { "false" };
    Ok(string(Text::new(alloc, text)?))
}
