//! The bounds of a property, as a model of EMOF has them.
ghost use Rattle.std.specs.Prelude.{◌≡◌, ◌==◌, not, length, chars, Some};
ghost use Rattle.std.specs.List.{fold};
ghost use Rattle.model_assembly.specs.Values.{at_most, spelled_number};
ghost use Rattle.model_files.specs.Bounds.{bound_of, lower_of, digit_of, further, spelled_on, upper_in, upper_of, bounds_from};

use crate::names::is_named;
use object_tables::Value;

/// The greatest bound of a property.
pub(crate) const MAX_BOUND: u32 = 4_294_967_295;

/// The lower and the upper bound of a property. An upper bound of `None` is unbounded.
#[derive(Clone, Copy)]
pub(crate) struct Bounds {
    pub(crate) lower: u32,
    pub(crate) upper: Option<u32>,
}

/// An Integer as a bound, if it can be one.
fn bound_of(number: i64) -> Option<u32>
    ensures { result ≡ bound_of number }
{
    u32::try_from(number).ok()
}

/// The lower bound that the values of `lower` say, if they say one.
fn lower_of(held: &[Value]) -> Option<u32>
    ensures { result ≡ lower_of held.now }
{
    match held.first() {
        Some(Value::Int(number)) => bound_of(*number),
        Some(_) => None,
        None => Some(1),
    }
}

/// The value of a digit.
fn digit_of(c: char) -> Option<u32>
    ensures { result ≡ digit_of c }
{
    match c {
        '0'..='9' => Some(c as u32 - 48),
        _ => None,
    }
}

/// The number of a further digit behind those of a number, if it can be a bound.
fn further(number: u32, c: char) -> Option<u32>
    ensures { result ≡ further number c }
{
    let digit = digit_of(c)?;
    number.checked_mul(10)?.checked_add(digit)
}

/// The same behind what the characters so far spell.
fn spelled_on(so_far: Option<u32>, c: char) -> Option<u32>
    ensures { result ≡ spelled_on so_far c }
{
    match so_far {
        Some(number) => further(number, c),
        None => None,
    }
}

/// What the characters of a text spell, read from left to right.
fn read_digits(text: &str) -> Option<u32>
    ensures { result ≡ fold spelled_on (Some 0) (chars text.now) }
{
    let mut so_far = Some(0);
    for c in text.chars() {
        so_far = spelled_on(so_far, c);
    }
    so_far
}

/// Whether a text has a character.
fn has_character(text: &str) -> bool
    ensures { result ≡ not (length (chars text.now) == 0) }
{
    !text.is_empty()
}

/// The number that one digit or more spell, if it can be a bound.
fn spelled_bound(text: &str) -> Option<u32>
    ensures { result ≡ at_most MAX_BOUND (spelled_number (chars text.now)) }
{
    if has_character(text) {
        read_digits(text)
    } else {
        None
    }
}

/// The upper bound that a text says, if it says one.
fn upper_in(text: &str) -> Option<Option<u32>>
    ensures { result ≡ upper_in (chars text.now) }
{
    if is_named(text, "*") || is_named(text, "-1") {
        return Some(None);
    }
    spelled_bound(text).map(Some)
}

/// The upper bound that the values of `upper` say, if they say one.
fn upper_of(held: &[Value]) -> Option<Option<u32>>
    ensures { result ≡ upper_of held.now }
{
    match held.first() {
        Some(Value::Str(text)) => upper_in(text.as_str()),
        Some(_) => None,
        None => Some(Some(1)),
    }
}

/// The bounds that the values of `lower` and of `upper` say. Where one of them says nothing, they are bounds that no metamodel may have.
pub(crate) fn bounds_from(lower: &[Value], upper: &[Value]) -> Bounds
    ensures { result ≡ bounds_from (lower_of lower.now) (upper_of upper.now) }
{
    match (lower_of(lower), upper_of(upper)) {
        (Some(lower), Some(upper)) => Bounds { lower, upper },
        _ => Bounds {
            lower: 0,
            upper: Some(0),
        },
    }
}
