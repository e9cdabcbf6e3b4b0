ghost use Rattle.std.specs.Prelude.{◌≡◌};
ghost use Rattle.xmi_text.specs.References as refs;

use crate::names::is_storable_character;
use crate::utf_eight::scalar;

/// What stands of a reference behind its `&` (XML 1.0, 4.1 and 4.6).
#[derive(Clone, Copy)]
pub(crate) enum Reference {
    Begun,
    A,
    Am,
    Amp,
    Ap,
    Apo,
    Apos,
    L,
    Lt,
    G,
    Gt,
    Q,
    Qu,
    Quo,
    Quot,
    Hash,
    Decimal(u32),
    Hexadecimal,
    Digits(u32),
}

/// The number of a digit.
fn digit(byte: u8) -> Option<u32>
    ensures { result ≡ refs.digit byte }
{
    match byte {
        b'0'..=b'9' => Some(u32::from(byte) - 48),
        _ => None,
    }
}

/// The number of a hexadecimal digit.
fn hexadecimal_digit(byte: u8) -> Option<u32>
    ensures { result ≡ refs.hexadecimal_digit byte }
{
    match byte {
        b'0'..=b'9' => Some(u32::from(byte) - 48),
        b'A'..=b'F' => Some(u32::from(byte) - 55),
        b'a'..=b'f' => Some(u32::from(byte) - 87),
        _ => None,
    }
}

/// A decimal number with one more digit, while it can still become a character's.
fn decimal(value: u32, byte: u8) -> Option<Reference>
    ensures { result ≡ refs.decimal value byte }
{
    let digit = digit(byte)?;
    if value > 0x10_ffff {
        return None;
    }
    let value = value * 10 + digit;
    if value > 0x10_ffff {
        return None;
    }
    Some(Reference::Decimal(value))
}

/// A hexadecimal number with one more digit, while it can still become a character's.
fn hexadecimal(value: u32, byte: u8) -> Option<Reference>
    ensures { result ≡ refs.hexadecimal value byte }
{
    let digit = hexadecimal_digit(byte)?;
    if value > 0x10_ffff {
        return None;
    }
    let value = value * 16 + digit;
    if value > 0x10_ffff {
        return None;
    }
    Some(Reference::Digits(value))
}

/// The reference with one more byte, if a reference begins so.
pub(crate) fn extended(reference: Reference, byte: u8) -> Option<Reference>
    ensures { result ≡ refs.extended reference byte }
{
    match reference {
        Reference::Hash => {
            if byte == b'x' {
                Some(Reference::Hexadecimal)
            } else {
                decimal(0, byte)
            }
        }
        Reference::Decimal(value) => decimal(value, byte),
        Reference::Hexadecimal => hexadecimal(0, byte),
        Reference::Digits(value) => hexadecimal(value, byte),
        _ => named(reference, byte),
    }
}

/// The name of an entity with one more byte.
fn named(reference: Reference, byte: u8) -> Option<Reference>
    ensures { result ≡ refs.named reference byte }
{
    match reference {
        Reference::Begun => first(byte),
        Reference::A => second(byte),
        Reference::Am => only(byte, b'p', Reference::Amp),
        Reference::Ap => only(byte, b'o', Reference::Apo),
        Reference::Apo => only(byte, b's', Reference::Apos),
        Reference::L => only(byte, b't', Reference::Lt),
        Reference::G => only(byte, b't', Reference::Gt),
        Reference::Q => only(byte, b'u', Reference::Qu),
        Reference::Qu => only(byte, b'o', Reference::Quo),
        Reference::Quo => only(byte, b't', Reference::Quot),
        _ => None,
    }
}

/// The byte behind the `&`.
fn first(byte: u8) -> Option<Reference>
    ensures { result ≡ refs.first byte }
{
    match byte {
        b'a' => Some(Reference::A),
        b'l' => Some(Reference::L),
        b'g' => Some(Reference::G),
        b'q' => Some(Reference::Q),
        b'#' => Some(Reference::Hash),
        _ => None,
    }
}

/// The byte behind `&a`.
fn second(byte: u8) -> Option<Reference>
    ensures { result ≡ refs.second byte }
{
    match byte {
        b'm' => Some(Reference::Am),
        b'p' => Some(Reference::Ap),
        _ => None,
    }
}

/// The one byte that a name may go on with.
fn only(byte: u8, wanted: u8, reference: Reference) -> Option<Reference>
    ensures { result ≡ refs.only byte wanted reference }
{
    if byte == wanted {
        Some(reference)
    } else {
        None
    }
}

/// The character of a number, if it is storable.
fn storable(value: u32) -> Option<char>
    ensures { result ≡ refs.storable value }
{
    let c = scalar(value)?;
    if is_storable_character(c) {
        Some(c)
    } else {
        None
    }
}

/// The character that a reference names, where a `;` ends it.
pub(crate) fn character(reference: Reference) -> Option<char>
    ensures { result ≡ refs.character reference }
{
    match reference {
        Reference::Amp => Some('&'),
        Reference::Apos => Some('\''),
        Reference::Lt => Some('<'),
        Reference::Gt => Some('>'),
        Reference::Quot => Some('"'),
        Reference::Decimal(value) => storable(value),
        Reference::Digits(value) => storable(value),
        _ => None,
    }
}
