ghost use Rattle.std.specs.Prelude.{◌≡◌};
ghost use Rattle.qvtr_semantics.specs.Integers.{integer};
ghost use Rattle.qvtr_semantics.specs.Strings.{to_integer};
ghost use Rattle.ocl_eval.specs.Spellings.{digit_of, further, spelled_on, signed, spelled_out};

use crate::integers::checked;
use mof_metamodel::Text;
use qvtr_semantics::Out;

/// What the characters so far spell, where an Integer is read.
#[derive(Clone, Copy)]
pub enum Spelling {
    /// No character yet.
    Start,
    /// A `-` alone.
    Sign,
    /// Whether there was a `-`, and the number that the digits spell, or `u64::MAX` where it is greater.
    Digits(bool, u64),
    /// No Integer, whatever follows.
    Other,
}

fn digit_of(c: char) -> Option<u64>
    ensures { result ≡ digit_of c }
{
    match c {
        '0'..='9' => Some(c as u64 - 48),
        _ => None,
    }
}

#[tactic(auto, using(crate::proofs::SpellingLaws::capped_sum))]
fn further(is_negative: bool, number: u64, c: char) -> Spelling
    ensures { result ≡ further is_negative number c }
{
    match digit_of(c) {
        Some(digit) => {
            Spelling::Digits(is_negative, number.saturating_mul(10).saturating_add(digit))
        }
        None => Spelling::Other,
    }
}

fn spelled_on(so_far: Spelling, c: char) -> Spelling
    ensures { result ≡ spelled_on so_far c }
{
    match so_far {
        Spelling::Start => {
            if c == '-' {
                Spelling::Sign
            } else {
                further(false, 0, c)
            }
        }
        Spelling::Sign => further(true, 0, c),
        Spelling::Digits(is_negative, number) => further(is_negative, number, c),
        Spelling::Other => Spelling::Other,
    }
}

#[tactic(auto, using(crate::proofs::SpellingLaws::down_from_zero, crate::proofs::SpellingLaws::up_from_zero))]
fn signed(is_negative: bool, number: u64) -> Out
    ensures { result ≡ integer (signed is_negative number) }
{
    let zero: i64 = 0;
    if is_negative {
        checked(zero.checked_sub_unsigned(number))
    } else {
        checked(zero.checked_add_unsigned(number))
    }
}

fn spelled_out(spelling: Spelling) -> Out
    ensures { result ≡ spelled_out spelling }
{
    match spelling {
        Spelling::Digits(is_negative, number) => signed(is_negative, number),
        _ => Out::Invalid,
    }
}

/// `s.toInteger()` (OCL 2.4, section 11.5.3): the Integer that an optional `-` and digits spell, else invalid.
#[tactic(auto, using(crate::proofs::SpellingLaws::spelled))]
pub fn to_integer(text: &Text) -> Out
    ensures { result ≡ to_integer text.now }
{
    let mut so_far = Spelling::Start;
    for c in text.as_str().chars() {
        so_far = spelled_on(so_far, c);
    }
    spelled_out(so_far)
}
