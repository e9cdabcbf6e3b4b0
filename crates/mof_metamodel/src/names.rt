ghost use Rattle.mof_metamodel.specs.Metamodels.{same_name, is_primitive as primitive};
ghost use Rattle.mof_metamodel.specs.WellMeta.{is_digit as digit, is_name_character as name_character, begins_with_digit as begins, is_name as name_text, is_prop_name as prop_name_text};
ghost use Rattle.mof_metamodel.specs.MetaFaults.{qualified as qualified_text, is_number as same_number};
ghost use Rattle.std.specs.Prelude.{◌≡◌, IfOk, ◌==◌, not, length, chars};
ghost use Rattle.std.specs.List.{list_any, list_all};
ghost use Rattle.mof_metamodel.specs.Characters.{is_storable_text, is_identifier_text, is_storable_character as stored, is_blank as blank};

use crate::memory::NoMemory;
use crate::text::Text;
use std::alloc::Global;

/// Whether a character is storable: a tab, a line feed, a carriage return, or one from the space on
/// other than U+FFFE and U+FFFF.
fn is_storable_character(c: char) -> bool
    ensures { result ≡ stored c }
{
    matches!(c, '\t' | '\n' | '\r') || (c >= ' ' && c != '\u{fffe}' && c != '\u{ffff}')
}

/// Whether a byte is a blank: a space, a tab, a line feed or a carriage return.
pub fn is_blank(byte: u8) -> bool
    ensures { result ≡ blank byte }
{
    matches!(byte, b' ' | b'\t' | b'\n' | b'\r')
}

/// Whether a character is a blank: a space, a tab, a line feed or a carriage return.
pub fn is_blank_character(c: char) -> bool
    ensures { result ≡ blank c }
{
    matches!(c, ' ' | '\t' | '\n' | '\r')
}

/// Whether each character of the text is storable: a tab, a line feed, a carriage return, or one from the
/// space on other than U+FFFE and U+FFFF.
pub fn is_storable(text: &str) -> bool
    ensures { result ≡ is_storable_text (chars text.now) }
{
    text.chars().all(is_storable_character)
}

/// Whether the text has a blank.
fn has_blank(text: &str) -> bool
    ensures { result ≡ list_any blank (chars text.now) }
{
    text.chars().any(is_blank_character)
}

/// Whether the text has a character.
pub(crate) fn has_character(text: &str) -> bool
    ensures { result ≡ not (length (chars text.now) == 0) }
{
    !text.is_empty()
}

/// Whether the text can identify an object: storable, not empty and without a blank.
pub fn is_identifier(text: &str) -> bool
    ensures { result ≡ is_identifier_text (chars text.now) }
{
    is_storable(text) && !has_blank(text) && has_character(text)
}

/// Whether a name has the characters of another.
pub(crate) fn is_named(name: &str, other: &str) -> bool
    ensures { result ≡ same_name (chars name.now) (chars other.now) }
{
    name == other
}

/// Whether a name is that of a primitive type.
#[tactic(auto, using(crate::proofs::NameLemmas::string_characters, crate::proofs::NameLemmas::integer_characters, crate::proofs::NameLemmas::boolean_characters))]
pub(crate) fn is_primitive(name: &str) -> bool
    ensures { result ≡ primitive (chars name.now) }
{
    is_named(name, "String") || is_named(name, "Integer") || is_named(name, "Boolean")
}

/// Whether a character is an ASCII digit.
fn is_digit(c: char) -> bool
    ensures { result ≡ digit c }
{
    c >= '0' && c <= '9'
}

/// Whether a character may stand in a name of a metamodel.
fn is_name_character(c: char) -> bool
    ensures { result ≡ name_character c }
{
    (c >= 'A' && c <= 'Z')
        || (c >= 'a' && c <= 'z')
        || is_digit(c)
        || c == '_'
        || (c >= '\u{80}' && is_storable_character(c))
}

/// Whether a name begins with an ASCII digit.
fn begins_with_digit(name: &str) -> bool
    ensures { result ≡ begins (chars name.now) }
{
    name.chars().take(1).any(is_digit)
}

/// Whether each character may stand in a name of a metamodel.
fn has_name_characters(name: &str) -> bool
    ensures { result ≡ list_all name_character (chars name.now) }
{
    name.chars().all(is_name_character)
}

/// Whether a text is a name of a metamodel: not empty, with no digit at its beginning, and with no other characters than ASCII
/// letters, ASCII digits, `_` and storable characters from U+0080 on.
pub(crate) fn is_name(name: &Text) -> bool
    ensures { result ≡ name_text name.now }
{
    let name = name.as_str();
    has_character(name) && !begins_with_digit(name) && has_name_characters(name)
}

/// Whether a text is a name of a property: one of a metamodel, and not `xmlns`.
#[tactic(auto, using(crate::proofs::NameLemmas::xmlns_characters))]
pub(crate) fn is_prop_name(name: &Text) -> bool
    ensures { result ≡ prop_name_text name.now }
{
    is_name(name) && !is_named(name.as_str(), "xmlns")
}

/// A name behind the name of the class or the enumeration that has it, with a full stop between.
pub(crate) fn qualified(alloc: Global, outer: &Text, inner: &Text) -> Result<Text, NoMemory>
    ensures { IfOk result (λ t. t ≡ qualified_text outer.now inner.now) }
{
    let mut name = outer.duplicate(alloc)?;
    name.push('.')?;
    name.push_str(inner.as_str())?;
    Ok(name)
}

/// Whether a number is there, and is this one.
pub(crate) fn is_number(found: Option<u32>, number: u32) -> bool
    ensures { result ≡ same_number found number }
{
    match found {
        Some(found) => found == number,
        None => false,
    }
}
