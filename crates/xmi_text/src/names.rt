ghost use Rattle.std.specs.Prelude.{◌≡◌, chars};
ghost use Rattle.mof_metamodel.specs.Characters.{is_storable_character as stored};
ghost use Rattle.xmi_text.specs.ByteClass as class;
ghost use Rattle.xmi_text.specs.Names as names;
ghost use Rattle.xmi_text.specs.Spellings as spellings;

/// What the characters of a text so far are.
#[derive(Clone, Copy)]
enum Spelling {
    /// None came yet.
    Nothing,
    /// A name, with its `:` or without.
    Name(bool),
    /// No name begins with them.
    NoName,
}

/// Whether a character is storable (XML 1.0, Char).
pub(crate) fn is_storable_character(c: char) -> bool
    ensures { result ≡ stored c }
{
    matches!(c, '\t' | '\n' | '\r') || (c >= ' ' && c != '\u{fffe}' && c != '\u{ffff}')
}

/// Whether a character from U+0080 on is storable.
fn is_far(c: char) -> bool
    ensures { result ≡ names.is_far c }
{
    c >= '\u{80}' && is_storable_character(c)
}

/// Whether an ASCII character begins a name.
fn begins(c: char) -> bool
    ensures { result ≡ class.begins_name c }
{
    matches!(c, 'A'..='Z' | 'a'..='z' | '_')
}

/// Whether an ASCII character other than `:` goes on with a name.
fn continues(c: char) -> bool
    ensures { result ≡ class.continues_name c }
{
    begins(c) || matches!(c, '0'..='9' | '-' | '.')
}

/// What characters are with one more.
fn longer(spelling: Spelling, c: char) -> Spelling
    ensures { result ≡ spellings.longer spelling c }
{
    match spelling {
        Spelling::Nothing => first(c),
        Spelling::Name(colon) => another(colon, c),
        Spelling::NoName => Spelling::NoName,
    }
}

/// What one character is.
fn first(c: char) -> Spelling
    ensures { result ≡ spellings.first c }
{
    if begins(c) || is_far(c) {
        Spelling::Name(false)
    } else {
        Spelling::NoName
    }
}

/// What a name is with one more character.
fn another(colon: bool, c: char) -> Spelling
    ensures { result ≡ spellings.another colon c }
{
    if c == ':' {
        if colon {
            Spelling::NoName
        } else {
            Spelling::Name(true)
        }
    } else if continues(c) || is_far(c) {
        Spelling::Name(colon)
    } else {
        Spelling::NoName
    }
}

/// Whether characters are a name.
fn is_spelled(spelling: Spelling) -> bool
    ensures { result ≡ spellings.is_spelled spelling }
{
    matches!(spelling, Spelling::Name(_))
}

/// Whether a text is the name of an element or an attribute (XML 1.0, 2.3): it begins with an ASCII letter, `_` or a
/// storable character from U+0080 on, and goes on with these, digits, `-`, `.` and at most one `:`.
pub fn is_name(text: &str) -> bool
    ensures { result ≡ names.is_name (chars text.now) }
{
    let mut spelling = Spelling::Nothing;
    for c in text.chars() {
        spelling = longer(spelling, c);
    }
    is_spelled(spelling)
}
