ghost use Rattle.std.specs.Prelude.{◌≡◌};
ghost use Rattle.xmi_text.specs.ByteClass as class;

/// Whether a byte is a space, a tab, a line feed or a carriage return (XML 1.0, S).
pub(crate) fn is_blank(byte: u8) -> bool
    ensures { result ≡ class.is_blank byte }
{
    matches!(byte, b' ' | b'\t' | b'\n' | b'\r')
}

/// Whether a byte is a storable ASCII character (XML 1.0, Char).
pub(crate) fn is_storable_byte(byte: u8) -> bool
    ensures { result ≡ class.is_storable_byte byte }
{
    matches!(byte, b'\t' | b'\n' | b'\r' | b' '..=127)
}

/// Whether an ASCII byte begins a name.
pub(crate) fn begins_name(byte: u8) -> bool
    ensures { result ≡ class.begins_name byte }
{
    matches!(byte, b'A'..=b'Z' | b'a'..=b'z' | b'_')
}

/// Whether an ASCII byte other than `:` goes on with a name.
pub(crate) fn continues_name(byte: u8) -> bool
    ensures { result ≡ class.continues_name byte }
{
    begins_name(byte) || matches!(byte, b'0'..=b'9' | b'-' | b'.')
}

/// Whether a name may hold a byte, be it as a part of a character.
pub(crate) fn holds_in_name(byte: u8) -> bool
    ensures { result ≡ class.holds_in_name byte }
{
    continues_name(byte) || byte == b':' || matches!(byte, 0x80..=0xbf | 0xc2..=0xf4)
}
