ghost use Rattle.std.specs.Prelude.{◌≡◌};
ghost use Rattle.xmi_text.specs.UtfEight as utf;

/// A character of several bytes, of which some have come (Unicode 15, table 3-7).
#[derive(Clone, Copy)]
pub(crate) struct Partial {
    /// The place of its first byte.
    pub lead: u64,
    /// The least and the greatest byte that may come next.
    pub low: u8,
    pub high: u8,
    pub rest: Rest,
}

/// How many bytes a character still has, with the bits that have come.
#[derive(Clone, Copy)]
pub(crate) enum Rest {
    Three(u8),
    Two(u16),
    One(u32),
}

/// What a further byte makes of a partial character.
#[derive(Clone, Copy)]
pub(crate) enum Growth {
    Broken,
    Partial(Partial),
    Whole(char),
}

/// The partial character that begins with a byte.
pub(crate) fn begun(lead: u64, byte: u8) -> Option<Partial>
    ensures { result ≡ utf.begun lead byte }
{
    let (low, high, rest) = match byte {
        0xc2..=0xdf => (0x80, 0xbf, Rest::One(u32::from(byte % 32))),
        0xe0 => (0xa0, 0xbf, Rest::Two(0)),
        0xed => (0x80, 0x9f, Rest::Two(13)),
        0xe1..=0xef => (0x80, 0xbf, Rest::Two(u16::from(byte % 16))),
        0xf0 => (0x90, 0xbf, Rest::Three(0)),
        0xf1..=0xf3 => (0x80, 0xbf, Rest::Three(byte % 8)),
        0xf4 => (0x80, 0x8f, Rest::Three(4)),
        _ => return None,
    };
    Some(Partial {
        lead,
        low,
        high,
        rest,
    })
}

/// The character of a number, if there is one.
pub(crate) fn scalar(value: u32) -> Option<char>
    ensures { result ≡ utf.scalar value }
{
    char::from_u32(value)
}

/// The character of the bits that have come and of those of its last byte.
fn whole(bits: u32, byte: u8) -> Growth
    ensures { result ≡ utf.whole bits byte }
{
    if bits > 0x4fff {
        return Growth::Broken;
    }
    match scalar(bits * 64 + u32::from(byte % 64)) {
        Some(c) => Growth::Whole(c),
        None => Growth::Broken,
    }
}

/// A partial character with one more byte.
pub(crate) fn extended(partial: Partial, byte: u8) -> Growth
    ensures { result ≡ utf.extended partial byte }
{
    if byte < partial.low || byte > partial.high {
        return Growth::Broken;
    }
    let rest = match partial.rest {
        Rest::Three(bits) => Rest::Two(u16::from(bits) * 64 + u16::from(byte % 64)),
        Rest::Two(bits) => Rest::One(u32::from(bits) * 64 + u32::from(byte % 64)),
        Rest::One(bits) => return whole(bits, byte),
    };
    Growth::Partial(Partial {
        lead: partial.lead,
        low: 0x80,
        high: 0xbf,
        rest,
    })
}
