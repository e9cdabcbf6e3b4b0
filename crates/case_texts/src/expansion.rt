ghost use Rattle.std.specs.Prelude.{◌<◌};

use mof_metamodel::NoMemory;
use std::alloc::Global;

/// The bytes that the text of a case stands for: `%0a` is a byte by its two hexadecimal digits, and `%[3 ab^ ]` is
/// `ab0 ab1 ab2 `.
pub fn expanded(alloc: Global, text: &str) -> Result<Vec<u8>, NoMemory> {
    let mut bytes = Vec::new(alloc);
    let mut is_marked = false;
    for part in text.split('%') {
        if is_marked {
            push_marked(alloc, &mut bytes, part)?;
        } else {
            push(&mut bytes, part.as_bytes())?;
        }
        is_marked = true;
    }
    Ok(bytes)
}

fn push(bytes: &mut Vec<u8>, more: &[u8]) -> Result<(), NoMemory> {
    bytes.extend_from_slice(more)?;
    Ok(())
}

/// Pushes a part that stands behind a `%`.
fn push_marked(alloc: Global, bytes: &mut Vec<u8>, part: &str) -> Result<(), NoMemory> {
    let repeated = part.strip_prefix('[').and_then(|rest| rest.split_once(']'));
    match repeated {
        Some((inside, behind)) => {
            let (count, piece) = inside.split_once(' ').unwrap_or(("", inside));
            push_times(alloc, bytes, count.parse().unwrap_or(0), piece)?;
            push(bytes, behind.as_bytes())
        }
        None => push_byte(bytes, part.as_bytes()),
    }
}

/// Pushes a piece so many times, each time with its number in place of its `^`.
fn push_times(alloc: Global, bytes: &mut Vec<u8>, count: u32, piece: &str) -> Result<(), NoMemory> {
    let (before, behind) = match piece.split_once('^') {
        Some(parts) => parts,
        None => return push_copies(bytes, count, piece.as_bytes()),
    };
    for number in 0..count {
        push(bytes, before.as_bytes())?;
        push(bytes, format!(in alloc; "{number}")?.as_bytes())?;
        push(bytes, behind.as_bytes())?;
    }
    Ok(())
}

fn push_copies(bytes: &mut Vec<u8>, count: u32, piece: &[u8]) -> Result<(), NoMemory> {
    for _ in 0..count {
        push(bytes, piece)?;
    }
    Ok(())
}

/// Pushes the byte whose two digits a part begins with, and what stands behind them.
fn push_byte(bytes: &mut Vec<u8>, part: &[u8]) -> Result<(), NoMemory> {
    match part {
        [high, low, behind @ ..] => {
            let byte = digit(*high) * 16 + digit(*low);
            bytes.push(byte)?;
            push(bytes, behind)
        }
        _ => push(bytes, part),
    }
}

/// The value of a hexadecimal digit.
fn digit(byte: u8) -> u8
    ensures { result < 16 }
{
    match byte {
        b'0'..=b'9' => byte - b'0',
        b'a'..=b'f' => byte - b'a' + 10,
        b'A'..=b'F' => byte - b'A' + 10,
        _ => 0,
    }
}
