use mof_metamodel::{NoMemory, Seq, or_drop};
use std::alloc::Global;

/// The bytes of a text of a case, in which `\n` is a line feed.
pub fn meant(alloc: Global, text: &str) -> Result<Seq<u8>, NoMemory> {
    let mut bytes = Vec::new(alloc);
    for (i, line) in text.split("\\n").enumerate() {
        if i > 0 {
            or_drop!(bytes.push(b'\n'); bytes);
        }
        or_drop!(bytes.extend_from_slice(line.as_bytes()); bytes);
    }
    Ok(Seq::from_vec(bytes))
}

/// Bytes as a text of a case. A byte past ASCII is shown as the character of that number.
pub fn shown(alloc: Global, bytes: &[u8]) -> Result<String, NoMemory> {
    let mut text = String::new(alloc);
    for byte in bytes {
        match *byte {
            b'\n' => or_drop!(text.push_str("\\n"); text),
            byte => or_drop!(text.push(char::from(byte)); text),
        }
    }
    Ok(text)
}

/// A word, and what stands behind the space after it.
pub fn split_word(text: &str) -> (&str, &str) {
    match text.split_once(' ') {
        Some(parts) => parts,
        None => (text, ""),
    }
}

/// A number of a case. What is no number is 0.
pub fn number(word: &str) -> u64 {
    word.parse::<u64>().unwrap_or(0)
}
