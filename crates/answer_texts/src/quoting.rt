//! Strings as they are written in a script: between quotes, with escapes.
ghost use Rattle.std.specs.Prelude.{◌≡◌, ◌++◌, IfOk, OnOk};
ghost use Rattle.std.specs.List.{flat_map};
ghost use Rattle.answer_texts.specs.AnswerTexts as spec;

use mof_metamodel::{NoMemory, Text};
use std::alloc::Global;

/// The letter that stands for a character behind a `\`.
fn escape_letter(character: char) -> Option<char>
    ensures { result ≡ spec.escape_letter character }
{
    match character {
        '\\' => Some('\\'),
        '\'' => Some('\''),
        '\t' => Some('t'),
        '\n' => Some('n'),
        '\r' => Some('r'),
        _ => None,
    }
}

/// Puts a character behind a text, or its escape.
fn push_escaped(text: &mut Text, character: char) -> Result<(), NoMemory>
    ensures { OnOk result (text.new ≡ text.old ++ spec.escaped character) }
{
    match escape_letter(character) {
        Some(letter) => {
            text.push('\\')?;
            text.push(letter)
        }
        None => text.push(character),
    }
}

/// Puts characters behind a text, each or its escape.
fn push_all_escaped(written: &mut Text, text: &Text) -> Result<(), NoMemory>
    ensures { OnOk result (written.new ≡ written.old ++ flat_map spec.escaped text.now) }
{
    for character in text.as_str().chars() {
        push_escaped(written, character)?;
    }
    Ok(())
}

/// A string as it is written in a script.
#[tactic(auto, using(crate::proofs::TellingLaws::quote_characters))]
pub(crate) fn quoted(alloc: Global, text: &Text) -> Result<Text, NoMemory>
    ensures { IfOk result (λ written. written ≡ spec.quoted text.now) }
{
    let mut written = Text::new(alloc, "'")?;
    push_all_escaped(&mut written, text)?;
    written.push('\'')?;
    Ok(written)
}
