ghost use Rattle.std.specs.Prelude.{◌≡◌, ◌∷◌, ◌++◌, map, IfOk, OnOk};
ghost use Rattle.fault_lines.specs.Lines as lines;

use mof_metamodel::{NoMemory, Seq};
use std::alloc::Global;

/// Puts a word behind a text and a space.
#[tactic(auto, using(crate::proofs::LineLaws::joined))]
fn push_word(text: &mut Vec<u8>, word: &[u8]) -> Result<(), NoMemory>
    ensures { OnOk result (text.new.items ≡ text.old.items ++ 32 ∷ word.now) }
{
    text.push(b' ')?;
    text.extend_from_slice(word)?;
    Ok(())
}

/// Puts words behind a text, each behind a space.
fn push_words(text: &mut Vec<u8>, words: &[&[u8]]) -> Result<(), NoMemory>
    ensures { OnOk result (text.new.items ≡ text.old.items ++ lines.behind (map (λ w. w.now) words.now)) }
{
    for word in words {
        push_word(text, word)?;
    }
    Ok(())
}

/// A line of words with one space between.
#[tactic(auto, using(crate::proofs::LineLaws::line_is))]
pub fn line(alloc: Global, first: &[u8], words: &[&[u8]]) -> Result<Seq<u8>, NoMemory>
    ensures { IfOk result (λ text. text ≡ lines.line (first.now ∷ map (λ w. w.now) words.now)) }
{
    let mut text = Vec::new(alloc);
    text.extend_from_slice(first)?;
    push_words(&mut text, words)?;
    text.push(b'\n')?;
    Ok(Seq::from_vec(text))
}
