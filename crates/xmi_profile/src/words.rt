ghost use Rattle.std.specs.Prelude.{◌≡◌, ◌++◌, ◌∷◌, [], chars, IfOk, OnOk};
ghost use Rattle.std.specs.List.{fold};
ghost use Rattle.model_assembly.specs.References as references;
ghost use Rattle.xmi_profile.specs.WordList as lists;

use model_assembly::empty_text;
use mof_metamodel::{NoMemory, Seq, Text, is_blank_character};
use std::alloc::Global;
use std::marker::Model;
use std::mem;

/// The words of a text that are done, and the one that goes on.
#[derive(Drop)]
struct Words {
    done: Seq<Text>,
    word: Text,
}

impl Model for Words {
    ghost use Rattle.xmi_profile.specs.WordList as lists;

    ghost Value = { lists.Words };

    ghost view = { λ w. (w.done, w.word) };
}

impl Words {
    fn new(alloc: Global) -> Words
        ensures { result ≡ ([], []) }
    {
        Words {
            done: Seq::new(alloc),
            word: empty_text(alloc),
        }
    }

    /// Ends the word, if it has a character.
    fn end(&mut self, alloc: Global) -> Result<(), NoMemory>
        ensures { OnOk result (self.new ≡ lists.ended self.old) }
    {
        if self.word.is_empty() {
            return Ok(());
        }
        let word = mem::replace(&mut self.word, empty_text(alloc));
        self.done.push(word)
    }

    fn push(&mut self, c: char) -> Result<(), NoMemory>
        ensures { OnOk result (self.new ≡ (self.old.0, self.old.1 ++ c ∷ [])) }
    {
        self.word.push(c)
    }

    fn take(&mut self, alloc: Global, c: char) -> Result<(), NoMemory>
        ensures { OnOk result (self.new ≡ lists.words_on self.old c) }
    {
        if is_blank_character(c) {
            self.end(alloc)
        } else {
            self.push(c)
        }
    }
}

fn take_all(alloc: Global, words: &mut Words, text: &str) -> Result<(), NoMemory>
    ensures { OnOk result (words.new ≡ fold lists.words_on words.old (chars text.now)) }
{
    for c in text.chars() {
        words.take(alloc, c)?;
    }
    Ok(())
}

/// The words of a text.
#[tactic(auto, using(crate::proofs::filed_laws::WordLaws::words_folded))]
pub(crate) fn words_of(alloc: Global, text: &str) -> Result<Seq<Text>, NoMemory>
    ensures { IfOk result (λ ws. ws ≡ references.words (chars text.now)) }
{
    let mut words = Words::new(alloc);
    take_all(alloc, &mut words, text)?;
    words.end(alloc)?;
    Ok(words.done)
}
