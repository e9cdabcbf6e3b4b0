ghost use Rattle.std.specs.Prelude.{◌≡◌, ◌↔◌, IsTrue, IsSome, IfSome, IfOk};
ghost use Rattle.mof_metamodel.specs.Characters.{is_storable_text};

use mof_metamodel::{NoMemory, Text, is_storable};
use std::alloc::Global;
use std::marker::Model;

/// The text of a string literal, which holds storable characters only. Contracts see it as the list of its characters.
#[derive(Drop)]
pub struct Literal {
    text: Text,
}

impl Model for Literal {
    ghost use Rattle.std.specs.Prelude.{ℕ, List, IsTrue};
    ghost use Rattle.mof_metamodel.specs.Characters.{is_storable_text};

    ghost Value = { List ℕ };

    ghost view = { λ l. l.text };

    ghost invariant = { λ l. IsTrue (is_storable_text l.text) };
}

impl Literal {
    /// The literal of a text, if each of its characters is storable.
    pub fn new(text: Text) -> Option<Literal>
        ensures storable { IsSome result ↔ IsTrue (is_storable_text text) }
        ensures value { IfSome result (λ l. l ≡ text) }
    {
        if is_storable(text.as_str()) {
            Some(Literal { text })
        } else {
            None
        }
    }

    /// The text.
    pub fn text(&self) -> &Text
        ensures value { result.now ≡ self.now }
        ensures storable { IsTrue (is_storable_text self.now) }
    {
        &self.text
    }

    /// Another literal of the same text.
    pub fn duplicate(&self, alloc: Global) -> Result<Literal, NoMemory>
        ensures { IfOk result (λ l. l ≡ self.now) }
    {
        let text = self.text.duplicate(alloc)?;
        Ok(Literal { text })
    }
}
