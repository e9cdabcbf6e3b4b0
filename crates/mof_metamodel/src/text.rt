ghost use Rattle.std.specs.Prelude.{◌≡◌, [], ◌∷◌, ◌++◌, length, ◌↔◌, IsTrue, IfOk, OnOk, OnErr, chars, encode_utf8_all, string_bytes};

use crate::memory::NoMemory;
use std::alloc::Global;
use std::cmp::Ordering;
use std::hash::{Hash, Hasher};
use std::marker::Model;

/// A text. Contracts see it as the list of its characters.
#[derive(Debug, Drop)]
pub struct Text {
    inner: String,
}

impl Model for Text {
    ghost use Rattle.std.specs.Prelude.{ℕ, List, chars, string_bytes};

    ghost Value = { List ℕ };

    ghost view = { λ t. chars (string_bytes t.inner) };
}

impl Text {
    /// A copy of a text.
    pub fn new(alloc: Global, s: &str) -> Result<Text, NoMemory>
        ensures characters { IfOk result (λ t. t ≡ chars s.now) }
        ensures bytes { IfOk result (λ t. encode_utf8_all t ≡ s.now) }
    {
        let inner = String::from_str(alloc, s)?;
        Ok(Text { inner })
    }

    /// Moves the characters of a string.
    pub fn from_string(s: String) -> Text
        ensures characters { result ≡ chars (string_bytes s) }
        ensures bytes { encode_utf8_all result ≡ string_bytes s }
    {
        Text { inner: s }
    }

    /// Moves the characters to a string.
    pub fn into_string(self) -> String
        ensures characters { chars (string_bytes result) ≡ self }
        ensures bytes { string_bytes result ≡ encode_utf8_all self }
    {
        let Text { inner } = self;
        inner
    }

    /// The characters, in UTF-8.
    pub fn as_str(&self) -> &str
        ensures characters { chars result.now ≡ self.now }
        ensures bytes { result.now ≡ encode_utf8_all self.now }
    {
        self.inner.as_str()
    }

    /// Whether there is no character.
    pub fn is_empty(&self) -> bool
        ensures { IsTrue result ↔ (self.now ≡ []) }
    {
        self.as_str().is_empty()
    }

    /// Whether the characters are those of `s`.
    pub fn is(&self, s: &str) -> bool
        ensures { IsTrue result ↔ (self.now ≡ chars s.now) }
    {
        self.inner.as_str() == s
    }

    /// Another text of the same characters.
    pub fn duplicate(&self, alloc: Global) -> Result<Text, NoMemory>
        ensures { IfOk result (λ t. t ≡ self.now) }
    {
        Text::new(alloc, self.inner.as_str())
    }

    /// Puts a character at the end. After `NoMemory` the text is as it was.
    pub fn push(&mut self, c: char) -> Result<(), NoMemory>
        ensures ok { OnOk result (self.new ≡ self.old ++ c ∷ []) }
        ensures err { OnErr result (self.new ≡ self.old) }
    {
        self.inner.push(c)?;
        Ok(())
    }

    /// Puts the characters of `s` at the end. After `NoMemory` the text is as it was.
    pub fn push_str(&mut self, s: &str) -> Result<(), NoMemory>
        ensures ok { OnOk result (self.new ≡ self.old ++ chars s.now) }
        ensures err { OnErr result (self.new ≡ self.old) }
    {
        self.inner.push_str(s)?;
        Ok(())
    }
}

impl PartialEq for Text {
    ghost use Rattle.std.specs.Prelude.{nat_eq};
    ghost use Rattle.std.specs.Cmp.{partial_equiv_from_equiv};
    ghost use Rattle.std.specs.Cmp.Lexicographic.{pointwise, nat_list_eq_equiv};

    ghost eq = { λ x y. pointwise nat_eq x y };

    ghost laws = { partial_equiv_from_equiv nat_list_eq_equiv };

    fn eq(&self, other: &Self) -> bool {
        self.as_str() == other.as_str()
    }
}

impl Eq for Text {
    ghost use Rattle.std.specs.Cmp.Lexicographic.{nat_list_eq_equiv};

    ghost laws = { nat_list_eq_equiv };
}

/// Texts are in the order of their bytes in UTF-8.
impl PartialOrd for Text {
    ghost use Rattle.std.specs.Prelude.{Some};
    ghost use Rattle.std.specs.Cmp.{po};
    ghost use Rattle.mof_metamodel.specs.Characters.{text_cmp};
    ghost use Rattle.mof_metamodel.specs.TextLaws.{texts_total, text_ties};

    ghost partial_cmp = { λ x y. Some (text_cmp x y) };

    ghost laws = { po texts_total text_ties };

    fn partial_cmp(&self, other: &Self) -> Option<Ordering> {
        Some(self.cmp(other))
    }
}

impl Ord for Text {
    ghost use Rattle.std.proofs.Common.{refl};
    ghost use Rattle.mof_metamodel.specs.Characters.{text_cmp};
    ghost use Rattle.mof_metamodel.specs.TextLaws.{texts_total, text_ties};

    ghost cmp = { text_cmp };

    ghost total = { texts_total };

    ghost matches_partial_cmp = { λ x y. refl };

    ghost matches_eq = { text_ties };

    fn cmp(&self, other: &Self) -> Ordering {
        self.as_str().cmp(other.as_str())
    }
}

impl Hash for Text {
    ghost use Rattle.std.specs.Prelude.{encode_utf8_all};
    ghost use Rattle.std.specs.Hash as fed;
    ghost use Rattle.mof_metamodel.specs.TextLaws.{hashed_alike};

    ghost hash_input = { λ t. fed.str (encode_utf8_all t) };

    ghost respects_eq = { hashed_alike };

    fn hash<H: Hasher>(&self, state: &mut H) {
        self.as_str().hash(state);
    }
}
