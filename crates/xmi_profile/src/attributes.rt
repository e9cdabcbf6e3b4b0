ghost use Rattle.std.specs.Prelude.{◌≡◌, List, map, length, chars, option_copied, option_map, IsTrue, is_some};
ghost use Rattle.xmi_text.specs.Trees.{pair_of};
ghost use Rattle.model_assembly.specs.Attributes as names;
ghost use Rattle.xmi_profile.specs.Scanning.{is_own, number_from, number_where, pairs_of};

use crate::names::{Own, is_named, is_own};
use mof_metamodel::{Seq, Text};
use std::marker::Model;
use xmi_text::Attr;

/// The attributes of a start tag in their order. Contracts see their names and values.
#[derive(Drop)]
pub(crate) struct Attributes {
    items: Seq<Attr>,
}

impl Model for Attributes {
    ghost use Rattle.std.specs.Prelude.{ℕ, List};
    ghost use Rattle.xmi_profile.specs.Scanning.{pairs_of};

    ghost Value = { List (List ℕ × List ℕ) };

    ghost view = { λ a. pairs_of a.items };
}

impl Attributes {
    /// These attributes.
    pub(crate) fn new(items: Seq<Attr>) -> Attributes
        ensures { result ≡ pairs_of items }
    {
        Attributes { items }
    }

    /// How many there are.
    pub(crate) fn len(&self) -> usize
        ensures { result ≡ length self.now }
    {
        self.items.len()
    }

    /// The attributes in their order.
    pub(crate) fn as_slice(&self) -> &[Attr]
        ensures { pairs_of result.now ≡ self.now }
    {
        self.items.as_slice()
    }

    /// The number, from 0, of the first one of this name.
    pub(crate) fn number(&self, own: Own) -> Option<usize>
        ensures { result ≡ number_where (is_own own) self.now }
    {
        first_number(self.items.as_slice(), own)
    }

    /// The value of the first one of this name.
    pub(crate) fn value(&self, own: Own) -> Option<&Text>
        ensures { option_copied result ≡ names.value_where (is_own own) self.now }
    {
        first_value(self.items.as_slice(), own)
    }

    /// Whether only the text `true` says that there is no value (XML Schema 1.0 part 1, 2.6.2).
    #[tactic(auto, using(crate::proofs::Literals::truth))]
    pub(crate) fn is_nil(&self) -> bool
        ensures { result ≡ names.is_nil self.now }
    {
        match self.value(Own::Nil) {
            Some(text) => is_named(text.as_str(), "true"),
            None => false,
        }
    }
}

/// The value of the first attribute of this name.
fn first_value(attrs: &[Attr], own: Own) -> Option<&Text>
    ensures { option_copied result ≡ names.value_where (is_own own) (pairs_of attrs.now) }
{
    for attr in attrs {
        if is_own(own, attr.name.as_str()) {
            return Some(&attr.value);
        }
    }
    None
}

/// The number of the first attribute of this name.
fn first_number(attrs: &[Attr], own: Own) -> Option<usize>
    ensures { result ≡ number_from (is_own own) 0 (pairs_of attrs.now) }
{
    for (number, attr) in attrs.iter().enumerate() {
        if is_own(own, attr.name.as_str()) {
            return Some(number);
        }
    }
    None
}
