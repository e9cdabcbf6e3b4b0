ghost use Rattle.std.specs.Prelude.{◌≡◌, [], ◌∷◌, ◌++◌, OnOk, OnErr};
ghost use Rattle.xmi_text.specs.AttrNames.{has_name, emptied};

use crate::mark::Attr;
use mof_metamodel::{NoMemory, Seq, Text};
use std::alloc::Global;
use std::collections::BTreeSet;
use std::marker::Model;
use std::mem;

/// The attributes of a start tag in their order, with their names in an ordered set, so that a look-up takes
/// logarithmic time whatever names a stranger chooses. Contracts see the attributes.
#[derive(Drop)]
pub(crate) struct Attributes {
    items: Vec<Attr>,
    names: BTreeSet<Text>,
}

impl Model for Attributes {
    ghost use Rattle.std.specs.Prelude.{List, ℕ, ◌≡◌};
    ghost use Rattle.xmi_text.specs.declared.mark.Attr.{Attr};
    ghost use Rattle.std.specs.BTreeSet.{contains};
    ghost use Rattle.mof_metamodel.specs.Characters.{text_cmp};
    ghost use Rattle.xmi_text.specs.AttrNames.{has_name};

    ghost Value = { List Attr };

    ghost view = { λ a. a.items.items };

    ghost invariant = { λ a. (q : List ℕ) → contains text_cmp a.names q ≡ has_name a.items.items q };
}

/// A text without a character.
pub(crate) fn empty_text(alloc: Global) -> Text
    ensures { result ≡ [] }
{
    Text::from_string(String::new(alloc))
}

impl Attributes {
    /// No attribute.
    pub(crate) fn new(alloc: Global) -> Attributes
        ensures { result ≡ [] }
    {
        Attributes {
            items: Vec::new(alloc),
            names: BTreeSet::new(alloc),
        }
    }

    /// Whether one of the attributes has a name.
    pub(crate) fn has(&self, name: &Text) -> bool
        ensures { result ≡ has_name self.now name.now }
    {
        self.names.contains(name)
    }

    /// Moves an attribute to the end, and leaves an empty one. After `NoMemory` both are as they were.
    pub(crate) fn take_in(&mut self, alloc: Global, attr: &mut Attr) -> Result<(), NoMemory>
        ensures ok { OnOk result (self.new ≡ self.old ++ attr.old ∷ []) }
        ensures emptied { OnOk result (attr.new ≡ emptied attr.old) }
        ensures err { OnErr result (self.new ≡ self.old) }
        ensures kept { OnErr result (attr.new ≡ attr.old) }
    {
        let name = attr.name.duplicate(alloc)?;
        let empty = Attr {
            name: empty_text(alloc),
            value: empty_text(alloc),
            at: attr.at,
        };
        let whole = mem::replace(attr, empty);
        match self.items.push(whole) {
            Ok(()) => {}
            Err(failed) => {
                *attr = failed.value;
                return Err(NoMemory);
            }
        }
        match self.names.insert(name) {
            Ok(_) => Ok(()),
            Err(_) => match self.items.pop() {
                Some(last) => {
                    *attr = last;
                    Err(NoMemory)
                }
                None => Err(NoMemory),
            },
        }
    }

    /// Moves the attributes out.
    pub(crate) fn into_items(self) -> Seq<Attr>
        ensures { result ≡ self }
    {
        let Attributes { items, names } = self;
        drop(names);
        Seq::from_vec(items)
    }
}
