ghost use Rattle.std.specs.Prelude.{◌≡◌, ◌<◌, ◌++◌, ◌∷◌, [], length, position, is_some, false, OnOk, OnErr, IfSome, chars};
ghost use Rattle.mof_metamodel.specs.Characters.{same_name};

use crate::memory::NoMemory;
use crate::text::Text;
use std::alloc::Global;
use std::collections::BTreeMap;
use std::marker::Model;

/// Names by their places. Contracts see them as the list of names in the order in which they came.
///
/// They are kept in the order of their bytes, so that no choice of names makes a look-up slow.
#[derive(Drop)]
pub(crate) struct NameIndex {
    places: BTreeMap<String, usize>,
}

impl Model for NameIndex {
    ghost use Rattle.std.specs.Prelude.{ℕ, List};
    ghost use Rattle.mof_metamodel.specs.NameTables.{names_in, IsIndex};

    ghost Value = { List (List ℕ) };

    ghost view = { λ t. names_in t.places.entries };

    ghost invariant = { λ t. IsIndex t.places.entries };
}

impl NameIndex {
    /// No names.
    pub(crate) fn new(alloc: Global) -> NameIndex
        ensures { result ≡ [] }
    {
        NameIndex {
            places: BTreeMap::new(alloc),
        }
    }

    /// Where a name stands, from 0.
    pub(crate) fn place(&self, name: &str) -> Option<usize>
        ensures number { result ≡ position (same_name (chars name.now)) self.now }
        ensures within { IfSome result (λ i. i < length self.now) }
    {
        self.places.get(name).copied()
    }

    /// Adds a name behind the others. After `NoMemory` the names are as they were.
    pub(crate) fn add(&mut self, name: Text) -> Result<(), NoMemory>
        requires { is_some (position (same_name name) self.old) ≡ false }
        ensures ok { OnOk result (self.new ≡ self.old ++ name ∷ []) }
        ensures err { OnErr result (self.new ≡ self.old) }
    {
        let place = self.places.len();
        self.places.insert(name.into_string(), place)?;
        Ok(())
    }
}
