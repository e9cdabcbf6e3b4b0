ghost use Rattle.std.specs.Prelude.{◌≡◌, ◌<◌, [], length, is_some, false, OnOk, OnErr, IfSome, chars};
ghost use Rattle.std.specs.Option.{option_map};

use crate::memory::NoMemory;
use crate::name_index::NameIndex;
use crate::text::Text;
use std::alloc::Global;
use std::marker::Model;

/// Names with what they stand for, in the order in which they came. Contracts see it as that list.
///
/// A name is kept once. Adding one and finding one take the logarithm of their number, whatever the names are.
#[derive(Drop)]
pub struct NameTable<V> {
    names: NameIndex,
    values: Vec<V>,
}

impl<V> Model for NameTable<V> {
    ghost use Rattle.std.specs.Prelude.{◌≡◌, ℕ, List, length};
    ghost use Rattle.std.specs.List.{zip};

    ghost Value = { List (List ℕ × V) };

    ghost view = { λ t. zip t.names t.values.items };

    ghost invariant = { λ t. length t.values.items ≡ length t.names };
}

impl<V> NameTable<V> {
    ghost use Rattle.mof_metamodel.specs.NameTables.{number_of, value_of};

    /// No names.
    pub fn new(alloc: Global) -> NameTable<V>
        ensures { result ≡ [] }
    {
        NameTable {
            names: NameIndex::new(alloc),
            values: Vec::new(alloc),
        }
    }

    /// How many names there are.
    pub fn len(&self) -> usize
        ensures { result ≡ length self.now }
    {
        self.values.as_slice().len()
    }

    /// Whether a name is there.
    pub fn contains(&self, name: &Text) -> bool
        ensures { result ≡ is_some (value_of self.now name.now) }
    {
        self.names.place(name.as_str()).is_some()
    }

    /// What a name stands for.
    pub fn get(&self, name: &str) -> Option<&V>
        ensures { option_map (λ v. v.now) result ≡ value_of self.now (chars name.now) }
    {
        match self.names.place(name) {
            Some(place) => Some(&self.values[place]),
            None => None,
        }
    }

    /// Where a name stands among the names, from 0, and what it stands for.
    pub fn find(&self, name: &Text) -> Option<(usize, &V)>
        ensures number { option_map (λ p. p.0) result ≡ number_of self.now name.now }
        ensures value { option_map (λ p. p.1.now) result ≡ value_of self.now name.now }
        ensures within { IfSome result (λ p. p.0 < length self.now) }
    {
        match self.names.place(name.as_str()) {
            Some(place) => Some((place, &self.values[place])),
            None => None,
        }
    }
}

impl<V: Drop> NameTable<V> {
    ghost use Rattle.mof_metamodel.specs.NameTables.{value_of, with_value};

    /// Adds a name behind the others. After `NoMemory` the names are as they were.
    pub fn put(&mut self, name: Text, value: V) -> Result<(), NoMemory>
        requires { is_some (value_of self.old name) ≡ false }
        ensures ok { OnOk result (self.new ≡ with_value self.old name value) }
        ensures err { OnErr result (self.new ≡ self.old) }
    {
        self.values.push(value)?;
        match self.names.add(name) {
            Ok(()) => Ok(()),
            Err(error) => {
                let _ = self.values.pop();
                Err(error)
            }
        }
    }
}

impl NameTable<u32> {
    ghost use Rattle.mof_metamodel.specs.Tables.{number_in, with_name};

    /// The number of a name.
    pub(crate) fn number(&self, name: &str) -> Option<u32>
        ensures { result ≡ number_in self.now (chars name.now) }
    {
        self.get(name).copied()
    }

    /// Adds a name with its number, unless the name is there.
    pub(crate) fn add(&mut self, alloc: Global, name: &Text, number: u32) -> Result<(), NoMemory>
        ensures { OnOk result (self.new ≡ with_name self.old name.now number) }
    {
        if self.contains(name) {
            return Ok(());
        }
        self.put(name.duplicate(alloc)?, number)
    }
}
