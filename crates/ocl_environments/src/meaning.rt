ghost use Rattle.std.specs.Prelude.{◌≡◌, ℕ, ◌<◌, List, length, IfSome, OnOk, if◌then◌else◌};
ghost use Rattle.mof_metamodel.specs.Characters.{same_name};
ghost use Rattle.ocl_environments.specs.Environments.{number_of};
ghost use Rattle.ocl_environments.specs.Finding.{next_found};
ghost use Rattle.ocl_environments.specs.Meanings.{no_meaning as nothing_meant, found_as, with_classifier, meaning_in, IsParallel};

use crate::classifier::{Classifier, Found, Wanted};
use mof_metamodel::{NameTable, NoMemory, Text};
use std::alloc::Global;

impl Found {
    /// What is found with one more.
    fn next(self, c: Classifier) -> Found
        ensures { result ≡ next_found self c }
    {
        match self {
            Found::Nothing => Found::One(c),
            Found::One(_) => Found::Several,
            Found::Several => Found::Several,
        }
    }
}

/// What a name means: where a type, a class or an enumeration is asked for.
#[derive(Clone, Copy)]
pub(crate) struct Meaning {
    types: Found,
    classes: Found,
    enums: Found,
}

impl Meaning {
    /// What a name means that stands nowhere.
    pub(crate) fn nothing() -> Meaning
        ensures { result ≡ nothing_meant }
    {
        Meaning {
            types: Found::Nothing,
            classes: Found::Nothing,
            enums: Found::Nothing,
        }
    }

    /// What a name means that is also that of this class or enumeration.
    fn with(self, c: Classifier) -> Meaning
        ensures { result ≡ with_classifier self c }
    {
        match c {
            Classifier::Class(_, _) => Meaning {
                types: self.types.next(c),
                classes: self.classes.next(c),
                enums: self.enums,
            },
            Classifier::Enum(_, _) => Meaning {
                types: self.types.next(c),
                classes: self.classes,
                enums: self.enums.next(c),
            },
        }
    }

    /// What is found of the kind that is asked for.
    pub(crate) fn found(self, wanted: Wanted) -> Found
        ensures { result ≡ found_as wanted self }
    {
        match wanted {
            Wanted::Types => self.types,
            Wanted::Classes => self.classes,
            Wanted::Enums => self.enums,
        }
    }
}

/// Names with what they mean, found by hashing.
#[derive(Drop)]
pub(crate) struct MeaningTable {
    names: NameTable<()>,
    meanings: Vec<Meaning>,
}

impl MeaningTable {
    /// No names.
    pub(crate) fn new(alloc: Global) -> MeaningTable
        ensures parallel { IsParallel result }
        ensures empty { (n : List ℕ) → meaning_in result n ≡ nothing_meant }
    {
        MeaningTable {
            names: NameTable::new(alloc),
            meanings: Vec::new(alloc),
        }
    }

    /// Where a name stands among the names.
    fn place(&self, name: &Text) -> Option<usize>
        ensures number { result ≡ number_of self.now.names name.now }
        ensures within { IfSome result (λ i. i < length self.now.names) }
    {
        match self.names.find(name) {
            Some((i, _)) => Some(i),
            None => None,
        }
    }

    /// What a name means.
    pub(crate) fn get(&self, name: &Text) -> Meaning
        requires { IsParallel self.now }
        ensures { result ≡ meaning_in self.now name.now }
    {
        match self.place(name) {
            Some(i) => self.meanings[i],
            None => Meaning::nothing(),
        }
    }

    /// Puts what a name means in the place of what it meant.
    fn put(&mut self, alloc: Global, name: &Text, meaning: Meaning) -> Result<(), NoMemory>
        requires { IsParallel self.old }
        ensures parallel { OnOk result (IsParallel self.new) }
        ensures put { OnOk result ((n : List ℕ) → meaning_in self.new n ≡ (if same_name n name.now then meaning else meaning_in self.old n)) }
    {
        match self.place(name) {
            Some(i) => self.meanings[i] = meaning,
            None => {
                let name = name.duplicate(alloc)?;
                self.names.put(name, ())?;
                self.meanings.push(meaning)?;
            }
        }
        Ok(())
    }

    /// Adds what a name is also that of.
    pub(crate) fn add(&mut self, alloc: Global, name: &Text, c: Classifier) -> Result<(), NoMemory>
        requires { IsParallel self.old }
        ensures parallel { OnOk result (IsParallel self.new) }
        ensures added { OnOk result ((n : List ℕ) → meaning_in self.new n ≡ (if same_name n name.now then with_classifier (meaning_in self.old name.now) c else meaning_in self.old n)) }
    {
        let meaning = self.get(name).with(c);
        self.put(alloc, name, meaning)
    }
}
