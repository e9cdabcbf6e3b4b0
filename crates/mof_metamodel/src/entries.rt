//! Lists of what classes have, each beside the number of the class, by which it is found.
ghost use Rattle.std.specs.Prelude.{◌≡◌, ℕ, [], Contains, MatchOption, IfOk, replicate};
ghost use Rattle.mof_metamodel.specs.Tables.{entry, AreRising};

use crate::memory::NoMemory;
use crate::seq::Seq;
use std::alloc::Global;

/// A number that a class has.
#[derive(Clone, Copy)]
pub(crate) struct Entry {
    pub(crate) class: u32,
    pub(crate) value: u32,
}

/// So many lists without entries.
pub(crate) fn no_entries(alloc: Global, count: u32) -> Result<Vec<Seq<Entry>>, NoMemory>
    ensures { IfOk result (λ lists. lists.items ≡ replicate count []) }
{
    let mut lists = Vec::new(alloc);
    for _k in 0..count {
        lists.push(Seq::new(alloc))?;
    }
    Ok(lists)
}

/// What a class has, by binary search.
pub(crate) fn value_of(entries: &[Entry], class: u32) -> Option<u32>
    requires { AreRising entries.now }
    ensures { MatchOption result ((v : ℕ) → Contains entries.now (entry class v) → ⊥) (λ v. Contains entries.now (entry class v)) }
{
    match entries.binary_search_by_key(&class, |entry| entry.class) {
        Ok(place) => Some(entries[place].value),
        Err(_) => None,
    }
}
