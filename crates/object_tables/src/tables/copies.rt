ghost use Rattle.std.specs.Prelude.{◌≡◌, IfOk};

use crate::tables::{Entry, Named, Tables};
use mof_metamodel::{NoMemory, or_drop};
use std::alloc::Global;

impl Tables {
    /// A copy of the tables. In time linear in what they hold.
    pub(crate) fn duplicate(&self, alloc: Global) -> Result<Tables, NoMemory>
        ensures { IfOk result (λ copy. copy ≡ self.now) }
    {
        let entries = copy_entries(alloc, &self.entries)?;
        let values = or_drop!(self.values.duplicate(alloc); entries);
        let index = or_drop!(Vec::from_slice(alloc, self.index.as_slice()); values, entries);
        let homes = or_drop!(Vec::from_slice(alloc, self.homes.as_slice()); index, values, entries);
        let arena = or_drop!(self.arena.duplicate(alloc); homes, index, values, entries);
        let marks = Vec::from_slice(alloc, self.marks.as_slice());
        let marks = or_drop!(marks; arena, homes, index, values, entries);
        let order = Vec::with_capacity(alloc, self.entries.len());
        let order = or_drop!(order; marks, arena, homes, index, values, entries);
        Ok(Tables {
            entries,
            values,
            index,
            homes,
            arena,
            marks,
            order,
            alloc,
        })
    }
}

/// A copy of what an object is.
fn copy_named(alloc: Global, named: &Named) -> Result<Named, NoMemory>
    ensures { IfOk result (λ copy. copy ≡ named.now) }
{
    let id = named.id.duplicate(alloc)?;
    Ok(Named {
        class: named.class,
        id,
    })
}

/// A copy of an object's part of the table of places.
fn copy_entry(alloc: Global, entry: &Entry) -> Result<Entry, NoMemory>
    ensures { IfOk result (λ copy. copy ≡ entry.now) }
{
    let named = match &entry.named {
        Some(named) => Some(copy_named(alloc, named)?),
        None => None,
    };
    Ok(Entry {
        named,
        first: entry.first,
        count: entry.count,
    })
}

/// Copies of the objects' parts of the table of places.
fn copy_entries(alloc: Global, entries: &[Entry]) -> Result<Vec<Entry>, NoMemory>
    ensures { IfOk result (λ copies. copies.items ≡ entries.now) }
{
    let mut copies = Vec::with_capacity(alloc, entries.len())?;
    for entry in entries {
        copies.push(copy_entry(alloc, entry)?)?;
    }
    Ok(copies)
}
