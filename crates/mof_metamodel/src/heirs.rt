//! For each class those that inherit from it, and where its properties stand among theirs.
ghost use Rattle.std.specs.Prelude.{◌≡◌, ◌<◌, length, IfOk, OnOk};
ghost use Rattle.mof_metamodel.specs.Metamodels.{class_count, lineage_of};
ghost use Rattle.mof_metamodel.specs.Tables.{table, starts_of, AddsEntries, AreHeirs};

use crate::entries::{Entry, no_entries};
use crate::memory::NoMemory;
use crate::named::Named;
use crate::seq::Seq;
use std::alloc::Global;

/// Adds a class to the lists of the classes of its order, each time with how many properties stand before theirs.
fn add_heir(
    heirs: &mut [Seq<Entry>],
    named: &Named,
    classes: &[u32],
    c: u32,
) -> Result<(), NoMemory>
    requires class { c < class_count named.now }
    requires classes { classes.now ≡ lineage_of named.now c }
    requires rows { length heirs.old ≡ class_count named.now }
    ensures { OnOk result (AddsEntries heirs.old heirs.new (lineage_of named.now c) (starts_of named.now (lineage_of named.now c)) (length (lineage_of named.now c)) c) }
{
    // No class order has more properties than there are, so the sum doesn't wrap.
    let _ = named.prop_count();
    let mut start = 0;
    for d in classes {
        let entry = Entry {
            class: c,
            value: start,
        };
        heirs[*d as usize].push(entry)?;
        start += named.class(*d).props.len() as u32;
    }
    Ok(())
}

/// For each class those that have it in their class orders, ascending, each with how many properties stand before its own.
pub(crate) fn all_heirs(
    alloc: Global,
    named: &Named,
    lineages: &[Seq<u32>],
) -> Result<Vec<Seq<Entry>>, NoMemory>
    requires { lineages.now ≡ table (lineage_of named.now) (class_count named.now) }
    ensures { IfOk result (λ heirs. AreHeirs named.now (class_count named.now) heirs.items) }
{
    let mut heirs = no_entries(alloc, named.class_count())?;
    for c in 0..named.class_count() {
        let classes = lineages[c as usize].as_slice();
        add_heir(heirs.as_mut_slice(), named, classes, c)?;
    }
    Ok(heirs)
}
