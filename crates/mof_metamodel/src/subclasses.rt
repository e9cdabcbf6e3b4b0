//! The superclasses of a description turned round: for each class those that write it as a superclass.
ghost use Rattle.std.specs.Prelude.{◌≡◌, ◌<◌, [], length, replicate, All, IfOk, OnOk};
ghost use Rattle.mof_metamodel.specs.Metamodels.{class_count};
ghost use Rattle.mof_metamodel.specs.Tables.{class_numbers, AddsUnder, AreSubclasses};

use crate::desc::ClassId;
use crate::hierarchy::Hierarchy;
use crate::memory::NoMemory;
use crate::seq::Seq;
use std::alloc::Global;

/// An empty list for each class.
fn no_subclasses(alloc: Global, count: u32) -> Result<Vec<Seq<u32>>, NoMemory>
    ensures { IfOk result (λ lists. lists.items ≡ replicate count []) }
{
    let mut lists = Vec::new(alloc);
    for _c in 0..count {
        lists.push(Seq::new(alloc))?;
    }
    Ok(lists)
}

/// Adds a class to the lists of its superclasses.
fn add_under(lists: &mut [Seq<u32>], supers: &[ClassId], c: u32) -> Result<(), NoMemory>
    requires { All (λ s. s.0 < length lists.old) supers.now }
    ensures { OnOk result (AddsUnder lists.old lists.new (class_numbers supers.now) (length supers.now) c) }
{
    for s in supers {
        lists[s.0 as usize].push(c)?;
    }
    Ok(())
}

/// For each class those that write it as a superclass.
pub(crate) fn all_subclasses(
    alloc: Global,
    hierarchy: &Hierarchy,
) -> Result<Vec<Seq<u32>>, NoMemory>
    ensures { IfOk result (λ lists. AreSubclasses hierarchy.now (class_count hierarchy.now) lists.items) }
{
    let count = hierarchy.named().class_count();
    let mut lists = no_subclasses(alloc, count)?;
    for c in 0..count {
        add_under(lists.as_mut_slice(), hierarchy.supers(c), c)?;
    }
    Ok(lists)
}
