//! The classes that are ready: each of their superclasses has a class order.
//!
//! Of each class it is kept how many of its superclasses in a row have orders. The class is looked at again once the order of
//! one of its superclasses is found, from the first one on that had none. So each written superclass is passed once.
ghost use Rattle.std.specs.Prelude.{◌≡◌, ◌<◌, ℕ, length, slice_index_or, All, OnOk, None};
ghost use Rattle.mof_metamodel.specs.Metamodels.{class_count};
ghost use Rattle.mof_metamodel.specs.Tables.{class_numbers, line_at, AreBelow, HaveLines, IsQueue, IsSettled, Begins};

use crate::desc::ClassId;
use crate::hierarchy::Hierarchy;
use crate::lineages::Line;
use crate::memory::NoMemory;
use crate::reached::meet_one;
use crate::seq::Seq;

/// How many superclasses in a row have orders, where so many are known to have them.
fn found_first(orders: &[Line], supers: &[ClassId], known: usize) -> usize
    requires within { All (λ c. c.0 < length orders.now) supers.now }
    requires known { HaveLines orders.now (class_numbers supers.now) known }
    ensures found { HaveLines orders.now (class_numbers supers.now) result }
    ensures missing { result < length supers.now → line_at orders.now (slice_index_or (class_numbers supers.now) result 0) ≡ None }
{
    let mut next = known;
    while next < supers.len() {
        if orders[supers[next].0 as usize].is_none() {
            return next;
        }
        next += 1;
    }
    next
}

/// Looks how many superclasses of a class have orders by now. Where all have, the class is ready.
fn advance(
    hierarchy: &Hierarchy,
    orders: &[Line],
    known: &mut [usize],
    ready: &mut Seq<u32>,
    marks: &mut [bool],
    c: u32,
) -> Result<(), NoMemory>
    requires class { c < class_count hierarchy.now }
    requires queue { IsQueue hierarchy.now orders.now known.old ready.old marks.old }
    ensures queue { OnOk result (IsQueue hierarchy.now orders.now known.new ready.new marks.new) }
    ensures grown { OnOk result (Begins ready.old ready.new) }
    ensures settled { OnOk result (IsSettled hierarchy.now orders.now ready.new c) }
{
    let supers = hierarchy.supers(c);
    let found = found_first(orders, supers, known[c as usize]);
    known[c as usize] = found;
    if found < supers.len() {
        return Ok(());
    }
    meet_one(ready, marks, c)
}

/// The same of several classes.
pub(crate) fn advance_all(
    hierarchy: &Hierarchy,
    orders: &[Line],
    known: &mut [usize],
    ready: &mut Seq<u32>,
    marks: &mut [bool],
    classes: &[u32],
) -> Result<(), NoMemory>
    requires classes { AreBelow (class_count hierarchy.now) classes.now }
    requires queue { IsQueue hierarchy.now orders.now known.old ready.old marks.old }
    ensures queue { OnOk result (IsQueue hierarchy.now orders.now known.new ready.new marks.new) }
    ensures grown { OnOk result (Begins ready.old ready.new) }
    ensures settled { OnOk result ((i : ℕ) → i < length classes.now → IsSettled hierarchy.now orders.now ready.new (slice_index_or classes.now i 0)) }
{
    for c in classes {
        advance(hierarchy, orders, known, ready, marks, *c)?;
    }
    Ok(())
}

/// The same of each class.
pub(crate) fn advance_each(
    hierarchy: &Hierarchy,
    orders: &[Line],
    known: &mut [usize],
    ready: &mut Seq<u32>,
    marks: &mut [bool],
) -> Result<(), NoMemory>
    requires { IsQueue hierarchy.now orders.now known.old ready.old marks.old }
    ensures queue { OnOk result (IsQueue hierarchy.now orders.now known.new ready.new marks.new) }
    ensures settled { OnOk result ((c : ℕ) → c < class_count hierarchy.now → IsSettled hierarchy.now orders.now ready.new c) }
{
    for c in 0..hierarchy.named().class_count() {
        advance(hierarchy, orders, known, ready, marks, c)?;
    }
    Ok(())
}
