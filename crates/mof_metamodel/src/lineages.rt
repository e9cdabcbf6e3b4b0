//! The class orders of a description: for each class itself and the classes that it inherits from.
//!
//! The order of a class is found once those of its superclasses are there (`ready.rt`): it is made once, the order of a
//! superclass that stands in it already is passed over, and each other one is read once. What remains without an order
//! reaches a circle of superclasses.
ghost use Rattle.std.specs.Prelude.{◌≡◌, ◌<◌, [], length, map, nat_eq, All, IfOk, OnOk, IsTrue, None};
ghost use Rattle.std.specs.Option.{is_some, option_map};
ghost use Rattle.std.specs.List.{list_any, list_all};
ghost use Rattle.mof_metamodel.specs.Metamodels.{class_count, with_item, united, all_united, lineage_of, reached_classes as reached_by_number};
ghost use Rattle.mof_metamodel.specs.Tables.{class_numbers, line_at, AreLines, table, new_line, lineage_in, AreBelow, AreAmong, AreMarks, AreClosed, AreSubclasses, IsQueue, IsFinding};

use crate::desc::ClassId;
use crate::hierarchy::Hierarchy;
use crate::memory::NoMemory;
use crate::or_drop;
use crate::reached::{marked, meet_one, reached};
use crate::ready::{advance_all, advance_each};
use crate::seq::Seq;
use crate::subclasses::all_subclasses;
use std::alloc::Global;

/// The order of a class, where it was found.
pub(crate) type Line = Option<Seq<u32>>;

/// Adds the classes of an order, each at its first place. The classes that are there are marked.
fn join(joint: &mut Seq<u32>, marks: &mut [bool], order: &[u32]) -> Result<(), NoMemory>
    requires within { AreBelow (length marks.old) order.now }
    requires marks { AreMarks marks.old joint.old }
    ensures joint { OnOk result (joint.new ≡ united joint.old order.now) }
    ensures marks { OnOk result (AreMarks marks.new joint.new) }
{
    for c in order {
        meet_one(joint, marks, *c)?;
    }
    Ok(())
}

/// Adds the order of a class, unless the class is there.
fn join_one(joint: &mut Seq<u32>, marks: &mut [bool], order: &[u32], c: u32) -> Result<(), NoMemory>
    requires class { c < length marks.old }
    requires within { AreBelow (length marks.old) order.now }
    requires there { IsTrue (list_any (nat_eq c) joint.old) → AreAmong order.now joint.old }
    requires marks { AreMarks marks.old joint.old }
    ensures joint { OnOk result (joint.new ≡ united joint.old order.now) }
    ensures marks { OnOk result (AreMarks marks.new joint.new) }
{
    if marks[c as usize] {
        return Ok(());
    }
    join(joint, marks, order)
}

/// The joint order of a class's superclasses, where each has one, and the class behind it.
fn join_all(alloc: Global, orders: &[Line], supers: &[ClassId], c: u32) -> Result<Line, NoMemory>
    requires class { c < length orders.now }
    requires within { All (λ s. s.0 < length orders.now) supers.now }
    requires orders { AreClosed orders.now }
    ensures { IfOk result (λ o. o ≡ option_map (λ cs. with_item cs c) (all_united [] (map (line_at orders.now) (class_numbers supers.now)))) }
{
    let mut joint = Seq::new(alloc);
    let mut marks = Vec::new(alloc);
    or_drop!(marks.resize(orders.len(), false); joint, marks);
    for s in supers {
        match &orders[s.0 as usize] {
            Some(order) => {
                or_drop!(join_one(&mut joint, marks.as_mut_slice(), order.as_slice(), s.0); joint, marks)
            }
            None => {
                drop(joint);
                drop(marks);
                return Ok(None);
            }
        }
    }
    or_drop!(meet_one(&mut joint, marks.as_mut_slice(), c); joint, marks);
    drop(marks);
    Ok(Some(joint))
}

/// The order of a class, where those of its superclasses are found.
fn line_of(alloc: Global, hierarchy: &Hierarchy, orders: &[Line], c: u32) -> Result<Line, NoMemory>
    requires class { c < class_count hierarchy.now }
    requires rows { length orders.now ≡ class_count hierarchy.now }
    requires orders { AreClosed orders.now }
    ensures { IfOk result (λ o. o ≡ new_line hierarchy.now orders.now c) }
{
    join_all(alloc, orders, hierarchy.supers(c), c)
}

/// Whether each class has an order.
pub(crate) fn all_found(lines: &[Line]) -> bool
    ensures { result ≡ list_all (λ o. is_some o) lines.now }
{
    lines.iter().all(|line| line.is_some())
}

/// No order for any class.
fn no_lines(alloc: Global, count: u32) -> Result<Vec<Line>, NoMemory>
    ensures { IfOk result (λ none. none.items ≡ table (λ _. None) count) }
{
    let mut none = Vec::new(alloc);
    for _c in 0..count {
        none.push(None)?;
    }
    Ok(none)
}

/// Finds the orders of the classes that are ready, and looks at the classes below each of these, which may be ready then.
fn find_lines(
    alloc: Global,
    hierarchy: &Hierarchy,
    subclasses: &[Seq<u32>],
    orders: &mut [Line],
    known: &mut [usize],
    ready: &mut Seq<u32>,
    marks: &mut [bool],
) -> Result<(), NoMemory>
    requires subclasses { AreSubclasses hierarchy.now (class_count hierarchy.now) subclasses.now }
    requires queue { IsQueue hierarchy.now orders.old known.old ready.old marks.old }
    requires begun { IsFinding hierarchy.now orders.old 0 ready.old }
    ensures { OnOk result (AreLines hierarchy.now (class_count hierarchy.now) orders.new) }
{
    let mut next = 0;
    while next < ready.len() {
        let class = ready.as_slice()[next];
        let order = line_of(alloc, hierarchy, orders, class)?;
        orders[class as usize] = order;
        let below = subclasses[class as usize].as_slice();
        advance_all(hierarchy, orders, known, ready, marks, below)?;
        next += 1;
    }
    Ok(())
}

/// The orders of the classes of a description: none for a class that reaches a circle of superclasses.
pub(crate) fn all_lines(alloc: Global, hierarchy: &Hierarchy) -> Result<Vec<Line>, NoMemory>
    ensures { IfOk result (λ orders. AreLines hierarchy.now (class_count hierarchy.now) orders.items) }
{
    let count = hierarchy.named().class_count();
    let subclasses = all_subclasses(alloc, hierarchy)?;
    let mut orders = no_lines(alloc, count)?;
    let mut known = Vec::new(alloc);
    known.resize(count as usize, 0usize)?;
    let mut marks = Vec::new(alloc);
    marks.resize(count as usize, false)?;
    let mut ready = Seq::new(alloc);
    advance_each(
        hierarchy,
        orders.as_slice(),
        known.as_mut_slice(),
        &mut ready,
        marks.as_mut_slice(),
    )?;
    find_lines(
        alloc,
        hierarchy,
        subclasses.as_slice(),
        orders.as_mut_slice(),
        known.as_mut_slice(),
        &mut ready,
        marks.as_mut_slice(),
    )?;
    Ok(orders)
}

/// The class and those that it reaches, by number.
fn reached_classes(alloc: Global, hierarchy: &Hierarchy, c: u32) -> Result<Seq<u32>, NoMemory>
    requires { c < class_count hierarchy.now }
    ensures { IfOk result (λ classes. classes ≡ reached_by_number hierarchy.now c) }
{
    let marks = reached(alloc, hierarchy, &[ClassId(c)])?;
    marked(alloc, marks.as_slice(), hierarchy.named().class_count())
}

/// The class and those that it inherits from, by its order, or by number where it has none.
fn lineage(alloc: Global, hierarchy: &Hierarchy, line: &Line, c: u32) -> Result<Seq<u32>, NoMemory>
    requires { c < class_count hierarchy.now }
    ensures { IfOk result (λ classes. classes ≡ lineage_in hierarchy.now line.now c) }
{
    match line {
        Some(order) => Seq::from_slice(alloc, order.as_slice()),
        None => reached_classes(alloc, hierarchy, c),
    }
}

/// The same of each class.
pub(crate) fn all_lineages(
    alloc: Global,
    hierarchy: &Hierarchy,
    lines: &[Line],
) -> Result<Vec<Seq<u32>>, NoMemory>
    requires { AreLines hierarchy.now (class_count hierarchy.now) lines.now }
    ensures { IfOk result (λ lineages. lineages.items ≡ table (lineage_of hierarchy.now) (class_count hierarchy.now)) }
{
    let mut lineages = Vec::new(alloc);
    for c in 0..hierarchy.named().class_count() {
        let classes = lineage(alloc, hierarchy, &lines[c as usize], c)?;
        lineages.push(classes)?;
    }
    Ok(lineages)
}
