//! The classes that are reached from classes by superclasses, on circles too: by a walk that looks once at each class and at
//! each superclass that it writes.
ghost use Rattle.std.specs.Prelude.{◌≡◌, ◌<◌, ◌≤◌, ℕ, [], All, length, slice_index_or, filter, IfOk, OnOk, IsTrue, ◌↔◌, false};
ghost use Rattle.std.specs.List.{range_with_len};
ghost use Rattle.mof_metamodel.specs.Metamodels.{class_count, with_item, united};
ghost use Rattle.mof_metamodel.specs.Tables.{class_numbers, IsClassOf, AreMarks, IsWalk, AreReached};

use crate::desc::ClassId;
use crate::hierarchy::Hierarchy;
use crate::memory::NoMemory;
use crate::or_drop;
use crate::seq::Seq;
use std::alloc::Global;

/// Adds a class, unless it was met, and marks it. The classes that were met are marked.
pub(crate) fn meet_one(met: &mut Seq<u32>, marks: &mut [bool], c: u32) -> Result<(), NoMemory>
    requires within { c < length marks.old }
    requires marks { AreMarks marks.old met.old }
    ensures met { OnOk result (met.new ≡ with_item met.old c) }
    ensures marks { OnOk result (AreMarks marks.new met.new) }
{
    if !marks[c as usize] {
        marks[c as usize] = true;
        met.push(c)?;
    }
    Ok(())
}

/// The same of several classes.
fn meet(met: &mut Seq<u32>, marks: &mut [bool], classes: &[ClassId]) -> Result<(), NoMemory>
    requires within { All (λ c. c.0 < length marks.old) classes.now }
    requires marks { AreMarks marks.old met.old }
    ensures met { OnOk result (met.new ≡ united met.old (class_numbers classes.now)) }
    ensures marks { OnOk result (AreMarks marks.new met.new) }
{
    for c in classes {
        meet_one(met, marks, c.0)?;
    }
    Ok(())
}

/// Meets the superclasses of the classes that were met, until there are no new ones.
fn walk(
    hierarchy: &Hierarchy,
    starts: &[ClassId],
    met: &mut Seq<u32>,
    marks: &mut [bool],
) -> Result<(), NoMemory>
    requires long { length marks.old ≡ class_count hierarchy.now }
    requires starts { All (IsClassOf hierarchy.now) starts.now }
    requires marks { AreMarks marks.old met.old }
    requires begun { IsWalk hierarchy.now (class_numbers starts.now) 0 met.old }
    ensures { OnOk result (AreReached hierarchy.now (class_numbers starts.now) marks.new) }
{
    let mut next = 0;
    while next < met.len() {
        let class = met.as_slice()[next];
        meet(met, marks, hierarchy.supers(class))?;
        next += 1;
    }
    Ok(())
}

/// For each class whether it is one of these, or one of them reaches it.
pub(crate) fn reached(
    alloc: Global,
    hierarchy: &Hierarchy,
    starts: &[ClassId],
) -> Result<Vec<bool>, NoMemory>
    requires { All (IsClassOf hierarchy.now) starts.now }
    ensures { IfOk result (λ marks. AreReached hierarchy.now (class_numbers starts.now) marks.items) }
{
    let mut marks = Vec::new(alloc);
    or_drop!(marks.resize(hierarchy.named().class_count() as usize, false); marks);
    let mut met = Seq::new(alloc);
    or_drop!(meet(&mut met, marks.as_mut_slice(), starts); met, marks);
    or_drop!(walk(hierarchy, starts, &mut met, marks.as_mut_slice()); met, marks);
    drop(met);
    Ok(marks)
}

/// The classes that are marked, by number.
pub(crate) fn marked(alloc: Global, marks: &[bool], count: u32) -> Result<Seq<u32>, NoMemory>
    requires { length marks.now ≡ count }
    ensures { IfOk result (λ classes. classes ≡ filter (λ d. slice_index_or marks.now d false) (range_with_len 0 count)) }
{
    let mut classes = Seq::new(alloc);
    for d in 0..count {
        if marks[d as usize] {
            classes.push(d)?;
        }
    }
    Ok(classes)
}
