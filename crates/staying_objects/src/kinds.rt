//! The classes of a metamodel that are some classes or inherit from them.
ghost use Rattle.std.specs.Prelude.{◌≡◌, ◌||◌, ℕ, [], length, IfOk};
ghost use Rattle.mof_metamodel.specs.Metamodels.{class_count};
ghost use Rattle.mof_metamodel.specs.Tables.{class_numbers};
ghost use Rattle.template_match.specs.Marks.{is_marked};
ghost use Rattle.staying_objects.specs.Kinds.{AreKinds, AddsKinds};

use key_index::is_kind_of;
use mof_metamodel::{ClassId, MetaModel, NoMemory};
use std::alloc::Global;
use template_match::marks::{is_marked, unmarked};

/// Marks each class that is this one or inherits from it.
fn mark_kinds(meta: &MetaModel, class: ClassId, marks: &mut [bool])
    requires { length marks.old ≡ class_count meta.now }
    ensures { AddsKinds meta.now class.0 marks.old marks.new }
{
    for c in 0..meta.class_count() {
        if is_kind_of(meta, ClassId(c), class) {
            marks[c as usize] = true;
        }
    }
}

/// The same of several classes. One that is marked is passed over: those that inherit from it are marked already.
fn mark_all(meta: &MetaModel, classes: &[ClassId], marks: &mut [bool])
    requires { AreKinds meta.now [] marks.old }
    ensures { AreKinds meta.now (class_numbers classes.now) marks.new }
{
    // No fault stands in the description.
    let _count = meta.class_count();
    for class in classes {
        if !is_marked(marks, class.0) {
            mark_kinds(meta, *class, marks);
        }
    }
}

/// For each class whether it is one of these or inherits from one. In the number of classes, for each of these that inherits from none
/// before it.
pub(crate) fn kinds_of(
    alloc: Global,
    meta: &MetaModel,
    classes: &[ClassId],
) -> Result<Vec<bool>, NoMemory>
    ensures { IfOk result (λ marks. AreKinds meta.now (class_numbers classes.now) marks.items) }
{
    let mut marks = unmarked(alloc, meta.class_count() as usize)?;
    mark_all(meta, classes, marks.as_mut_slice());
    Ok(marks)
}
