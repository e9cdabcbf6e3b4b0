//! Marks of objects by their numbers.
ghost use Rattle.std.specs.Prelude.{◌≡◌, map, IfOk};
ghost use Rattle.mof_metamodel.specs.Tables.{table};
ghost use Rattle.qvtr_semantics.specs.Objects.{is_number_among};
ghost use Rattle.template_match.specs.Marks.{with_marks};

use mof_metamodel::NoMemory;
use object_tables::ObjId;
use std::alloc::Global;
use template_match::marks::{mark, unmarked};

/// Sets the marks of these objects.
fn mark_objects(marks: &mut [bool], objects: &[ObjId])
    ensures { marks.new ≡ with_marks marks.old (map (λ o. o.0) objects.now) }
{
    for object in objects {
        mark(marks, object.0);
    }
}

/// For each object below a number whether it is one of these.
pub(crate) fn object_marks(
    alloc: Global,
    count: usize,
    objects: &[ObjId],
) -> Result<Vec<bool>, NoMemory>
    ensures { IfOk result (λ marks. marks.items ≡ table (λ o. is_number_among o (map (λ x. x.0) objects.now)) count) }
{
    let mut marks = unmarked(alloc, count)?;
    mark_objects(marks.as_mut_slice(), objects);
    Ok(marks)
}
