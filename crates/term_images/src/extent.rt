ghost use Rattle.std.specs.Prelude.{◌≡◌, IfOk};
ghost use Rattle.std.specs.List.{filter_map};
ghost use Rattle.qvtr_semantics.specs.Objects.{extent_of};
ghost use Rattle.term_images.specs.ClassIndexes.{numbers_of};
ghost use Rattle.term_images.specs.Extents.{object_in};

use crate::target::Target;
use mof_metamodel::{ClassId, NoMemory, Seq};
use object_tables::ObjId;
use ocl_eval::extent_of;
use qvtr_semantics::Datum;
use std::alloc::Global;

/// The objects among data.
fn objects_in(alloc: Global, found: &[Datum]) -> Result<Seq<ObjId>, NoMemory>
    ensures { IfOk result (λ objects. objects ≡ filter_map object_in found.now) }
{
    let mut objects = Seq::new(alloc);
    for datum in found {
        if let Datum::Obj(_, object) = datum {
            objects.push(*object)?;
        }
    }
    Ok(objects)
}

/// The objects of the target that conform to a class, by number.
pub(crate) fn objects_of(target: &Target<'_, '_>, class: ClassId) -> Result<Seq<ObjId>, NoMemory>
    ensures { IfOk result (λ objects. numbers_of objects ≡ extent_of target.now.model.now class.0) }
{
    let extent = extent_of(target.alloc, target.program.target, target.model, class)?;
    objects_in(target.alloc, extent.as_slice())
}
