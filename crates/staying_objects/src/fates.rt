//! The fates of objects before any container is looked at.
ghost use Rattle.std.specs.Prelude.{◌≡◌, ◌<◌, length, map, IfOk};
ghost use Rattle.mof_metamodel.specs.Metamodels.{class_count};
ghost use Rattle.mof_metamodel.specs.Tables.{table};
ghost use Rattle.qvtr_semantics.specs.Objects.{is_number_among};
ghost use Rattle.staying_objects.specs.Kinds.{AreKinds};
ghost use Rattle.staying_objects.specs.Fates.{target_of, classes_of, images_of, is_image, is_managed, first_fate};

use crate::fate::Fate;
use crate::kinds::kinds_of;
use crate::marks::object_marks;
use crate::repair::Repair;
use mof_metamodel::{NoMemory, Seq};
use object_tables::ObjId;
use std::alloc::Global;
use template_match::marks::is_marked;

/// Whether the number is that of an object of a managed class.
fn is_managed(repair: &Repair<'_, '_>, kinds: &[bool], o: ObjId) -> bool
    requires { AreKinds (target_of repair.now).meta (classes_of repair.now) kinds.now }
    ensures { result ≡ is_managed repair.now o.0 }
{
    if !repair.target.is_live(o) {
        return false;
    }
    is_marked(kinds, repair.target.class_of(o).0)
}

/// What is known of an object before its container is looked at.
fn first_fate(repair: &Repair<'_, '_>, kinds: &[bool], images: &[bool], o: ObjId) -> Fate
    requires kinds { AreKinds (target_of repair.now).meta (classes_of repair.now) kinds.now }
    requires images { images.now ≡ table (is_image repair.now) (length (target_of repair.now).objects) }
    requires within { o.0 < length (target_of repair.now).objects }
    ensures { result ≡ first_fate repair.now o.0 }
{
    if is_marked(images, o.0) {
        return Fate::Stays;
    }
    if is_managed(repair, kinds, o) {
        return Fate::Goes;
    }
    Fate::Open
}

/// The same of all objects.
fn fates_by(
    alloc: Global,
    repair: &Repair<'_, '_>,
    kinds: &[bool],
    images: &[bool],
) -> Result<Seq<Fate>, NoMemory>
    requires kinds { AreKinds (target_of repair.now).meta (classes_of repair.now) kinds.now }
    requires images { images.now ≡ table (is_image repair.now) (length (target_of repair.now).objects) }
    ensures { IfOk result (λ fates. fates ≡ table (first_fate repair.now) (length (target_of repair.now).objects)) }
{
    let mut fates = Seq::new(alloc);
    for o in 0..repair.target.end() {
        fates.push(first_fate(repair, kinds, images, ObjId(o)))?;
    }
    Ok(fates)
}

/// What is known of each object before its container is looked at.
pub(crate) fn first_fates(alloc: Global, repair: &Repair<'_, '_>) -> Result<Seq<Fate>, NoMemory>
    ensures { IfOk result (λ fates. fates ≡ table (first_fate repair.now) (length (target_of repair.now).objects)) }
{
    let kinds = kinds_of(alloc, repair.target.meta(), repair.classes)?;
    let images = object_marks(alloc, repair.target.end() as usize, repair.images)?;
    fates_by(alloc, repair, kinds.as_slice(), images.as_slice())
}
