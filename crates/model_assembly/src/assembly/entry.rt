ghost use Rattle.std.specs.Prelude.{◌≡◌, ◌<◌, length, All, Contains, IfOk, OnOk};
ghost use Rattle.mof_metamodel.specs.Metamodels.{class_count, props_of};
ghost use Rattle.object_tables.specs.Models.{slot_number};
ghost use Rattle.model_assembly.specs.AssemblyEntries.{class_in, IsReferenceAt, entries_from, IsInOrder};

use crate::filed::WrittenReference;
use mof_metamodel::{ClassId, MetaModel, NoMemory, PropId};
use std::alloc::{AllocError, Global};

/// What is written at a reference: by which object, at which property and place in the class order of its class, and which
/// object is named. `written` is its number in the list of what is written.
#[derive(Clone, Copy)]
pub(super) struct Entry {
    pub(super) object: u32,
    pub(super) place: usize,
    pub(super) property: PropId,
    pub(super) target: Option<u32>,
    pub(super) written: usize,
}

/// The place of a property in the class order of an object's class.
fn place_of(meta: &MetaModel, classes: &[ClassId], object: u32, property: PropId) -> usize
    requires within { object < length classes.now }
    requires known { All (λ c. c.0 < class_count meta.now) classes.now }
    requires has { Contains (props_of meta.now (class_in classes.now object).0) property.0 }
    ensures { result ≡ slot_number meta.now (class_in classes.now object).0 property.0 }
{
    match meta.place_of(classes[object as usize], property) {
        Some(place) => place,
        None => unreachable!(),
    }
}

/// An entry for each thing that is written.
pub(super) fn entries(
    alloc: Global,
    meta: &MetaModel,
    classes: &[ClassId],
    references: &[WrittenReference],
) -> Result<Vec<Entry>, NoMemory>
    requires known { All (λ c. c.0 < class_count meta.now) classes.now }
    requires references { All (λ r. IsReferenceAt meta.now classes.now r.object r.property.0) references.now }
    ensures { IfOk result (λ v. v.items ≡ entries_from meta.now classes.now 0 references.now) }
{
    let mut entries = Vec::new(alloc);
    for (i, reference) in references.iter().enumerate() {
        entries.push(Entry {
            object: reference.object,
            place: place_of(meta, classes, reference.object, reference.property),
            property: reference.property,
            target: reference.target,
            written: i,
        })?;
    }
    Ok(entries)
}

/// Puts entries in the order of objects, and those of an object in that of its properties; the others keep their order.
pub(super) fn sort(entries: &mut Vec<Entry>) -> Result<(), AllocError>
    ensures { OnOk result (IsInOrder entries.old.items entries.new.items) }
{
    entries.sort_by_key(|e| e.place)?;
    entries.sort_by_key(|e| e.object)?;
    Ok(())
}
