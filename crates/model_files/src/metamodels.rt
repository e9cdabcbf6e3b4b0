//! The metamodel that a model of EMOF describes.
ghost use Rattle.std.specs.Prelude.{◌≡◌, ◌≢◌, [], ◌∷◌, length, IfOk, IfErr, IfSome, IfNone, IsOkUnless};
ghost use Rattle.mof_metamodel.specs.declared.desc.MetaDesc.{MetaDesc};
ghost use Rattle.mof_metamodel.specs.WellMeta.{WellMeta};
ghost use Rattle.object_tables.specs.Ids.{object_ids};
ghost use Rattle.object_tables.specs.Models.{IsLive};
ghost use Rattle.model_assembly.specs.Profile.{is_part as is_part_of};
ghost use Rattle.model_files.specs.Described.{is_top_package, top_packages, Describes, IsWhy, IsFaultOf};

use crate::description::description_of;
use crate::fault::FileError;
use crate::reflection::is_of_class;
use mof_metamodel::{MetaDesc, MetaError, MetaModel, NoMemory, Seq};
use object_tables::{Model, ObjId};
use std::alloc::Global;

/// Whether an object has a container.
fn is_part(model: &Model<'_>, o: ObjId) -> bool
    requires { IsLive model.now o.0 }
    ensures { result ≡ is_part_of model.now o.0 }
{
    // What every model keeps is known here.
    let _ = model.end();
    match model.container(o) {
        Some(_) => true,
        None => false,
    }
}

/// Whether a number has an object that is a top Package.
fn is_top_package(model: &Model<'_>, o: ObjId) -> bool
    ensures { result ≡ is_top_package model.now o.0 }
{
    model.is_live(o) && is_of_class(model, "Package", o) && !is_part(model, o)
}

/// The top Packages by number.
fn top_packages(alloc: Global, model: &Model<'_>) -> Result<Seq<ObjId>, NoMemory>
    ensures { IfOk result (λ os. os ≡ object_ids (top_packages model.now)) }
{
    let mut packages = Seq::new(alloc);
    for o in 0..model.end() {
        if is_top_package(model, ObjId(o)) {
            packages.push(ObjId(o))?;
        }
    }
    Ok(packages)
}

/// The metamodel of a description.
fn metamodel_from(alloc: Global, desc: MetaDesc) -> Result<MetaModel, FileError>
    ensures ok { IfOk result (λ meta. WellMeta desc × (meta ≡ desc)) }
    ensures fault { IfErr result (IsFaultOf desc) }
    ensures only { WellMeta desc → IsOkUnless result FileError.NoMemory }
{
    match MetaModel::new(alloc, desc) {
        Ok(meta) => Ok(meta),
        Err(MetaError::Fault(fault)) => Err(FileError::Meta(fault)),
        Err(MetaError::NoMemory) => Err(FileError::NoMemory),
    }
}

/// The one object of a list.
fn only(packages: &[ObjId]) -> Option<ObjId>
    ensures some { IfSome result (λ o. packages.now ≡ o ∷ []) }
    ensures none { IfNone result (length packages.now ≢ 1) }
{
    if packages.len() == 1 {
        Some(packages[0])
    } else {
        None
    }
}

/// The metamodel that a model of EMOF describes (MOF 2.5.1, 12.4): the Classes and Enumerations of its one top Package. `NoPackage` tells how
/// many top Packages there are, where that isn't one, and `Meta` the first fault of the description. In time linear in the model, beside that of
/// `MetaModel::new`.
pub fn metamodel_of(alloc: Global, model: &Model<'_>) -> Result<MetaModel, FileError>
    ensures ok { IfOk result (Describes model.now) }
    ensures fault { IfErr result (IsWhy model.now) }
    ensures only { (desc : MetaDesc) → Describes model.now desc → IsOkUnless result FileError.NoMemory }
{
    // The numbers of objects are below 2^32.
    let _ = model.end();
    let packages = top_packages(alloc, model)?;
    match only(packages.as_slice()) {
        Some(root) => metamodel_from(alloc, description_of(alloc, model, root)?),
        None => Err(FileError::NoPackage(packages.len() as u32)),
    }
}
