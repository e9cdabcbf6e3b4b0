//! From what a file writes to the model, or to the first fault of its references.
mod check;
mod entry;
mod first;
mod links;
mod met;
mod models;
mod naming;
mod objects;
mod orders;
mod references;
mod values;

ghost use Rattle.std.specs.Prelude.{IfErr, IfOk};
ghost use Rattle.model_assembly.specs.Assembled.{Assembles, IsContent, IsWhole};
ghost use Rattle.model_assembly.specs.AssemblyReferences.{IsRefusal};

use crate::filed::Filed;
pub use check::AssemblyError;
pub use first::conforms_to;
use models::ordered_model;
use mof_metamodel::MetaModel;
use object_tables::Model;
use references::named;
use std::alloc::Global;

/// The model of which a file writes the objects, values and references, whether it is valid or not.
fn content_of<'m>(
    alloc: Global,
    meta: &'m MetaModel,
    filed: Filed,
) -> Result<Model<'m>, AssemblyError>
    requires { IsWhole meta.now filed }
    ensures ok { IfOk result (IsContent meta.now filed) }
    ensures fault { IfErr result (IsRefusal meta.now filed) }
{
    // What every metamodel keeps is known here.
    let _ = meta.class_count();
    let namings = named(alloc, meta, &filed)?;
    let model = ordered_model(alloc, meta, filed, namings.as_slice())?;
    Ok(model)
}

/// Puts together what a file writes, in whichever form, where no fault stands at a place of it: the model, valid and within the limit
/// on its depth. Else the fault is the first dangling reference, or else the first object that is contained twice, or else the first
/// mismatch of ends, or else the first breach of the model, or else its depth (XMI 2.5.1, 7.10; MOF 2.5.1, 12.4; UML 2.5.1, 9.5.3 and
/// 11.5).
pub fn assemble<'m>(
    alloc: Global,
    meta: &'m MetaModel,
    filed: Filed,
) -> Result<Model<'m>, AssemblyError>
    requires { IsWhole meta.now filed }
    ensures { Assembles meta.now filed result }
{
    let model = content_of(alloc, meta, filed)?;
    // What every model keeps is known here.
    let _ = model.end();
    check::check(alloc, &model)?;
    Ok(model)
}
