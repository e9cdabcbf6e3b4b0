ghost use Rattle.xmi_profile.specs.Reads.{Reads};

use crate::fault::XmiError;
use crate::filed_objects::read_filed;
use crate::roles::Profile;
use model_assembly::{Externs, assemble};
use mof_metamodel::MetaModel;
use object_tables::Model;
use std::alloc::Global;

/// Reads the model that a file of XMI is by a metamodel (XMI 2.5.1, clauses 7 and 9): a document of the profile that is a valid model
/// within the limits on objects and depth. Else the error is the first fault of the markup, or else the first one of its content. What
/// `externs` allows may be named outside the file.
pub fn read_model<'m>(
    alloc: Global,
    meta: &'m MetaModel,
    externs: Externs,
    bytes: &[u8],
) -> Result<Model<'m>, XmiError>
    ensures { Reads meta.now externs bytes.now result }
{
    let profile = Profile {
        alloc,
        meta,
        outside: externs,
    };
    let filed = read_filed(&profile, bytes)?;
    let model = assemble(alloc, meta, filed)?;
    Ok(model)
}
