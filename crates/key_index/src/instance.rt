use mof_metamodel::ClassId;
use object_tables::ObjId;

/// An object with its class.
#[derive(Drop)]
pub(crate) struct Instance {
    pub(crate) class: ClassId,
    pub(crate) object: ObjId,
}
