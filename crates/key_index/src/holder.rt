use mof_metamodel::PropId;
use object_tables::{ObjId, Value};

/// An object that holds a value at an attribute.
#[derive(Drop)]
pub struct Holder {
    pub prop: PropId,
    pub value: Value,
    pub object: ObjId,
}
