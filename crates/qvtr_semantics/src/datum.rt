use object_tables::{ObjId, Value};

/// A single value of an expression or a variable: an object, or a value of a data type (OCL 2.4, section 11.3 and 11.5).
#[derive(Drop)]
pub enum Datum {
    /// An object, by the number of its model and its own.
    Obj(u32, ObjId),
    /// A value of a data type: of a literal with the number of its metamodel, else with 0.
    Val(u32, Value),
}
