ghost use Rattle.std.specs.Prelude.{◌≡◌, IfOk};

use mof_metamodel::{EnumId, NoMemory, Text};
use std::alloc::Global;

/// The number of an object. Numbers are given out from 0 in the order in which objects are added, and none is used again.
#[derive(Clone, Copy, PartialEq, Eq)]
pub struct ObjId(pub u32);

/// One value of an attribute.
#[derive(Drop, PartialEq, Eq)]
pub enum Value {
    Str(Text),
    Int(i64),
    Bool(bool),
    /// A literal of an enumeration, by its number there, from 0.
    Lit(EnumId, u32),
}

impl Value {
    /// Another value that is equal.
    pub fn duplicate(&self, alloc: Global) -> Result<Value, NoMemory>
        ensures { IfOk result (λ copy. copy ≡ self.now) }
    {
        match self {
            Value::Str(text) => Ok(Value::Str(text.duplicate(alloc)?)),
            Value::Int(number) => Ok(Value::Int(*number)),
            Value::Bool(bool) => Ok(Value::Bool(*bool)),
            Value::Lit(of, place) => Ok(Value::Lit(*of, *place)),
        }
    }
}
