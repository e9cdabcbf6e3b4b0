use mof_metamodel::Seq;
use qv_syntax::Ty;

/// A variable in reach: its type, and the model of its objects where it is an object variable.
#[derive(Drop)]
pub struct Variable {
    pub ty: Ty,
    pub model: Option<u32>,
}

/// The types of a query's parameters and of its result.
#[derive(Drop)]
pub struct Signature {
    pub params: Seq<Ty>,
    pub result: Ty,
}
