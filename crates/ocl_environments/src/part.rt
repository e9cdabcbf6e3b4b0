use mof_metamodel::Seq;
use qv_syntax::{Node, Ty, TypedInfix, TypedPostfix};

/// An expression that is typed, and the model of its objects.
#[derive(Drop)]
pub struct TypedPart {
    pub ty: Ty,
    pub model: Option<u32>,
    pub node: Node,
}

/// What was called on a part so far, and what came of it.
#[derive(Drop)]
pub struct CallsSoFar {
    pub calls: Seq<TypedPostfix>,
    pub ty: Ty,
    pub model: Option<u32>,
}

/// What stands behind the first part of a chain so far, and what came of it.
#[derive(Drop)]
pub struct Chained {
    pub links: Seq<TypedInfix>,
    pub ty: Ty,
}
