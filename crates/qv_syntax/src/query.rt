use crate::expr::Expr;
use crate::name::Name;
use crate::ty::Ty;
use crate::type_tree::TypeTree;
use crate::typed::Typed;
use mof_metamodel::{Seq, Text};

/// A query as it is written (QVT 1.3, section 7.11.1.4).
#[derive(Drop)]
pub struct QueryTree {
    pub name: Name,
    pub params: Seq<ParamTree>,
    pub result: TypeTree,
    pub body: Expr,
}

/// A parameter of a query as it is written.
#[derive(Drop)]
pub struct ParamTree {
    pub name: Name,
    pub ty: TypeTree,
}

/// A query with its types. In its body the parameters are the first variables.
#[derive(Drop)]
pub struct Query {
    pub name: Text,
    pub params: Seq<Ty>,
    pub result: Ty,
    pub body: Typed,
}

/// A model of a transformation (QVT 1.3, section 7.11.1.2), and the number of its metamodel.
#[derive(Drop)]
pub struct ModelSlot {
    pub name: Text,
    pub meta: u32,
}
