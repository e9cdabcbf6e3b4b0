//! The trees of scripts: scripts and expressions as they are written (`Script`, `Expr`), expressions with their types (`Typed`), and
//! resolved programs (`Program`).
#![tactic(auto)]

mod expr;
mod laws;
mod literal;
mod name;
mod operation;
mod operator;
mod program;
mod query;
mod script;
mod ty;
mod type_tree;
mod typed;

pub use expr::{Args, Expr, Infix, Postfix};
pub use laws::calls_of_queries_end;
pub use literal::Literal;
pub use name::{Name, Path};
pub use operation::{ClassOperation, CollectionOperation, IteratorKind, Operation};
pub use operator::Operator;
pub use program::{Conj, Dom, Item, ItemValue, Key, Marker, Program, Rel, Tmpl, Var};
pub use query::{ModelSlot, ParamTree, Query, QueryTree};
pub use script::{
    BlockTree, Declaration, DomainMark, DomainTree, ItemTree, ItemValueTree, KeyTree, ModelTree,
    RelationTree, Script, TemplateTree, VarsTree,
};
pub use ty::Ty;
pub use type_tree::{Kind, TypeTree};
pub use typed::{Call, Node, Typed, TypedInfix, TypedPostfix, Values};
