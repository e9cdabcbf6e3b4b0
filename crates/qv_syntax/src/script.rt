use crate::expr::Expr;
use crate::name::{Name, Path};
use crate::query::QueryTree;
use crate::type_tree::TypeTree;
use mof_metamodel::{Seq, Span};

/// A script as it is written: a transformation, its models, and what it declares, in the order of the text (QVT 1.3,
/// section 7.11.1).
#[derive(Drop)]
pub struct Script {
    pub name: Name,
    pub models: Seq<ModelTree>,
    pub declarations: Seq<Declaration>,
    pub span: Span,
}

/// A model of a transformation as it is written, `name : meta` (QVT 1.3, section 7.11.1.2).
#[derive(Drop)]
pub struct ModelTree {
    pub name: Name,
    pub meta: Name,
}

/// What a transformation declares.
#[derive(Drop)]
pub enum Declaration {
    /// `key class { names };`
    Key { key: KeyTree },
    /// `relation name { .. }`, with `top` before it or not
    Relation { relation: RelationTree },
    /// `query name ( params ) : type { body }`
    Query { query: QueryTree },
}

/// The properties that tell the objects of a class apart, as they are written (QVT 1.3, section 7.10.2).
#[derive(Drop)]
pub struct KeyTree {
    pub class: Path,
    pub props: Seq<Name>,
    pub span: Span,
}

/// A relation as it is written (QVT 1.3, section 7.11.1.4).
#[derive(Drop)]
pub struct RelationTree {
    pub top: bool,
    pub name: Name,
    pub vars: Seq<VarsTree>,
    /// At least one.
    pub domains: Seq<DomainTree>,
    pub when: Option<BlockTree>,
    pub wheres: Option<BlockTree>,
    pub span: Span,
}

/// Variables of one type as they are declared, `names : type;`.
#[derive(Drop)]
pub struct VarsTree {
    /// At least one.
    pub names: Seq<Name>,
    pub ty: TypeTree,
    pub span: Span,
}

/// How a domain of a model is marked (QVT 1.3, section 7.11.1.6). One without a mark is `checkonly`.
#[derive(Clone, Copy)]
pub enum DomainMark {
    Checkonly,
    Enforce,
}

/// A domain as it is written (QVT 1.3, section 7.11.1.6).
#[derive(Drop)]
pub enum DomainTree {
    /// `domain model root template;`, with a mark before it or not
    Pattern {
        mark: Option<DomainMark>,
        model: Name,
        root: Name,
        template: TemplateTree,
        span: Span,
    },
    /// `primitive domain root : type;`
    Primitive {
        root: Name,
        ty: TypeTree,
        span: Span,
    },
}

/// An object template as it is written behind its variable, `: class { items }` (QVT 1.3, section 7.11.2.2).
#[derive(Drop)]
#[cycle(template_tree)]
pub struct TemplateTree {
    pub class: Path,
    pub items: Seq<ItemTree>,
    pub span: Span,
}

/// A property template item as it is written, `prop = value` (QVT 1.3, section 7.11.2.3).
#[derive(Drop)]
#[cycle(template_tree)]
pub struct ItemTree {
    pub prop: Name,
    pub value: ItemValueTree,
}

/// What an item asks of a slot.
#[derive(Drop)]
#[cycle(template_tree)]
pub enum ItemValueTree {
    /// An expression.
    Expr {
        value: Expr,
    },
    /// A template, with a variable before it or not.
    Nested {
        variable: Option<Name>,
        template: TemplateTree,
    },
}

/// What a when or a where clause asks, `{ expr; .. }` (QVT 1.3, section 7.11.1.4).
#[derive(Drop)]
pub struct BlockTree {
    pub exprs: Seq<Expr>,
    pub span: Span,
}
