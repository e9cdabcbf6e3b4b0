use crate::query::{ModelSlot, Query};
use crate::ty::Ty;
use crate::typed::Typed;
use mof_metamodel::{ClassId, PropId, Seq, Text};

/// A transformation with its names resolved, in the direction towards one of its models (QVT 1.3, section 7.11.1).
/// Models, relations, variables and queries go by their places in these lists, metamodels by the order in which the
/// transformation first names them.
#[derive(Drop)]
pub struct Program {
    pub name: Text,
    pub models: Seq<ModelSlot>,
    /// The model towards which the relations are checked or enforced.
    pub target: u32,
    pub keys: Seq<Key>,
    pub rels: Seq<Rel>,
    pub queries: Seq<Query>,
}

/// The properties that tell the objects of a class apart (QVT 1.3, section 7.10.2).
#[derive(Drop)]
pub struct Key {
    pub meta: u32,
    pub class: ClassId,
    pub props: Seq<PropId>,
}

/// A relation (QVT 1.3, section 7.11.1.4).
#[derive(Drop)]
pub struct Rel {
    pub name: Text,
    pub top: bool,
    /// Whether it has a domain of the target model.
    pub in_direction: bool,
    /// The greatest number of calls in when clauses on a path of calls from it.
    pub stratum: u32,
    pub vars: Seq<Var>,
    /// The variables that occur in a source domain, a primitive domain or the when clause, in their order.
    pub universal: Seq<u32>,
    /// All others, in their order.
    pub existential: Seq<u32>,
    pub domains: Seq<Dom>,
    pub whens: Seq<Conj>,
    pub wheres: Seq<Conj>,
}

/// A variable of a relation, with the model to which its objects belong.
#[derive(Drop)]
pub struct Var {
    pub name: Text,
    pub ty: Ty,
    pub model: Option<u32>,
}

/// How a domain is marked (QVT 1.3, section 7.11.1.6).
#[derive(Clone, Copy)]
pub enum Marker {
    Checkonly,
    Enforce,
    Primitive,
}

/// A domain: its model, none for a primitive one, its root variable and its template (QVT 1.3, section 7.11.1.6).
#[derive(Drop)]
pub struct Dom {
    pub model: Option<u32>,
    pub marker: Marker,
    pub root: u32,
    pub template: Option<Tmpl>,
}

/// An object template expression (QVT 1.3, section 7.11.2.2): a variable, its class and what is asked of its slots.
#[derive(Drop)]
#[cycle(template)]
pub struct Tmpl {
    pub var: u32,
    pub class: ClassId,
    pub items: Seq<Item>,
}

/// A property template item (QVT 1.3, section 7.11.2.3).
#[derive(Drop)]
#[cycle(template)]
pub struct Item {
    pub prop: PropId,
    pub value: ItemValue,
}

/// What an item asks of a slot.
#[derive(Drop)]
#[cycle(template)]
pub enum ItemValue {
    /// That it is empty.
    Null,
    /// That the value of an expression stands there.
    Expr { value: Typed },
    /// That an object stands there which matches a template.
    Nested { template: Tmpl },
}

/// A conjunct of a when or a where clause (QVT 1.3, section 7.11.1.4).
#[derive(Drop)]
pub enum Conj {
    /// A condition.
    Cond(Typed),
    /// The first conjunct that says what a variable is.
    Equation(u32, Typed),
    /// A call of a relation with the roots of its domains.
    Call(u32, Seq<Typed>),
}
