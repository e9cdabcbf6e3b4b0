use crate::literal::Literal;
use crate::operation::{ClassOperation, CollectionOperation, IteratorKind, Operation};
use crate::operator::Operator;
use crate::ty::Ty;
use crate::type_tree::Kind;
use mof_metamodel::{Boxed, ClassId, EnumId, PropId, Seq};

/// An expression with its type. Each part has its own, and names are numbers: variables by the order in which they came
/// into reach, models, metamodels and queries by their places. What is written as a chain is one node with a list, as in
/// `Expr`. Parentheses are gone.
#[derive(Drop)]
#[cycle(typed)]
pub struct Typed {
    pub ty: Ty,
    pub node: Node,
}

/// What an expression is made of.
#[derive(Drop)]
#[cycle(typed)]
pub enum Node {
    /// An Integer.
    Number {
        value: i64,
    },
    /// A String.
    Str {
        value: Literal,
    },
    /// `true` and `false`
    Bool {
        value: bool,
    },
    /// `null`
    Null,
    /// `invalid`
    Invalid,
    /// A literal of an enumeration, by its place.
    EnumLiteral {
        meta: u32,
        enumeration: EnumId,
        literal: u32,
    },
    /// A variable.
    Variable {
        number: u32,
    },
    /// `let` with the number of its variable, which is in reach in the body alone.
    Let {
        variable: u32,
        value: Boxed<Typed>,
        body: Boxed<Typed>,
    },
    /// A part and the operators behind it, of one level, at least one.
    Chain {
        first: Boxed<Typed>,
        rest: Seq<TypedInfix>,
    },
    /// `not operand`
    Not {
        operand: Boxed<Typed>,
    },
    /// `- operand`
    Negated {
        operand: Boxed<Typed>,
    },
    /// A part and what is called on it, at least one call.
    Calls {
        of: Boxed<Typed>,
        calls: Seq<TypedPostfix>,
    },
    /// `if condition then one else other endif`
    If {
        condition: Boxed<Typed>,
        one: Boxed<Typed>,
        other: Boxed<Typed>,
    },
    /// `Set { elements }` and its like
    Coll {
        kind: Kind,
        elements: Seq<Typed>,
    },
    /// `C.allInstances()`: the objects of a model that conform to a class.
    Extent {
        model: u32,
        class: ClassId,
    },
    /// A call of a query.
    Query {
        query: u32,
        args: Seq<Typed>,
    },
}

/// An infix operator with the operand behind it, and the type of the chain up to there.
#[derive(Drop)]
#[cycle(typed)]
pub struct TypedInfix {
    pub operator: Operator,
    pub right: Typed,
    pub ty: Ty,
}

/// A call behind `.` or `->`, on what stands before it, and the type of the result.
#[derive(Drop)]
#[cycle(typed)]
pub struct TypedPostfix {
    pub call: Call,
    pub ty: Ty,
}

/// What is called: a property, an operation or an iterator.
#[derive(Drop)]
#[cycle(typed)]
pub enum Call {
    /// A property of an object.
    Property {
        prop: PropId,
        values: Values,
    },
    /// A property of each object of a collection.
    CollectProperty {
        prop: PropId,
        values: Values,
    },
    /// An operation on a single value.
    Operation {
        operation: Operation,
        args: Seq<Typed>,
    },
    /// A type test or a cast. The class is one of the object's metamodel.
    Class {
        operation: ClassOperation,
        class: ClassId,
    },
    /// An operation on a collection.
    Collection {
        operation: CollectionOperation,
        args: Seq<Typed>,
    },
    /// An iterator with the number of its variable, which is in reach in the body alone.
    Iterator {
        iterator: IteratorKind,
        variable: u32,
        body: Boxed<Typed>,
    },
}

/// What navigation to a property gives (OCL 2.4, section 7.5.3).
#[derive(Clone, Copy, Debug, PartialEq, Eq)]
pub enum Values {
    /// One value, or null.
    Single,
    /// A Set.
    Set,
    /// An OrderedSet.
    OrderedSet,
}
