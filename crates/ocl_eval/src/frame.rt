use crate::progress::Progress;
use crate::reach::Reach;
use crate::reached::Reached;
use crate::running::Running;
use mof_metamodel::Seq;
use qv_syntax::{
    CollectionOperation, IteratorKind, Kind, Operation, Operator, Typed, TypedInfix, TypedPostfix,
};
use qvtr_semantics::{Datum, Out};

/// What comes next in an evaluation.
#[derive(Drop)]
pub(crate) enum Control<'a> {
    /// The value of a part of the expression is to be found.
    Part(&'a Typed),
    /// Calls are to be made, one after another, on what was reached.
    Calls(Reached, &'a [TypedPostfix]),
    /// A query is to be called with these values of its parameters.
    Query(u32, Seq<Out>),
    /// The value of a part was found.
    Value(Out),
}

/// An operation that waits for the values of its arguments.
#[derive(Drop)]
pub(crate) enum Applied {
    /// An operation on a value.
    Operation(Operation, Running),
    /// An operation on a collection, if the value is one.
    Collection(CollectionOperation, Out),
    /// An operation on the collection that a variable holds.
    Variable(CollectionOperation, u32),
    /// `including`, on what was reached.
    Including(Reached),
    /// `union`, on what was reached.
    Union(Reached),
}

/// What is made of a list of values.
#[derive(Drop)]
pub(crate) enum Listed<'a> {
    /// A collection of this kind.
    Literal(Kind),
    /// The value of a query, whose arguments they are.
    Query(u32),
    /// What an operation, whose arguments they are, gives, and calls on it.
    Applied(Applied, &'a [TypedPostfix]),
}

/// An iterator on its way over a collection.
#[derive(Drop)]
pub(crate) struct Iteration<'a> {
    pub(crate) iterator: IteratorKind,
    pub(crate) kind: Kind,
    pub(crate) elements: Seq<Datum>,
    /// How many elements were gone over.
    pub(crate) next: usize,
    pub(crate) body: &'a Typed,
    /// The variables that are out of reach of the body.
    pub(crate) behind: Vec<Out>,
    /// What is called on the result.
    pub(crate) calls: &'a [TypedPostfix],
}

/// What waits for the value of a part of an expression, on the stack of an evaluation.
#[derive(Drop)]
pub(crate) enum Frame<'a> {
    Not,
    Negated,
    /// The branches of an `if`, which wait for the condition.
    If(&'a Typed, &'a Typed),
    /// The variable of a `let` and its body, which wait for its value.
    Let(u32, &'a Typed),
    /// The variables that are out of reach of the body of a `let`.
    Body(Vec<Out>),
    /// Operators with the parts behind them, which wait for what stands before them.
    First(&'a [TypedInfix]),
    /// An operator with the value before it, which waits for what stands behind it, and those that follow.
    Right(Operator, Running, &'a [TypedInfix]),
    /// Calls that wait for the value on which they are made.
    Calls(&'a [TypedPostfix]),
    /// The values of a list so far, one of which is waited for, the parts behind it, and what is made of all.
    List(Seq<Out>, &'a [Typed], Listed<'a>),
    /// An iterator that waits for the value of its body for one element.
    Element(Iteration<'a>, Progress),
}

/// Who waits for the value of a query, on the stack of an evaluation.
#[derive(Drop)]
pub(crate) struct Caller<'b> {
    /// The query.
    pub(crate) query: u32,
    /// How many calls of queries may still be made where it is called.
    pub(crate) calls: usize,
    /// By how many fewer there may be for what was found there before.
    pub(crate) spare: usize,
    /// The variables that are in reach there.
    pub(crate) scope: Reach<'b>,
}

/// An item of the stack of an evaluation.
#[derive(Drop)]
pub(crate) enum Stacked<'a, 'b> {
    /// What waits for the value of a part.
    Frame(Frame<'a>),
    /// Who waits for the value of a query.
    Caller(Caller<'b>),
}
