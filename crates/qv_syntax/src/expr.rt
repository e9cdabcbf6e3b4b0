use crate::literal::Literal;
use crate::name::{Name, Path};
use crate::operator::Operator;
use crate::type_tree::{Kind, TypeTree};
use mof_metamodel::{Boxed, Seq, Span};

/// An expression as it is written (OCL 2.4, chapter 9): one variant for each form of the grammar, with the bytes at
/// which it stands. Parentheses are a form of their own. What is written as a chain, as `a + b - c` or `a.b->c()`, is
/// one node with a list, so that a tree is no deeper than what nests.
#[derive(Drop)]
#[cycle(expr)]
pub enum Expr {
    /// `let name : type = value in body`
    Let {
        name: Name,
        ty: TypeTree,
        value: Boxed<Expr>,
        body: Boxed<Expr>,
        span: Span,
    },
    /// Parts with operators of one level between them, at least one.
    Chain {
        first: Boxed<Expr>,
        rest: Seq<Infix>,
        span: Span,
    },
    /// `not operand`
    Not {
        operand: Boxed<Expr>,
        span: Span,
    },
    /// `- operand`
    Negated {
        operand: Boxed<Expr>,
        span: Span,
    },
    /// A part and what is called on it, at least one call.
    Calls {
        of: Boxed<Expr>,
        calls: Seq<Postfix>,
        span: Span,
    },
    /// Decimal digits.
    Number {
        value: i64,
        span: Span,
    },
    /// `'text'`
    Str {
        value: Literal,
        span: Span,
    },
    /// `true` and `false`
    Bool {
        value: bool,
        span: Span,
    },
    /// `null`
    Null {
        span: Span,
    },
    /// `invalid`
    Invalid {
        span: Span,
    },
    /// `( inner )`
    Parens {
        inner: Boxed<Expr>,
        span: Span,
    },
    /// `if condition then one else other endif`
    If {
        condition: Boxed<Expr>,
        one: Boxed<Expr>,
        other: Boxed<Expr>,
        span: Span,
    },
    /// `Set { elements }` and its like
    Coll {
        kind: Kind,
        elements: Seq<Expr>,
        span: Span,
    },
    /// `name ( args )`
    Call {
        name: Name,
        args: Args,
        span: Span,
    },
    /// A variable, a class or a literal of an enumeration.
    Named {
        path: Path,
    },
}

/// An infix operator with the operand behind it (OCL 2.4, section 7.4.8).
#[derive(Drop)]
#[cycle(expr)]
pub struct Infix {
    pub operator: Operator,
    pub right: Expr,
}

/// A call behind `.` or `->`, on what stands before it (OCL 2.4, section 8.3, CallExp).
#[derive(Drop)]
#[cycle(expr)]
pub enum Postfix {
    /// `.name`
    Property {
        name: Name,
    },
    /// `.name(args)`
    Dot {
        name: Name,
        args: Args,
        span: Span,
    },
    /// `->name(args)`
    Arrow {
        name: Name,
        args: Args,
        span: Span,
    },
    /// `->name(variable : type | body)`, the type left out or not
    Iterator {
        name: Name,
        variable: Name,
        ty: Option<TypeTree>,
        body: Boxed<Expr>,
        span: Span,
    },
}

/// What stands between the parentheses of a call.
#[derive(Drop)]
#[cycle(expr)]
pub enum Args {
    /// Expressions.
    Values { values: Seq<Expr> },
    /// The class of `oclIsKindOf`, `oclIsTypeOf` and `oclAsType`.
    Class { path: Path },
}
