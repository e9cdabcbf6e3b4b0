use mof_metamodel::{Boxed, Seq, Span};
use qv_syntax::{Expr, Infix, Kind, Name, Operator, Path, Postfix, TypeTree};

/// An expression and where it stands.
#[derive(Drop)]
pub(crate) struct Subtree {
    pub(crate) tree: Boxed<Expr>,
    pub(crate) span: Span,
}

/// A part that binds tightest, and what is called on it so far.
#[derive(Drop)]
pub(crate) struct Base {
    pub(crate) of: Boxed<Expr>,
    pub(crate) steps: Seq<Postfix>,
    pub(crate) span: Span,
}

/// What stands before the name of a call, with the start of its sign.
#[derive(Drop)]
pub(crate) enum Before {
    Nothing,
    Dot { base: Base, start: usize },
    Arrow { base: Base, start: usize },
}

/// A call behind `.` or `->` up to its name.
#[derive(Drop)]
pub(crate) struct PostfixHead {
    pub(crate) base: Base,
    pub(crate) start: usize,
    pub(crate) name: Name,
}

/// A call up to its `(`.
#[derive(Drop)]
pub(crate) struct CallHead {
    pub(crate) before: Before,
    pub(crate) name: Name,
}

/// An iterator up to its variable.
#[derive(Drop)]
pub(crate) struct Iterated {
    pub(crate) base: Base,
    pub(crate) start: usize,
    pub(crate) name: Name,
    pub(crate) variable: Name,
}

/// Subtrees with operators of one level between them, and behind them one more operator of the level.
#[derive(Drop)]
pub(crate) struct Row {
    pub(crate) first: Subtree,
    pub(crate) rest: Seq<Infix>,
    pub(crate) operator: Operator,
}

/// A construct that is open, with what has been read of it.
#[derive(Drop)]
pub(crate) enum Frame {
    /// `let name :`, and a type is read.
    LetType {
        start: usize,
        name: Name,
    },
    /// `let name : type =`, and the value is read.
    Let {
        start: usize,
        name: Name,
        ty: TypeTree,
    },
    /// `let name : type = value in`, and the body is read.
    In {
        start: usize,
        name: Name,
        ty: TypeTree,
        value: Boxed<Expr>,
    },
    /// `not`
    Not {
        start: usize,
    },
    /// `-`
    Negated {
        start: usize,
    },
    /// Parts with operators of one level between them, and behind them one more operator of the level.
    Row {
        first: Subtree,
        rest: Seq<Infix>,
        operator: Operator,
    },
    /// `(`
    Parens {
        start: usize,
    },
    /// `if`
    If {
        start: usize,
    },
    /// `if condition then`
    Then {
        start: usize,
        condition: Boxed<Expr>,
    },
    /// `if condition then one else`
    Else {
        start: usize,
        condition: Boxed<Expr>,
        one: Boxed<Expr>,
    },
    /// `Set {`, and elements so far, each with a `,`.
    Elements {
        start: usize,
        kind: Kind,
        elements: Seq<Expr>,
    },
    /// `name (`, and arguments so far, each with a `,`.
    Arguments {
        called: CallHead,
        values: Seq<Expr>,
    },
    /// `->name ( variable :`, and a type is read.
    VariableType {
        iterated: Iterated,
    },
    /// `->name ( variable : type |`, and the body is read.
    Body {
        iterated: Iterated,
        ty: Option<TypeTree>,
    },
    /// `Set (` in a type.
    OfKind {
        start: usize,
        kind: Kind,
    },
}
