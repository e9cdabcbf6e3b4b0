use crate::frame::{Base, CallHead, Iterated};
use qv_syntax::{Expr, Kind, Name, Path, TypeTree};

/// What may come next, with what was read of the innermost construct and is in no frame yet.
#[derive(Drop)]
pub(crate) enum State {
    /// An operand begins.
    Operand,
    /// Behind a part that binds tightest, or a call on it.
    After {
        base: Base,
    },
    /// Behind a name of a path.
    Path {
        path: Path,
    },
    /// Behind `::` in a path.
    PathName {
        path: Path,
    },
    /// Behind `let`.
    LetName {
        start: usize,
    },
    /// Behind `let name`.
    LetColon {
        start: usize,
        name: Name,
    },
    /// A type begins.
    Type,
    /// Behind the kind of a collection type.
    TypeParenthesis {
        start: usize,
        kind: Kind,
    },
    /// Behind a name of a path in a type.
    TypePath {
        path: Path,
    },
    /// Behind `::` in a type.
    TypeName {
        path: Path,
    },
    /// Behind a type.
    TypeEnd {
        ty: TypeTree,
    },
    /// Behind the kind of a collection.
    Brace {
        start: usize,
        kind: Kind,
    },
    /// Behind `.`.
    DotName {
        base: Base,
        start: usize,
    },
    /// Behind `.name`.
    Dotted {
        base: Base,
        start: usize,
        name: Name,
    },
    /// Behind `->`.
    ArrowName {
        base: Base,
        start: usize,
    },
    /// Behind `->name`.
    ArrowParenthesis {
        base: Base,
        start: usize,
        name: Name,
    },
    /// Behind `->name(`.
    ArrowFirst {
        base: Base,
        start: usize,
        name: Name,
    },
    /// Behind `->name(variable`.
    ArrowSecond {
        iterated: Iterated,
    },
    /// Behind the `(` of a call whose argument is a class.
    ClassName {
        called: CallHead,
    },
    /// Behind a name of that class.
    ClassPath {
        called: CallHead,
        path: Path,
    },
    /// Behind `::` in that class.
    ClassNext {
        called: CallHead,
        path: Path,
    },
}

/// What comes of one more symbol.
#[derive(Drop)]
pub(crate) enum Action {
    /// The symbol was read.
    Read(State),
    /// The expression ends before it.
    Whole(Expr),
    /// No expression begins with what was read and the symbol.
    Refused,
}
