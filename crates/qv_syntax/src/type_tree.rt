use crate::name::Path;
use mof_metamodel::{Boxed, Span};

/// A kind of collection (OCL 2.4, section 11.6).
#[derive(Clone, Copy, PartialEq, Eq)]
pub enum Kind {
    Set,
    Bag,
    Sequence,
    OrderedSet,
}

/// A type as it is written.
#[derive(Drop)]
pub enum TypeTree {
    /// `String`
    Str {
        span: Span,
    },
    /// `Integer`
    Int {
        span: Span,
    },
    /// `Boolean`
    Bool {
        span: Span,
    },
    /// A class or an enumeration: `C` or `M::C`.
    Named {
        path: Path,
    },
    /// A collection: `Set(T)` and its like.
    Coll {
        kind: Kind,
        of: Boxed<TypeTree>,
        span: Span,
    },
}
