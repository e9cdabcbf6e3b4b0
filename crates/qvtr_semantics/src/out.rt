use crate::datum::Datum;
use mof_metamodel::Seq;
use qv_syntax::Kind;

/// The value of an expression (OCL 2.4, section 8.2 and annex A.2).
#[derive(Drop)]
pub enum Out {
    /// One datum.
    One(Datum),
    /// A collection. A Set and a Bag list their elements in value order, a Set and an OrderedSet each of them once.
    Many(Kind, Seq<Datum>),
    /// `null`
    Null,
    /// `invalid`
    Invalid,
}
