use mof_metamodel::{ClassId, Seq};
use qvtr_semantics::Datum;

/// An object of the target, by what tells it apart: a class that has a key, and the values of the key's properties in the
/// key's order (QVT 1.3, section 7.10.2).
#[derive(Drop)]
#[cycle(term)]
pub struct Term {
    pub class: ClassId,
    pub keys: Seq<TermValue>,
}

/// A value of a variable or of an item: a datum or a source object, or an object of the target.
#[derive(Drop)]
#[cycle(term)]
pub enum TermValue {
    /// A value of a data type, or an object of a source model.
    Val(Datum),
    /// An object of the target.
    Term(Term),
}
