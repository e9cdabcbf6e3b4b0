use mof_metamodel::{ClassId, Seq};
use qv_syntax::Typed;

/// Where the value of an item, of a key property or of an argument comes from.
#[derive(Clone, Copy)]
pub enum Origin<'p> {
    /// Nowhere: there is none.
    Nothing,
    /// It is that of a variable.
    Variable(u32),
    /// It is that of an expression, which is no variable alone.
    Expression(&'p Typed),
}

/// An equation: a variable, and the expression whose value it has.
#[derive(Clone, Copy)]
pub(crate) struct Equation<'p> {
    pub(crate) variable: u32,
    pub(crate) expression: &'p Typed,
}

/// A variable for which a relation makes terms: their class, and where the values of its key properties come from.
#[derive(Drop)]
pub(crate) struct Keyed<'p> {
    pub(crate) variable: usize,
    pub(crate) class: ClassId,
    pub(crate) keys: Seq<Origin<'p>>,
}
