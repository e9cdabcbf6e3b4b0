use mof_metamodel::PropId;
use qv_syntax::Typed;

/// What an item of the target template puts into its slot.
#[derive(Clone, Copy)]
pub enum Content<'p> {
    /// Nothing: the slot is to be empty.
    Empty,
    /// The value of an expression.
    Expression(&'p Typed),
    /// The object of the template with this variable, which stands within.
    Template(u32),
}

/// An item of the target template, with the variable of the template in which it stands.
#[derive(Clone, Copy)]
pub struct OwnedItem<'p> {
    pub owner: u32,
    pub prop: PropId,
    pub content: Content<'p>,
}
