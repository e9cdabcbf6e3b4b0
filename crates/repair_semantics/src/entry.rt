use crate::term::TermValue;
use mof_metamodel::{PropId, Seq};

/// A call of a relation: the relation by its number, and the values of the roots of its domains in their order.
#[derive(Drop)]
pub struct EntryName {
    pub rel: u32,
    pub roots: Seq<TermValue>,
}

/// A relation with values of its variables: one binding of it that enforcement has to fulfil. Both lists have one place for
/// each variable of the relation.
#[derive(Drop)]
pub struct Entry {
    pub rel: u32,
    /// Whether it comes from a call in a where clause; else it is one of a top relation.
    pub called: bool,
    /// The values of the universal variables and of the roots that the call gives.
    pub values: Seq<Option<TermValue>>,
    /// The values that equations and keys give to the other variables.
    pub made: Seq<Option<TermValue>>,
}

/// Where an entry can't be fulfilled.
#[derive(Clone, Copy)]
pub enum Place {
    /// A conjunct of the where clause, counted from 1.
    Where(u32),
    /// An item of the target template at this property.
    Item(PropId),
}
