use entry_making::ItemDemand;
use mof_metamodel::Seq;
use term_table::NumberedValue;

/// An entry, in which a term is the number that it has in a table. Each list of values has a place for each variable of the relation.
#[derive(Drop)]
pub struct NumberedEntry {
    pub rel: u32,
    /// Whether it comes from a call in a where clause; else it is one of a top relation.
    pub called: bool,
    /// The values of the universal variables and of the roots that the call gives.
    pub values: Seq<Option<NumberedValue>>,
    /// The values that equations and keys give to the other variables.
    pub made: Seq<Option<NumberedValue>>,
    /// What the items of its target template demand, in the order of the text.
    pub demands: Seq<ItemDemand>,
}
