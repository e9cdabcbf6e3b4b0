use mof_metamodel::Seq;
use term_table::NumberedValue;

/// A call of a relation, by its number, with the values of the roots of its domains in their order.
#[derive(Drop)]
pub struct NumberedCall {
    pub rel: u32,
    pub roots: Seq<NumberedValue>,
}
