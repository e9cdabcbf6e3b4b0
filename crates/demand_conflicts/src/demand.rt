use mof_metamodel::PropId;
use term_table::NumberedValue;

/// A demand whose terms go by their numbers in a table: that the object has this value, or is linked to this object, at the property.
#[derive(Drop)]
pub struct NumberedDemand {
    /// The number of the entry in the order of entries.
    pub entry: usize,
    pub owner: usize,
    pub prop: PropId,
    pub value: NumberedValue,
}
