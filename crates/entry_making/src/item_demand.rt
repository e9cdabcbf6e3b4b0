use mof_metamodel::PropId;
use term_table::NumberedValue;

/// What an item asks of the target for an entry: that the object of the term with this number has this value, or is linked to this
/// object, at the property.
#[derive(Drop)]
pub struct ItemDemand {
    pub owner: usize,
    pub prop: PropId,
    pub value: NumberedValue,
}
