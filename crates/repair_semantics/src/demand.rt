use crate::entry::Entry;
use crate::term::{Term, TermValue};
use mof_metamodel::PropId;

/// What an item of the target template of an entry asks: that the object has this value, or is linked to this object, at the
/// property.
#[derive(Drop)]
pub struct Demand {
    /// The number of the entry in the order of entries.
    pub entry: usize,
    pub owner: Term,
    pub prop: PropId,
    pub value: TermValue,
}

/// Two demands that no model meets: the place that would get two values, and both entries with their items. An item may name
/// the link from its other end.
#[derive(Drop)]
pub struct Clash {
    pub owner: Term,
    pub prop: PropId,
    pub first: Entry,
    pub first_item: PropId,
    pub first_value: TermValue,
    pub second: Entry,
    pub second_item: PropId,
    pub second_value: TermValue,
}
