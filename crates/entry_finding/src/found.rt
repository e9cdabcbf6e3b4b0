use crate::numbered_entry::NumberedEntry;
use entry_making::NumberedCall;
use mof_metamodel::Seq;
use repair_semantics::Place;

/// The entries of a relation with some roots, and the calls that they make, in the order of the entries and of the text.
#[derive(Drop)]
pub struct Found {
    pub entries: Seq<NumberedEntry>,
    pub calls: Seq<NumberedCall>,
}

/// An entry that is unmet, and the first place in the order of the text at which it is.
#[derive(Drop)]
pub struct UnmetEntry {
    pub entry: NumberedEntry,
    pub place: Place,
}

/// What is found of a relation with some roots: all its entries, or one that is unmet.
#[derive(Drop)]
pub enum Finding {
    Met(Found),
    Unmet(UnmetEntry),
}
