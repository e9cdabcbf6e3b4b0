use crate::found::UnmetEntry;
use crate::numbered_entry::NumberedEntry;
use entry_making::NumberedCall;
use mof_metamodel::Seq;

/// An entry that is met, and the calls of its where clause.
#[derive(Drop)]
pub(crate) struct MetEntry {
    pub(crate) entry: NumberedEntry,
    pub(crate) calls: Seq<NumberedCall>,
}

/// What is found of one binding.
#[derive(Drop)]
pub(crate) enum Made {
    Met(MetEntry),
    Unmet(UnmetEntry),
}
