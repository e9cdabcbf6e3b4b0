use entry_finding::{NumberedEntry, UnmetEntry};
use entry_making::NumberedCall;
use mof_metamodel::Seq;

/// What comes of a walk over the calls of entries.
#[derive(Drop)]
pub enum WalkEnd {
    /// All entries: those of top relations, and those of calls.
    Whole(Seq<NumberedEntry>),
    /// A chain of calls that comes back to one of them.
    Cycle(Seq<NumberedCall>),
    /// A chain without a repeat that has one call more than it may have.
    Deep(Seq<NumberedCall>),
    /// An entry that is unmet.
    Unmet(UnmetEntry),
}

/// How many calls a chain has at most that begins with one of some calls, and the place of one that begins such a chain.
#[derive(Clone, Copy)]
pub(crate) struct Height {
    pub(crate) height: usize,
    pub(crate) behind: Option<usize>,
}

/// A call has been walked and stands at a place, or the walk has come to an end.
#[derive(Drop)]
pub(crate) enum Reached {
    At(usize),
    Ended(WalkEnd),
}

/// Calls have been walked, or the walk has come to an end.
#[derive(Drop)]
pub(crate) enum Reaches {
    All(Height),
    Ended(WalkEnd),
}
