use entry_bindings::MatchTable;
use entry_finding::{NumberedEntry, UnmetEntry};
use entry_making::NumberedCall;
use mof_metamodel::Seq;

/// The entries of top relations, the calls that they make, in the order of the entries and of the text, and what calls in when clauses look
/// for: the names of those entries all of whose roots have values.
#[derive(Drop)]
pub struct Tops {
    pub entries: Seq<NumberedEntry>,
    pub calls: Seq<NumberedCall>,
    pub matches: MatchTable,
}

/// What the search for the entries of top relations ends with: all of them, or one that is unmet.
#[derive(Drop)]
pub enum TopsEnd {
    Met(Tops),
    Unmet(UnmetEntry),
}
