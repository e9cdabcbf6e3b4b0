//! The bindings of entries (QVT 1.3, sections 7.2, 7.3 and 7.10.2; entries, and terms by number, are this engine's own). What the sources
//! give for a relation is joined, call by call of its when clause, with the entries of top relations that were found so far: so variables
//! for objects of the target get their terms. The entries that a call may mean are looked up by the roots that are known.
#![tactic(auto)]

mod argument;
mod arguments;
mod finding;
mod joining;
mod laws;
mod match_key;
mod match_table;
mod matching;
mod starts;

pub use finding::entry_bindings;
pub use laws::{calls_have_matches, joins_are_entry_bindings};
pub use match_table::MatchTable;
pub use matching::Match;
