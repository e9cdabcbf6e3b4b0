//! The entries of top relations (QVT 1.3, sections 7.2 and 7.10.2; entries, and terms by number, are this engine's own). Relations are taken
//! in the order of their strata: the calls in the when clause of a relation lead to relations of lesser strata, all of whose entries have
//! been found by then. The order takes the time of a sort of the relations, and each relation that of finding its entries.
#![tactic(auto)]

mod names;
mod order;
mod ranked;
mod search;
mod tops;

pub use search::top_entries;
pub use tops::{Tops, TopsEnd};
