//! The entries of a relation with some roots (QVT 1.3, sections 7.2, 7.3 and 7.10.2; entries, and terms by number, are this engine's own):
//! their bindings, what they make, the calls of their where clauses and what the items of their target templates demand, or the first place
//! at which one of them is unmet. What doesn't depend on the roots is found once for a relation.
#![tactic(auto)]

mod all_made;
mod finding;
mod found;
mod made;
mod making;
mod numbered_entry;
mod preparation;
mod preparing;
mod values;

pub use finding::{Rooted, World, entries_with};
pub use found::{Finding, Found, UnmetEntry};
pub use numbered_entry::NumberedEntry;
pub use preparation::Preparation;
pub use preparing::preparations;
