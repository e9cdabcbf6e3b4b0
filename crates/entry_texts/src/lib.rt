//! What is printed where a program can't be enforced: the rule that a relation breaks, demands in conflict, an entry that is unmet, and a chain
//! of entries that is refused (the forms are this engine's own). Time and memory in proportion to the text, the program and the metamodel
//! of the target; the recursion goes as deep as a term is high.
#![tactic(auto)]

mod entries;
mod key_places;
mod names;
mod refusing;
mod target;
mod terms;

pub use refusing::{conflict_text, entry_cycle_text, entry_deep_text, rule_text, unmet_text};
