//! Laws alone: entries and what they make depend on the source models only (QVT 1.3, sections 7.2 and 7.10.2).
#![tactic(auto)]

mod laws;

pub use laws::made_values_are_of_sources;
