//! Laws alone: the entries of a program, the chains of their calls, whether they are unmet and what they demand depend on the source models
//! only (QVT 1.3, sections 7.2 and 7.10.2).
#![tactic(auto)]

mod laws;

pub use laws::{demands_are_of_sources, entries_are_of_sources};
