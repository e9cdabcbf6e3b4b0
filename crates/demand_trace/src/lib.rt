//! The trace of an enforcement (QVT 1.3, section 7.10.1): the entries of a set of demands, by the names of relations, variables, classes and properties,
//! as `trace_log` writes and reads it.
//!
//! Costs: time and memory by the length of the trace's text. Names are found by number and the keys of classes in a table; the demands of an entry
//! stand behind those of the entry before.
#![tactic(auto)]

mod data;
mod entries;
mod key_places;
mod laws;
mod names;
mod terms;
mod tracing;

pub use laws::variables_are_told_once;
pub use tracing::trace_of;
