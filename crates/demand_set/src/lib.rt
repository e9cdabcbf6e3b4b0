//! From the sources of a program to what enforcement has to fulfil (QVT 1.3, sections 7.2 and 7.10.2): all entries in their order, what they
//! demand of the target, and the objects of the target that are demanded; or why there is no such set. All goes by the numbers that a table
//! gives to terms: the entries are sorted by them, and demands are moved out of their entries. Trees are made only of what is asked for.
#![tactic(auto)]

mod clash;
mod demand_error;
mod finding;
mod listing;
mod ordering;
mod set;
mod terms;
mod trees;

pub use demand_error::DemandError;
pub use finding::demands;
pub use set::{DemandSet, NumberedDemands};
