//! What a repair of the target model means (QVT 1.3, section 7.2 on enforcement; which model is made is this engine's own). The
//! definitions stand in `specs/`, over models as lists and sets; here are the types of what they speak of.
#![tactic(auto)]

mod demand;
mod entry;
mod laws;
mod report;
mod term;

pub use demand::{Clash, Demand};
pub use entry::{Entry, EntryName, Place};
pub use laws::{
    entries_stand_in_one_order, small_entries_are_told, small_repairs_are_told,
    terms_tie_where_they_are_one,
};
pub use report::Report;
pub use term::{Term, TermValue};
