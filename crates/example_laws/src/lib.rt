//! What enforcing the example of classes and tables on an empty target comes to: laws alone (QVT 1.3, sections
//! 7.2 and 7.10.2). Its entries are those of the packages, classes and attributes of the source. No chain of
//! calls is refused, no entry is unmet, no two demands are in conflict, and the model that is made is sound; so
//! nothing but memory can be wanting.
#![tactic(auto)]

mod laws;

pub use laws::{demands_are_not_refused, entries_are_of_the_source, made_targets_are_sound};
