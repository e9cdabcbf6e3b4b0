//! Laws alone: a program is no larger than the script that resolves to it (QVT 1.3, sections 7.11 and 7.13).
#![tactic(auto)]

mod sizes;

pub use sizes::clauses_are_short;
