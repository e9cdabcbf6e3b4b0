//! A table of terms (QVT 1.3, section 7.10.2 on keys; their numbers are this engine's own): each term once, named by its number, so
//! that equal terms are one number, and to compare, to sort and to look up copies no trees. A term is kept by the numbers of the terms
//! among its key values. To intern one takes the logarithm of the table's size, to compare two the time of their key values along one
//! path. A term as a tree is made where it is asked for, with a stack as deep as it is high.
#![tactic(auto)]

mod comparing;
mod copying;
mod kept;
mod numbered;
mod sorting;
mod table;
mod trees;

pub use copying::{duplicate_numbered, same_numbered};
pub use numbered::{NumberedTerm, NumberedValue};
pub use table::TermTable;
