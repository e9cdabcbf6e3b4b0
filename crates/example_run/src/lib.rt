//! The example of classes and tables, run in memory (QVT 1.3, sections 7.2 and 7.10.2): a source of any size, its transformation enforced on an empty
//! target, checked, and enforced again. No file is read, and no text is made of the target.
//!
//! It takes the time and memory of the demands (`demand_set`), twice, of the model that is made and of one check.
#![tactic(auto)]

mod memory;
mod models;
mod outcome;
mod repairing;
mod running;
mod second_look;
mod summary;

pub use running::run_example;
pub use summary::Summary;
