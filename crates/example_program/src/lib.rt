//! The example's transformation from classes to tables, as a program with its names resolved (QVT 1.3, section 7.11): what its text in
//! `examples/classes_to_tables` resolves to. It takes no time or memory to speak of.
#![tactic(auto)]

mod columns;
mod expressions;
mod keys;
mod laws;
mod models;
mod patterns;
mod program;
mod relation;
mod tables;
mod variables;

pub use laws::{main_program_is_enforceable, main_program_is_small, main_program_is_well_formed};
pub use program::main_program;
