//! When a program can be enforced towards its target: the rules E1 to E11, asked of each relation of the direction (QVT 1.3, sections 7.2,
//! 7.9 and 7.10.2).
#![tactic(auto)]

mod calls;
mod class_key;
mod clause;
mod derivations;
mod edges;
mod enforcement;
mod expressions;
mod fault;
mod key_cycles;
mod key_table;
mod keys;
mod known;
mod laws;
mod mention;
mod mentions;
mod number_set;
mod patterns;
mod readers;
mod rules;
mod standing;
mod target;
mod task;
mod templates;
mod two_keys;
mod variables;

pub use enforcement::enforceable;
pub use fault::{NotEnforceable, RuleError};
pub use laws::{broken_is_refused, one_broken, rules_are_kept};
pub use standing::Place;
pub use variables::variables_of;
