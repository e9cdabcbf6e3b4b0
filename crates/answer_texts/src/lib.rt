//! What is printed of values, of bindings, and of chains of calls (the forms are this engine's own).
#![tactic(auto)]

mod asked;
mod joining;
mod quoting;
mod telling;

pub use asked::Asked;
pub use joining::{add_all, concatenate};
