//! The objects of the model that enforcement makes of a target (QVT 1.3, section 7.2; which these are is this engine's own): which object each
//! demanded term is, and the model with these objects, without links.
#![tactic(auto)]

mod identifiers;
mod numbers;
mod objects;

pub use numbers::{TermNumbers, term_numbers};
pub use objects::made_objects;
