//! Laws alone: what the entries of a program that can be enforced demand is of its property's type, and objects of the class of each demanded term
//! can be made (QVT 1.3, section 7.10.2; MOF 2.5.1, Reflection).
#![tactic(auto)]

mod laws;

pub use laws::{demanded_terms_are_concrete, demands_are_typed};
