//! Laws alone: whether relations are satisfied doesn't depend on the numbers of the target's objects, where a program can be enforced (QVT 1.3,
//! sections 7.2 and 7.3; MOF 2.5.1, Reflection: an object is told apart by its identity, which no expression of such a program sees).
#![tactic(auto)]

mod laws;

pub use laws::same_targets_are_alike;
