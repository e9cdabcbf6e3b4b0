//! Laws alone: what an expression or the source of a relation gives depends on the source models only, where neither speaks of objects of
//! the target model (QVT 1.3, section 7.10.2). Two lists of models that agree but for the target then give the same values, the same
//! bindings of the source and the same calls.
#![tactic(auto)]

mod laws;

pub use laws::{
    bindings_are_of_sources, calls_are_of_sources, expressions_are_of_sources,
    rule_keeps_to_sources, small_relation_hands_target_on, values_are_of_sources,
};
