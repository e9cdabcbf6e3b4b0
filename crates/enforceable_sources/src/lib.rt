//! Laws alone: the relations of an enforceable program hand objects of the target only on, so that what their sources give depends on the
//! source models only (QVT 1.3, section 7.10.2).
#![tactic(auto)]

mod laws;

pub use laws::enforceable_relations_hand_target_on;
