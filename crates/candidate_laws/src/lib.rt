//! What the model that enforcement makes keeps, where its demands can be placed in the target (QVT 1.3, section 7.2): laws on the
//! definitions of `repair_semantics` alone.
#![tactic(auto)]

mod kept;
mod links;
mod objects;
mod slots;

pub use kept::candidates_are_kept;
pub use links::{
    claimed_links_are_typed, claimed_values_are_typed, containers_are_claimed_once,
    links_are_claimed_at_both_ends,
};
pub use objects::{numbers_are_apart, objects_conform_to_their_terms};
pub use slots::{slots_are_kept_or_claimed, slots_of_candidates};
