//! What the model that enforcement makes keeps (QVT 1.3, section 7.2): laws on the definitions of `repair_semantics` alone.
#![tactic(auto)]

mod candidates;
mod deletions;
mod entries;
mod images;
mod keys;
mod objects;
mod readings;
mod second_look;
mod stable;

pub use candidates::{
    claims_stand, demanded_terms_are_live, demands_stand, objects_stay_or_are_gone,
    unused_identifiers_are_enough,
};
pub use deletions::deleted_objects_are_the_least_set;
pub use entries::{
    demands_go_into_slots, terms_of_entries_are_demanded, universal_terms_have_matches,
};
pub use images::different_terms_have_different_images;
pub use keys::keys_tell_objects_apart;
pub use objects::{
    demanded_terms_have_objects, different_terms_have_different_objects, images_stay,
    numbers_of_fresh_objects_lead_back,
};
pub use readings::{candidates_are_readings, enforced_models_are_readings};
pub use second_look::{repaired_models_satisfy, repairs_stay, satisfied_targets_stay};
pub use stable::{
    images_are_a_reading, satisfied_targets_are_settled, satisfied_targets_have_all_demands,
    standing_demands_change_nothing, standing_demands_have_objects,
    the_second_time_nothing_changes,
};
