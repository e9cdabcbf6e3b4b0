//! Laws alone, on what `demand_set` finds and `enforce_mode` makes of it (QVT 1.3, sections 7.2 and 7.10.2): the demands of a program can be made of
//! its target; what is made satisfies the relations, also where it is read back with other numbers; and a second run changes nothing.
#![tactic(auto)]

mod demands;
mod reports;
mod satisfying;
mod staying;
mod targets;

pub use demands::{demand_sets_are_demands, demand_sets_are_one};
pub use reports::{same_models_are_unchanged, unchanged_reports_are_exact};
pub use satisfying::{
    made_models_satisfy, other_targets_satisfy, read_back_models_satisfy, satisfied_over_same,
};
pub use staying::{made_models_stay, satisfied_models_stay};
pub use targets::{demand_sets_are_of_sources, targets_are_replaced};
