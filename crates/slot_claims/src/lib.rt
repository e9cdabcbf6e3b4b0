//! What the demands of a repair claim of slots and containers of the target's objects, and what each slot holds afterwards (QVT 1.3,
//! section 7.2 on enforcement; which model it makes is this engine's own). The claims stand in one list, in an order by places, so that
//! those of a place are found in the logarithm of their number. What a slot holds afterwards is found in the time of its old elements
//! and claimed ones times the logarithm of their number and of that of all claims.
#![tactic(auto)]

mod added;
mod claim;
mod claim_table;
mod claiming;
mod demanding;
mod held_value;
mod laws;
mod old_elements;
mod ordering;
mod slot_contents;

pub use claim_table::ClaimTable;
pub use held_value::HeldValue;
pub use laws::{claims_are_the_demands, claims_stand_in_order};
pub use slot_contents::{Repair, contents};
