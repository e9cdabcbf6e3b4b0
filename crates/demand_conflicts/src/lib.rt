//! Conflicts between demands (that such demands are refused is this engine's own). Demands go by the numbers that a table gives to terms.
//! Each claim of a demand on a single place is looked up in an ordered table of what was claimed first of each place, so the search
//! takes at most four look-ups for a demand, each the logarithm of the number of places. It copies no values.
#![tactic(auto)]

mod claiming;
mod claims;
mod conflict;
mod demand;
mod told;

pub use conflict::{FoundConflict, conflict_among};
pub use demand::NumberedDemand;
