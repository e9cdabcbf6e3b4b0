//! Laws alone: over a model of the target in which terms have objects, bindings are entries, and entries have their partners
//! (QVT 1.3, sections 7.2, 7.3 and 7.10.2).
#![tactic(auto)]

mod entries;
mod items;
mod laws;
mod meeting;
mod roots;

pub use entries::{
    called_entries_come_in_time, calls_are_read, matches_are_entries, readings_satisfy,
};
pub use items::templates_match_by_items;
pub use laws::partners_are_read;
pub use meeting::{entries_are_complete, entries_meet_their_sources, entries_meet_their_targets};
pub use roots::entries_have_their_roots;
