//! Models that get other contents, by the edits of `object_tables`: all links taken out of one, and one filled with what another holds.
//!
//! Costs: `unlink_all` takes no memory. Both calls look at each property of each object; a link costs what `unlink`, `linked` or `link` does,
//! and `fill` takes the lists that `Contents` gives, one at a time.
#![tactic(auto)]

mod contents;
mod filling;
mod ordering;
mod unlinking;

pub use contents::Contents;
pub use filling::fill;
pub use unlinking::unlink_all;
