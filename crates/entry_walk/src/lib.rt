//! All entries of a program, by a walk over the calls that they make (QVT 1.3, sections 7.2 and 7.10.2; entries, and that chains of calls
//! which come back to a call or grow too long are refused, are this engine's own).
//!
//! The walk begins with the entries of top relations and goes in depth over calls in where clauses. Each call is explored once, by the
//! entries that it has and the calls that they make; one that is finished is found again in an ordered table, with its height: how many
//! calls a chain may have behind it. So no chain is walked twice, and the walk is as deep as a chain may be long.
#![tactic(auto)]

mod call_key;
mod copying;
mod deep;
mod ends;
mod exploring;
mod finished;
mod ground;
mod laws;
mod walk;
mod walking;
mod whole;

pub use ends::WalkEnd;
pub use laws::walks_find_all_entries;
pub use walk::walked_entries;
