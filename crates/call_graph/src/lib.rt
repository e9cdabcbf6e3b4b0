//! Calls between things that are numbered from 0: whether one lies on a cycle of calls, and which; and of calls of two
//! kinds, in when and in where clauses, the greatest number of when calls on a path. A graph is a list with, for each
//! thing, the numbers of those that it calls.
//!
//! `find_cycle` walks the calls depth first, with a path of its own in place of a recursion. It looks at each call
//! twice at most. `strata` walks the calls of both kinds so, and keeps together the nodes that reach each other; when
//! it leaves such a group, it goes over the calls of its nodes once more.
#![tactic(auto)]

mod cycle;
mod layers;
mod mark;
mod standing;
mod step;
mod tops;
mod walk;

pub use cycle::find_cycle;
pub use layers::Layers;
pub use walk::strata;
