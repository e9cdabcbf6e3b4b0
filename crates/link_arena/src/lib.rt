//! An arena of links: ends, numbered from 0, and joins between two different ends, each end with its joins in an order.
//! Contracts see an arena as a list of lists: at each end, the ends that it is joined to.
//!
//! A join is a row of two halves, twins: one stands in the list of each of its ends. All halves are in one table, and a
//! list is threaded through it: its head names its first and its last half, and a half names the next one and the one
//! before it, so that a join that is found at one end is taken off the other in constant time. A row that is free
//! stands in a list of its own, from which the next join takes it.
//!
//! `reserve` makes room for ends and joins, and additions that find room take no memory.
#![tactic(auto)]

mod arena;
mod half;
mod joins;
mod others;
mod reorder;
mod room;
mod sides;

pub use arena::Arena;
pub use others::Others;
