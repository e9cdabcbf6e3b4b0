//! Calls between relations (QVT 1.3, sections 7.3 and 7.10.2): a call in a when clause asks for a match, one
//! in a where clause that the called relation holds for its roots. Every call that a binding makes is asked,
//! also where the answer is clear without it, so that a chain of calls that comes back to one of its calls,
//! or has more than `MAX_CALLS`, is refused whatever the answer would be. Answers are kept in a `Memo`, of a
//! call in a where clause with its height, the calls of the longest chain that begins with it: so each call
//! is explored once, and the time doesn't grow with the number of paths of calls. The bindings of a
//! relation are joined with the matches of the relations that its when clause calls, where all of these are
//! calm: by their calls no chain that is refused is come to, so a binding that stands in no match needn't be
//! looked at. The data at the roots of the matches of a calm relation are kept as a table, which is given up
//! beyond four rows an object. A top relation whose when clause calls others is looked at for one object of
//! its source after another: what is found for one is let go before the next. Calls under way stand in
//! frames on a list, so no depth of calls takes the stack: a binding is judged by the answers that are kept,
//! and where one is missing, the calls of the binding are asked first.
#![tactic(auto)]

mod asking;
mod call_key;
mod calls;
mod calm;
mod chain;
mod clause_call;
mod copying;
mod error;
mod failing;
mod found;
mod frame;
mod joins;
mod judging;
mod laws;
mod making;
mod matches;
mod memo;
mod name;
mod outcome;
mod root_key;
mod seeds;
mod stepping;
mod visit;

pub use calls::{failing_binding, holds_call, match_call};
pub use error::CallError;
pub use laws::{chains_are_seen, least_is_one, longest_chain_is_enough, matches_need_no_strata};
pub use memo::Memo;
pub use name::CallName;
