//! The check of a transformation (QVT 1.3, sections 7.2.1, 7.9 and 7.10.2): whether the top relations of its direction are satisfied, and
//! else the least binding that fails. Every chain of calls that is reached is looked at, whatever the verdict.
#![tactic(auto)]

mod checking;
mod laws;
mod verdict;

pub use checking::check;
pub use laws::verdicts_are_one;
pub use verdict::Verdict;
