//! The target becomes what enforcement makes of it (QVT 1.3, section 7.2 on enforcement; which model it makes is this engine's own). The model is
//! made beside the target from what the target has and what is demanded, is looked through for a breach, and takes the target's place
//! when the edits are applied, which takes no memory. Until then the target is as it was.
#![tactic(auto)]

mod edits;
mod error;
mod looking;
mod making;
mod plan;
mod preparing;
mod reporting;
mod slots;

pub use edits::Edits;
pub use error::EnforceError;
pub use preparing::prepare;
