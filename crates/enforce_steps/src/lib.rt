//! What an enforcement and a trace come to over models that were read (QVT 1.3, sections 7.2 and 7.10.2; what is refused, in which order, and the texts are
//! this engine's own). Both find what is demanded of the target: a program that breaks a rule is refused, a chain of entries that comes back to a call or is
//! too long, an entry that is unmet, and demands in conflict. A trace is then told. An enforcement makes the target what is demanded, looks it through, and
//! writes it as a file.
//!
//! Both take the time and memory of the demands (`demand_set`); an enforcement besides those of the model that is made and of its text, a trace those of its
//! text.
#![tactic(auto)]

mod cause;
mod counting;
mod demanding;
mod enforcing;
mod laws;
mod mending;
mod outcome;
mod output;
mod refusing;
mod step_texts;
mod tracing;

pub use cause::{Cause, StepError};
pub use counting::variables_are_few;
pub use enforcing::enforced;
pub use laws::enforced_targets_satisfy;
pub use outcome::Enforced;
pub use output::Output;
pub use step_texts::{model_text, report_text};
pub use tracing::traced;
