//! What tests of models are built with: metamodels that are described by a short text, and an editor of models that tests
//! what each edit asks.
#![tactic(auto)]

mod description;
mod editor;
mod refusal;

pub use description::described;
pub use editor::Editor;
pub use refusal::Refusal;
