//! What a file says of a model, whatever its form: the tree of its objects, what stands at their properties, its faults, and the
//! model that is put together of it.
#![tactic(auto)]

mod assembly;
mod fault;
mod filed;
mod form;
mod held;
mod role;
mod target;
mod texts;

pub use assembly::{AssemblyError, assemble, conforms_to};
pub use fault::{Externs, ModelFault};
pub use filed::{Filed, Mention, WrittenReference, WrittenValue};
pub use form::Form;
pub use held::models_are_held;
pub use role::{ObjectRole, Role};
pub use target::Target;
pub use texts::empty_text;
