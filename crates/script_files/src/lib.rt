//! Scripts as files: from the bytes of a text to its tree, or to the one fault that is told of it, and how the faults of scripts are
//! printed (QVT 1.3, section 7.13, the concrete syntax).
//!
//! Costs: those of `lex` and `parse_script`; what is printed takes time and memory in proportion to the line.
#![tactic(auto)]

mod error;
mod laws;
mod printing;
mod reading;

pub use error::ScriptError;
pub use laws::{
    each_text_is_told, one_error_is_told, scripts_have_no_faults, texts_are_one_script,
};
pub use printing::{script_fault_text, type_fault_text};
pub use reading::read_script;
