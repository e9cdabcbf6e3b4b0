//! Models and metamodels as files: models as JSON (RFC 8259), and metamodels as models of EMOF (MOF 2.5.1, 12.4).
//!
//! Costs: `write_json` takes time and memory by the length of the text, with a logarithm for the order of names; `emof_metamodel`
//! a constant; `metamodel_of` by the objects of the model, beside `MetaModel::new`.
#![tactic(auto)]

mod bounds;
mod description;
mod emof;
mod fault;
mod file_form;
mod file_laws;
mod files;
mod json_faults;
mod json_filed;
mod json_laws;
mod json_reading;
mod json_values;
mod json_writing;
mod metamodels;
mod names;
mod printing;
mod reflection;
mod shape;

pub use emof::emof_metamodel;
pub use fault::{FileError, JsonFault};
pub use file_form::{Form, form_of};
pub use file_laws::{
    errors_agree_on_limits, files_are_answered, files_are_one_model, json_is_read_back,
    json_tells_models, models_have_no_faults, one_error_is_told, written_json_is_read,
};
pub use files::{Read, read_any, read_metamodel};
pub use json_writing::write_json;
pub use metamodels::metamodel_of;
pub use printing::{fault_text, metamodel_fault_text};
