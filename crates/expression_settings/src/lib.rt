//! What is in reach of cases of expressions, by the lines that write it: metamodels, models, variables and queries; and faults of types,
//! and expressions with their types, as they are printed.
#![tactic(auto)]

mod binding;
mod faults;
mod metas;
mod models;
mod refused;
mod type_names;
mod typed_trees;
mod words;

pub use binding::{bind_query, bind_variable, param_types};
pub use faults::put_type_fault;
pub use metas::{metamodels, metamodels_named};
pub use models::{over_models, slots};
pub use refused::{Refused, put_if_refused};
pub use type_names::{meta_named, type_named};
pub use typed_trees::{put_string, put_typed_tree};
pub use words::{bool_word, kind_word, operator_word};
