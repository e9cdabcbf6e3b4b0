//! The metamodels of a script and the names in reach in its expressions, and which types, models and names go together
//! (OCL 2.4, sections 7.4 and 8.2). What the forms of expressions make of them stands above.
#![tactic(auto)]

mod agreement;
mod classifier;
mod classifier_index;
mod conformance;
mod env;
mod extents;
mod fault;
mod lets;
mod limits;
mod literals;
mod look_up;
mod meaning;
mod metas;
mod naming;
mod navigation;
mod of_types;
mod outcomes;
mod part;
mod parts;
mod query_calls;
mod query_cycles;
mod scope;
mod variable;
mod written;

pub use agreement::{
    are_comparable, are_related, branches, collection_parts, fits, higher, is_null, joined_models,
    model_for, same_kind, same_type, upper,
};
pub use classifier::{Classifier, Wanted};
pub use env::Env;
pub use fault::{TypeError, TypeFault};
pub use lets::{free_name, let_variable};
pub use limits::MAX_NUMBERED;
pub use metas::Metas;
pub use naming::{kind_name, path_text, type_text};
pub use navigation::{navigated, prop_type, values};
pub use of_types::class_of;
pub use outcomes::{
    duplicate_name, exactly, model_mix, unknown_name, unknown_path, wrong_count, wrong_type,
};
pub use part::{CallsSoFar, Chained, TypedPart};
pub use parts::{one_model, trees_of, with_models};
pub use query_cycles::refuse_cycle;
pub use scope::Scope;
pub use variable::{Signature, Variable};
pub use written::written_type;
