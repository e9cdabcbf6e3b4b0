//! The variables of a script's relations with their types and models (QVT 1.3, sections 7.11.1 and 7.13).
//!
//! `relation_variables` gives the variables of a relation in their order, each with its type, and each object variable with its model, or a
//! fault that stands in what the relation declares: a class or a type that isn't there, a template over another model, a variable with two
//! types or with none, a data variable that nothing binds. It takes time in proportion to the relation's text.
#![tactic(auto)]

mod bindings;
mod derivations;
mod resolved_variables;
mod variable_types;
mod variables;

pub use resolved_variables::{ScriptTables, relation_variables, script_tables};
