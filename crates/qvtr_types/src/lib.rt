//! Names and types of scripts (QVT 1.3, section 7.11): what a script resolves to.
//!
//! `resolve` gives the program that a script resolves to in the direction towards a target, or a fault that stands in the script. Which
//! program that is, and which faults stand, is defined in `specs/Resolutions` and `specs/Faults` of the crate `script_scopes`, by names and
//! as sets. A script resolves to one program at most (`programs_are_one`), which is well formed (`resolutions_are_well_formed`).
//!
//! `enforceable` says whether a program can be enforced towards its target, and else which relation breaks which rule.
//!
//! Its parts are `resolve_queries`, `resolve_keys` and, for each relation whose declarations are in order, `resolve_domains`, which gives
//! the domains with their templates, and the resolution of both clauses.
//!
//! All take time and memory in proportion to the text, but that typing looks up each name once more.
#![tactic(auto)]

mod clauses;
mod declared_variables;
mod domain_scope;
mod domains;
mod equations;
mod expressions;
mod items;
mod keys;
mod laws;
mod lone_arguments;
mod met_classes;
mod program_laws;
mod properties;
mod relation_scope;
mod relations;
mod resolved_conjuncts;
mod resolved_scripts;
mod roots;
mod script_queries;
mod templates;
mod well_formed_laws;

pub use domains::{RelationScope, resolve_domains};
pub use enforcement_rules::{NotEnforceable, RuleError, enforceable};
pub use expressions::{WantedValue, type_arguments, type_condition, type_equation, type_given};
pub use keys::resolve_keys;
pub use laws::{expression_faults_are_told, one_name_fault, places_are_told, variables_are_told};
pub use program_laws::programs_are_one;
pub use relation_scope::bind_variables;
pub use resolved_scripts::resolve;
pub use script_queries::resolve_queries;
pub use script_scopes::{NameFault, names_match};
pub use well_formed_laws::resolutions_are_well_formed;
