//! Types of expressions (OCL 2.4, chapters 9 and 11): the metamodels of a script, the names in reach, and what they
//! give to the expressions that use them.
#![tactic(auto)]

mod collection_operations;
mod laws;
mod operations;
mod queries;
mod signatures;
mod trees;
mod typing;
mod typing_collections;
mod typing_literals;
mod typing_operators;
mod typing_scopes;
mod typing_steps;

pub use laws::{
    calls_are_told, conformance_is_told, declared_types_are_told, one_type_is_had,
    operations_are_told, queries_are_typed, query_typing_is_told, rules_are_told, trees_are_typed,
    types_agree_on_a_top, types_are_told_apart, typing_is_told,
};
pub use ocl_environments::{Env, Metas, TypeError, TypeFault};
pub use queries::{type_queries, variable_type};
pub use typing::{type_expr, type_whole};
