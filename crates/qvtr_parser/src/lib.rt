//! Scripts in QVT Relations, from tokens to trees (QVT 1.3, section 7.13, the concrete syntax). `specs/Grammar.antt` says which
//! tokens spell which tree, one clause for each production, above the grammar of expressions: exactly what all tokens spell is
//! answered. `specs/Beginnings.antt` says which token is the first with which no script goes on, or that opens a level too many. `specs/ScriptReadings.antt` says how scripts are read: a
//! function for each production, chosen by the token with which it begins, and lists in loops, so that only what counts as
//! nesting recurses.
#![tactic(auto)]

mod domains;
mod exprs;
mod laws;
mod names;
mod queries;
mod relations;
mod scripts;
mod templates;

pub use laws::{answers_tell, beginnings_begin, tokens_are_one_script};
pub use ocl_parser::ParseError;
pub use scripts::parse_script;
