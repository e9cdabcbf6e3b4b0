//! The expressions of scripts, from tokens to trees (OCL 2.4, chapter 9). `specs/Grammar.antt` says which tokens spell
//! which tree, one clause for each form, and `specs/Beginnings.antt` where an expression ends and where faults stand.
//! `specs/Moves.antt` says how they are read, symbol by symbol, with the open constructs on the operator stack, and
//! `specs/Runs.antt` what the reading answers. That this is the same are the laws of the functions that do nothing.
#![tactic(auto)]

mod answer_laws;
mod closing;
mod completion_laws;
mod error;
mod expecting;
mod frame;
mod halt;
mod limits;
mod local_laws;
mod moves;
mod names;
mod operands;
mod parsing;
mod parts;
mod paths;
mod reading_laws;
mod reducing;
mod shifting;
mod stack;
mod state;
mod types;
mod written_types;

pub use answer_laws::answers_tell;
pub use completion_laws::{answers_are_exact, open_constructs_end, readings_begin, readings_end};
pub use error::ParseError;
pub use expecting::{is_sign_at, is_word_at, read_opening, read_sign, read_word, span_between};
pub use halt::{Halt, Stop};
pub use limits::MAX_NESTING;
pub use local_laws::{expressions_end, one_tree_between, own_tokens_spell};
pub use names::{read_name, read_path};
pub use parsing::{error_of, parse_expr, read_expr};
pub use reading_laws::types_are_read;
pub use written_types::read_type;
