//! The values of expressions (OCL 2.4, chapter 11): `eval` gives what `qvtr_semantics` says an expression is. It is a machine that goes
//! through the expression step by step: what waits for the value of a part is a frame on a stack of its own, so that no depth of an
//! expression, and no number of queries that call one another, is paid from the stack of the program. An evaluation takes time and memory
//! linear in what it looks at, with a logarithm for Sets and Bags. A query that calls others is computed once for the same arguments,
//! where none of them is a collection or a long String. A chain of `+` or `concat` looks at each part once, and one of `including` or
//! `union` takes the time of its elements, with a logarithm.
//!
//! Below it stand the operations on values: on single data, Integers, Strings, Booleans and collections, and what an iterator gives of
//! the values of its body. Each function gives what its definition in `qvtr_semantics` says; an operation on a collection is
//! `on_collection`, an iterator a `Progress` that is `advanced` by each value of the body. A function takes the time of the values that it
//! is given, and where a repeat or an order matters (Sets, Bags, OrderedSets, `includesAll`, `excludesAll`, `isUnique`) that times the
//! logarithm of their number. A result of more elements or characters than `MAX_RESULT` is invalid. A chain of `+` or `concat`, which is a
//! `Running`, takes the time of its parts.
#![tactic(auto)]

pub mod boolean_laws;
mod booleans;
mod classes;
pub mod collection_laws;
pub mod collections;
pub mod comparing;
mod datum;
mod equality;
mod evaluation;
mod frame;
mod growing;
mod integers;
pub mod kinds;
mod machine;
mod memo;
mod met;
mod met_outs;
mod models;
mod navigation;
mod on_collections;
mod operations;
mod operators;
mod order;
mod ordering;
mod out_order;
mod outs;
mod progress;
mod query_call;
mod ranked;
mod ranked_out;
mod reach;
mod reached;
mod running;
mod scope;
mod spelling;
mod strings;
mod world;

pub use booleans::{and, implies, negation, or, xor};
pub use classes::{extent_of, is_of_class};
pub use datum::{duplicate_data, duplicate_datum, duplicate_out, same_datum, same_value};
pub use equality::{equal, is_defined, same_kind, unequal};
pub use evaluation::{eval, eval_in, holds};
pub use integers::{
    absolute, integer, maximum, minimum, minus, negated, plus, quotient, remainder, sum, times,
};
pub use kinds::literal;
pub use models::Models;
pub use navigation::held_at;
pub use on_collections::on_collection;
pub use order::{before, datum_order};
pub use ordering::{in_order, set_in_order};
pub use outs::{
    boolean, boolean_of, collection_of, datum_of, integer_of, integer_of_datum, string_of, truth,
};
pub use progress::{Progress, iterator_result};
pub use qvtr_semantics::{Binding, Datum, Out};
pub use running::Running;
pub use scope::Scope;
pub use spelling::to_integer;
pub use strings::{boolean_text, integer_text, size, string, substring};
