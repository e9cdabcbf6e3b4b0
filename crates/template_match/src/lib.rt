//! Bindings of the variables of a relation (QVT 1.3, sections 7.2, 7.10.1 and 7.11.1.4): those that meet its
//! source, and those that meet its target for a binding of the source. A search gives one variable a value after
//! another: from a conjunct `v = e`, from a slot of an object that has been chosen, from the objects at one of
//! whose properties a value stands that an item, a condition or an equation asks for, from rows of tables in
//! which the bindings are to stand (`joined_bindings`), or from the objects of its class. It takes what gives the
//! fewest values, of a few that it compares. A partial binding is dropped as soon as an item or a conjunct is
//! against it all of whose variables have values, or no row of a table has its values; each full binding is tested
//! by all that its side and the tables ask.
//! A search takes the time of the bindings that it looks at. A partial one costs what names the variable that was
//! given a value last: links, items, conjuncts and tables, with the values of their expressions. A full one costs
//! all of these, and so does where the search begins. The objects that hold a value take a logarithm, where the
//! model has an index, and so do the rows with a datum or a pair of neighbouring data.
//! It nests no calls: beside what it finds it keeps one binding, and of each variable that has got a value the
//! candidates that are left for it.
#![tactic(auto)]

mod agenda;
mod allowing;
mod asked;
mod asking;
mod branch;
mod branching;
mod candidates;
mod choice;
mod choosing;
mod column_order;
mod comparing;
mod expressions;
mod finding;
mod join;
mod join_choosing;
mod joins;
mod link;
mod linking;
mod listing;
pub mod marks;
mod match_table;
mod meeting;
mod mentions;
mod naming;
mod opening;
mod order;
mod part;
mod plan;
mod prepared;
mod pruning;
mod readiness;
mod row_order;
mod search;
mod shape;
mod shaping;
mod side;
mod sides;
mod standing;
mod task;
mod telling;
mod told;
mod untried;
mod values;
mod without_target;

pub use expressions::variable_alone;
pub use finding::{bindings, joined_bindings, source_bindings, target_bindings};
pub use join::Join;
pub use link::Link;
pub use match_table::MatchTable;
pub use order::{binding_order, each_once, optional_order};
pub use plan::{Plan, plan_of};
pub use side::Side;
pub use values::{duplicate_binding, duplicate_value};
