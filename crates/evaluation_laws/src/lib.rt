//! Laws of evaluation, on definitions alone (OCL 2.4, chapters 8 and 11): types are kept. Over models as they are kept, the value of an
//! expression that is typed is null, invalid, or a value of its type; so a value that a repair demands goes into its slot.
#![tactic(auto)]

mod laws;

pub use laws::{
    arguments_are_of_their_types, bindings_are_scopes, calls_give_values_of_types,
    demanded_values_go_into_slots, models_are_kept, queries_keep_types,
    small_values_are_of_their_types, source_values_are_of_their_types, types_are_kept,
    values_of_equations_are_allowed,
};
