//! The meaning of scripts: the values of expressions (OCL 2.4, chapter 11), what a template asks, and when relations hold
//! (QVT 1.3, chapter 7). The definitions stand in `specs/`, over models as lists and sets; here are the types of their values.
#![tactic(auto)]

mod binding;
mod datum;
mod laws;
mod limits;
mod out;

pub use binding::Binding;
pub use datum::Datum;
pub use laws::{
    calls_have_values_of_bodies, small_models_are_told, small_program_is_well_formed,
    strata_are_enough,
};
pub use limits::{MAX_CALLS, MAX_RESULT};
pub use out::Out;
