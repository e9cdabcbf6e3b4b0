//! Cases of values of expressions.
mod cases;
mod editing;
mod models;
mod printing;
mod queries;
mod reading;
mod variables;

pub(crate) use cases::answers;
