//! Cases of what scripts resolve to.
mod asked;
mod cases;
mod names;
mod programs;
mod relations;
mod resolving;
mod templates;
mod texts;

pub(crate) use cases::answers;
