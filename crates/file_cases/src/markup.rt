//! Cases of markup.
mod cases;
mod printing;
mod reading;
mod writing;

pub(crate) use cases::answer;
