//! Cases of the trees of scripts.
mod cases;
mod relations;
mod scripts;
mod templates;

pub(crate) use cases::answers;
