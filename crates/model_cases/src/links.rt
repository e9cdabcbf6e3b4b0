//! Cases of an arena of links.
mod editing;
mod session;

pub(crate) use session::{Arenas, is_question};
