//! Cases of expressions, from their text to their typed tree.
mod cases;
mod expression_answers;
mod expressions;
mod faults;
mod reading;
mod setting;
mod tokens;
mod type_answers;
mod words;

pub(crate) use cases::answers;
