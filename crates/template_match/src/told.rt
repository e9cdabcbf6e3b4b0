use crate::choice::Choice;
use qv_syntax::Conj;

/// What a part tells of an open variable.
#[derive(Clone, Copy)]
pub(crate) enum Told<'a> {
    /// Nothing.
    Nothing,
    /// The conjunct says what the variable is.
    Said(&'a Conj),
    /// Which candidates it has.
    Chosen(Choice<'a>),
}
