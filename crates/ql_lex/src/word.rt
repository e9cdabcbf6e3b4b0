use crate::token::Token;

/// A token and its text.
#[derive(Clone, Copy)]
pub(crate) struct Word<'t> {
    pub token: Token,
    pub text: &'t str,
}
