use crate::untried::Untried;

/// A variable, and the values that it may have.
#[derive(Drop)]
pub(crate) struct Branch<'a> {
    pub(crate) variable: u32,
    pub(crate) candidates: Untried<'a>,
}
