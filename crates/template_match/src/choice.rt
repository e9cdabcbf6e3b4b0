use crate::candidates::Candidates;

/// A variable, where its candidates stand, and how many they are.
#[derive(Clone, Copy)]
pub(crate) struct Choice<'a> {
    pub(crate) variable: u32,
    pub(crate) count: usize,
    pub(crate) candidates: Candidates<'a>,
}
