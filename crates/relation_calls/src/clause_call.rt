use crate::name::CallName;

/// A clause of a relation in which calls stand.
#[derive(Clone, Copy)]
pub(crate) enum Clause {
    /// A call there asks whether the called relation matches.
    When,
    /// A call there asks whether it holds.
    Where,
}

/// A call that stands in a clause.
#[derive(Drop)]
pub(crate) struct ClauseCall {
    pub(crate) clause: Clause,
    pub(crate) name: CallName,
}
