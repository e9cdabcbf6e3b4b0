/// How far a search has come with a node.
#[derive(Clone, Copy)]
pub(crate) enum Mark {
    /// It was not looked at.
    New,
    /// It stands on the path.
    Open,
    /// All that it leads to is done.
    Done,
}
