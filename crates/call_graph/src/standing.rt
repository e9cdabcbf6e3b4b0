/// How far a walk has come with a node.
#[derive(Clone, Copy)]
pub(crate) enum Standing {
    /// It was not looked at.
    New,
    /// It stands in this place among the nodes that are open.
    Open(usize),
    /// It has this stratum.
    Done(usize),
}
