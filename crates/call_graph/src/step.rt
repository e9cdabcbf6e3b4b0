/// A node of the path of a walk, by its place among the nodes that are open.
#[derive(Clone, Copy)]
pub(crate) struct Step {
    pub(crate) place: usize,
    /// The least place that is known to be reached from it.
    pub(crate) low: usize,
}
