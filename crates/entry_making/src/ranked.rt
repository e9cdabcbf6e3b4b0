/// A node of a graph with its stratum.
#[derive(Clone, Copy)]
pub(crate) struct Ranked {
    pub(crate) stratum: usize,
    pub(crate) node: usize,
}
