use mof_metamodel::Seq;

/// What the calls of a graph with two kinds of calls allow.
#[derive(Drop)]
pub enum Layers {
    /// This node lies on a cycle of calls, at least one of which is of the first kind.
    Cyclic(usize),
    /// There is no such cycle, and these are the strata, each in the place of its node.
    Layered(Seq<usize>),
}
