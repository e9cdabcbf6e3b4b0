use mof_metamodel::Seq;

/// The numbers of the rows of a table in the order of their data in a column, and where these tie in the next
/// one.
#[derive(Drop)]
pub(crate) struct ColumnOrder {
    pub(crate) next: usize,
    pub(crate) numbers: Seq<usize>,
}
