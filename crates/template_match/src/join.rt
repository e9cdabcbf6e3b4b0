use crate::match_table::MatchTable;
use mof_metamodel::Seq;

/// A table with, for each of its columns, the variable that the column's data are for. A column without one says
/// nothing.
#[derive(Drop)]
pub struct Join<'a> {
    pub table: &'a MatchTable,
    pub variables: Seq<Option<u32>>,
}
