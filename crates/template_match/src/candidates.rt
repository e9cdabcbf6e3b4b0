use crate::match_table::MatchTable;
use key_index::Holder;
use mof_metamodel::PropId;
use object_tables::ObjId;

/// Where the candidates for a variable stand.
#[derive(Clone, Copy)]
pub(crate) enum Candidates<'a> {
    /// Nowhere: there is none.
    Nowhere,
    /// In a slot of an object of the model of this number.
    Slot {
        model: u32,
        object: ObjId,
        prop: PropId,
    },
    /// The objects of the model of this number that hold a value.
    Holders {
        model: u32,
        holders: &'a [Holder],
    },
    /// The data in a column of the rows of these numbers.
    Rows {
        table: &'a MatchTable,
        column: usize,
        numbers: &'a [usize],
    },
}
