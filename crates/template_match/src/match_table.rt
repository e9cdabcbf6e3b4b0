ghost use Rattle.std.specs.Prelude.{◌≡◌, ◌↔◌, List, Contains, IfOk, IfSome};
ghost use Rattle.qvtr_semantics.specs.declared.datum.Datum.{Datum};
ghost use Rattle.template_match.specs.Rows.{IsRowOrder};

use crate::column_order::ColumnOrder;
use crate::row_order::row_orders;
use mof_metamodel::{NoMemory, Seq};
use qvtr_semantics::Datum;
use std::alloc::Global;

/// Data that stand together at the roots of the matches of a relation (QVT 1.3, section 7.10.2): a row for each
/// match, a column for each domain. Contracts see it as the list of its rows.
#[derive(Drop)]
pub struct MatchTable {
    rows: Seq<Seq<Datum>>,
    /// For each column the numbers of the rows, in the order of their data there.
    orders: Seq<ColumnOrder>,
}

impl std::marker::Model for MatchTable {
    ghost use Rattle.std.specs.Prelude.{List};
    ghost use Rattle.qvtr_semantics.specs.declared.datum.Datum.{Datum};

    ghost Value = { List (List Datum) };

    ghost use Rattle.template_match.specs.Rows.{AreRowOrders};

    ghost view = { λ t. t.rows };

    ghost invariant = { λ t. AreRowOrders t.rows t.orders };
}

impl MatchTable {
    /// The table of these rows, in whichever order. It takes n log n time in the number n of rows for each
    /// column, and memory for a number at each datum.
    pub fn build(alloc: Global, rows: Seq<Seq<Datum>>) -> Result<MatchTable, NoMemory>
        ensures { IfOk result (λ t. (row : List Datum) → Contains t row ↔ Contains rows row) }
    {
        let orders = row_orders(alloc, rows.as_slice())?;
        Ok(MatchTable { rows, orders })
    }

    /// The rows.
    pub(crate) fn rows(&self) -> &[Seq<Datum>]
        ensures { result.now ≡ self.now }
    {
        self.rows.as_slice()
    }

    /// The numbers of all rows in the order by a column, if there is such a column.
    pub(crate) fn order_by(&self, column: usize) -> Option<&ColumnOrder>
        ensures { IfSome result (λ o. IsRowOrder self.now column o.now.next o.now.numbers) }
    {
        match self.orders.as_slice().get(column) {
            Some(order) => Some(order),
            None => None,
        }
    }
}
