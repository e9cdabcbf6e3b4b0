//! Orders of the rows of a table by their data in a column.
ghost use Rattle.std.specs.Prelude.{◌≡◌, ◌<◌, ℕ, List, Some, length, slice_get, filter, IfOk};
ghost use Rattle.std.specs.List.{dedup, range_with_len};
ghost use Rattle.std.specs.List.Sorted.{IsPermutation, IsSorted, IsStrictlySortedBy};
ghost use Rattle.std.specs.Option.{option_copied};
ghost use Rattle.std.specs.Ordering.{eq_by_cmp};
ghost use Rattle.std.specs.declared.cmp.Ordering.{Ordering};
ghost use Rattle.template_match.specs.Order.{optional_order};
ghost use Rattle.template_match.specs.Rows.{width, cell_at, next_order, row_order, order_with_ties, is_with, IsRowOrder, AreRowOrders};

use crate::column_order::ColumnOrder;
use crate::order::optional_order;
use crate::values::datum_in;
use mof_metamodel::{NoMemory, Seq};
use qvtr_semantics::Datum;
use std::alloc::Global;
use std::cmp::Ordering;

/// The datum of a row in a column.
pub(crate) fn cell_at(rows: &[Seq<Datum>], column: usize, number: usize) -> Option<&Datum>
    ensures { option_copied result ≡ cell_at rows.now column number }
{
    match rows.get(number) {
        Some(row) => datum_in(row.as_slice(), column),
        None => None,
    }
}

/// How the datum of a row stands to another.
fn cell_order(rows: &[Seq<Datum>], column: usize, number: usize, datum: &Datum) -> Ordering
    ensures { result ≡ optional_order (cell_at rows.now column number) (Some datum.now) }
{
    optional_order(cell_at(rows, column, number), Some(datum))
}

/// How two rows stand by their data in a column, and then by their numbers.
fn next_order(rows: &[Seq<Datum>], column: usize, one: usize, other: usize) -> Ordering
    ensures { result ≡ next_order rows.now column one other }
{
    let data = optional_order(cell_at(rows, column, one), cell_at(rows, column, other));
    data.then(one.cmp(&other))
}

/// The same by a column, and then by the next one.
fn row_order(rows: &[Seq<Datum>], column: usize, next: usize, one: usize, other: usize) -> Ordering
    ensures { result ≡ row_order rows.now column next one other }
{
    let data = optional_order(cell_at(rows, column, one), cell_at(rows, column, other));
    data.then(next_order(rows, next, one, other))
}

/// The numbers below a count.
fn numbers_below(alloc: Global, count: usize) -> Result<Vec<usize>, NoMemory>
    ensures { IfOk result (λ numbers. numbers.items ≡ range_with_len 0 count) }
{
    let mut numbers = Vec::new(alloc);
    for number in 0..count {
        numbers.push(number)?;
    }
    Ok(numbers)
}

/// The numbers of rows in the order by a column and the next one.
fn in_order(rows: &[Seq<Datum>], column: usize, next: usize, numbers: Vec<usize>) -> Vec<usize>
    ensures same { IsPermutation numbers.items result.items }
    ensures sorted { IsSorted (row_order rows.now column next) result.items }
{
    let mut numbers = numbers;
    numbers.sort_unstable_by(|one, other| row_order(rows, column, next, *one, *other));
    numbers
}

/// Of neighbours that are the same the first.
fn without_neighbours(
    rows: &[Seq<Datum>],
    column: usize,
    next: usize,
    numbers: Vec<usize>,
) -> Vec<usize>
    ensures { result.items ≡ dedup (λ r s. eq_by_cmp (row_order rows.now column next) r s) numbers.items }
{
    let mut numbers = numbers;
    numbers.dedup_by(|later, kept| row_order(rows, column, next, *later, *kept).is_eq());
    numbers
}

/// The numbers of all rows in the order by a column and the next one.
fn all_in_order(
    alloc: Global,
    rows: &[Seq<Datum>],
    column: usize,
    next: usize,
) -> Result<Seq<usize>, NoMemory>
    ensures { IfOk result (λ numbers. IsRowOrder rows.now column next numbers) }
{
    let numbers = numbers_below(alloc, rows.len())?;
    let sorted = in_order(rows, column, next, numbers);
    Ok(Seq::from_vec(without_neighbours(rows, column, next, sorted)))
}

/// The order by one of so many columns; behind the last one comes the first.
fn column_order(
    alloc: Global,
    rows: &[Seq<Datum>],
    column: usize,
    columns: usize,
) -> Result<ColumnOrder, NoMemory>
    requires { column < columns }
    ensures { IfOk result (λ o. IsRowOrder rows.now column o.next o.numbers) }
{
    let behind = column + 1;
    let next = if behind < columns { behind } else { 0 };
    let numbers = all_in_order(alloc, rows, column, next)?;
    Ok(ColumnOrder { next, numbers })
}

/// How many columns the first row has.
fn width(rows: &[Seq<Datum>]) -> usize
    ensures { result ≡ width rows.now }
{
    match rows.first() {
        Some(row) => row.len(),
        None => 0,
    }
}

/// The orders of the rows by each column.
pub(crate) fn row_orders(alloc: Global, rows: &[Seq<Datum>]) -> Result<Seq<ColumnOrder>, NoMemory>
    ensures { IfOk result (λ orders. AreRowOrders rows.now orders) }
{
    let mut orders = Seq::new(alloc);
    let columns = width(rows);
    for column in 0..columns {
        orders.push(column_order(alloc, rows, column, columns)?)?;
    }
    Ok(orders)
}

/// Of numbers of rows in the order by a column, and where they tie by another one, those of the rows that have the
/// datum in the column.
pub(crate) fn sorted_with<'t>(
    rows: &[Seq<Datum>],
    column: usize,
    numbers: &'t [usize],
    datum: &Datum,
) -> &'t [usize]
    requires { (ties : ℕ → ℕ → Ordering) × IsStrictlySortedBy (order_with_ties rows.now column ties) numbers.now }
    ensures { result.now ≡ filter (is_with rows.now column datum.now) numbers.now }
{
    let first = numbers.partition_point(|number| cell_order(rows, column, *number, datum).is_lt());
    let rest = &numbers[first..];
    let count = rest.partition_point(|number| cell_order(rows, column, *number, datum).is_le());
    &rest[..count]
}

/// The same of the numbers in the order by a column and the next one.
pub(crate) fn numbers_with<'t>(
    rows: &[Seq<Datum>],
    column: usize,
    order: &'t ColumnOrder,
    datum: &Datum,
) -> &'t [usize]
    requires { IsStrictlySortedBy (row_order rows.now column order.now.next) order.now.numbers }
    ensures { result.now ≡ filter (is_with rows.now column datum.now) order.now.numbers }
{
    sorted_with(rows, column, order.numbers.as_slice(), datum)
}
