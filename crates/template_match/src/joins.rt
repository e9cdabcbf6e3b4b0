//! Which bindings stand in rows of tables.
ghost use Rattle.std.specs.Prelude.{◌≡◌, ◌⊎◌, Some, IfSome};
ghost use Rattle.std.specs.List.{list_all};
ghost use Rattle.std.specs.Option.{option_copied};
ghost use Rattle.template_match.specs.JoinRows.{TellsRows, may_number, variable_value, column_value};
ghost use Rattle.template_match.specs.Rows.{IsRowOrder};
ghost use Rattle.template_match.specs.Joins.{may_be_in, may_row, may_join, is_bound, are_bound, is_joined, are_joined};

use crate::column_order::ColumnOrder;
use crate::join::Join;
use crate::pruning::may_be_one;
use crate::row_order::{numbers_with, sorted_with};
use crate::values::{datum_in, value_at};
use qvtr_semantics::{Binding, Datum};

/// Whether there is a datum, and it is that of the variable, if there is one and has a value.
fn may_be_in(binding: &Binding, variable: Option<u32>, datum: Option<&Datum>) -> bool
    ensures { result ≡ may_be_in binding.now.values variable (option_copied datum.entry) }
{
    match datum {
        Some(datum) => match variable {
            Some(variable) => may_be_one(value_at(binding, variable), Some(datum)),
            None => true,
        },
        None => false,
    }
}

/// Whether each of the variables that has a value has the datum in its column.
fn may_row(variables: &[Option<u32>], binding: &Binding, row: &[Datum]) -> bool
    ensures { result ≡ may_row variables.now binding.now.values row.now }
{
    for (column, variable) in variables.iter().enumerate() {
        if !may_be_in(binding, *variable, datum_in(row, column)) {
            return false;
        }
    }
    true
}

// ---- the rows of a table

/// One of two lists of numbers, a shorter one.
fn fewer_rows<'t>(one: Option<&'t [usize]>, other: Option<&'t [usize]>) -> Option<&'t [usize]>
    ensures either { (result ≡ one.entry) ⊎ (result ≡ other.entry) }
{
    match one {
        Some(a) => match other {
            Some(b) => { if b.len() < a.len() { Some(b) } else { Some(a) } }
            None => Some(a),
        },
        None => other,
    }
}

/// The value of the variable, if there is one.
fn variable_value(binding: &Binding, variable: Option<u32>) -> Option<&Datum>
    ensures { option_copied result ≡ variable_value binding.now.values variable }
{
    match variable {
        Some(variable) => value_at(binding, variable),
        None => None,
    }
}

/// The value of a column's variable.
fn column_value<'b>(
    variables: &[Option<u32>],
    binding: &'b Binding,
    column: usize,
) -> Option<&'b Datum>
    ensures { option_copied result ≡ column_value variables.now binding.now.values column }
{
    match variables.get(column) {
        Some(variable) => variable_value(binding, *variable),
        None => None,
    }
}

/// Of the rows in the order by a column those with the value of its variable, and with that of the next
/// column's, if it has one.
fn rows_in<'t>(
    join: &Join<'t>,
    binding: &Binding,
    column: usize,
    order: &'t ColumnOrder,
    datum: &Datum,
) -> &'t [usize]
    requires order { IsRowOrder join.now.table.now column order.now.next order.now.numbers }
    requires value { column_value join.now.variables binding.now.values column ≡ Some datum.now }
    ensures { TellsRows join.now binding.now.values result.now }
{
    let rows = join.table.rows();
    let numbers = numbers_with(rows, column, order, datum);
    match column_value(join.variables.as_slice(), binding, order.next) {
        Some(other) => sorted_with(rows, order.next, numbers, other),
        None => numbers,
    }
}

/// Numbers of rows, among them all that have the value of the column's variable there, if it has one.
fn column_rows<'t>(join: &Join<'t>, binding: &Binding, column: usize) -> Option<&'t [usize]>
    ensures { IfSome result (λ numbers. TellsRows join.now binding.now.values numbers.now) }
{
    match column_value(join.variables.as_slice(), binding, column) {
        Some(datum) => match join.table.order_by(column) {
            Some(order) => Some(rows_in(join, binding, column, order, datum)),
            None => None,
        },
        None => None,
    }
}

/// Numbers of rows, among them all in which the binding may stand, if a variable of the join has a value.
pub(crate) fn bound_rows<'t>(join: &Join<'t>, binding: &Binding) -> Option<&'t [usize]>
    ensures { IfSome result (λ numbers. TellsRows join.now binding.now.values numbers.now) }
{
    let mut fewest = None;
    for column in 0..join.variables.len() {
        fewest = fewer_rows(fewest, column_rows(join, binding, column));
    }
    fewest
}

/// Whether the binding may stand in the row of this number.
fn may_number(join: &Join<'_>, binding: &Binding, number: usize) -> bool
    ensures { result ≡ may_number join.now binding.now.values number }
{
    match join.table.rows().get(number) {
        Some(row) => may_row(join.variables.as_slice(), binding, row.as_slice()),
        None => false,
    }
}

/// Whether it may stand in one of these rows, which are all in which it may.
fn may_numbers(join: &Join<'_>, binding: &Binding, numbers: &[usize]) -> bool
    requires { TellsRows join.now binding.now.values numbers.now }
    ensures { result ≡ may_join join.now binding.now.values }
{
    for number in numbers {
        if may_number(join, binding, *number) {
            return true;
        }
    }
    false
}

/// Whether it may stand in one of the rows, looked at one after another.
fn may_any_row(join: &Join<'_>, binding: &Binding) -> bool
    ensures { result ≡ may_join join.now binding.now.values }
{
    for row in join.table.rows() {
        if may_row(join.variables.as_slice(), binding, row.as_slice()) {
            return true;
        }
    }
    false
}

/// Whether there is a row in which each of the variables that has a value has the datum in its column.
pub(crate) fn may_join(join: &Join<'_>, binding: &Binding) -> bool
    ensures { result ≡ may_join join.now binding.now.values }
{
    match bound_rows(join, binding) {
        Some(numbers) => may_numbers(join, binding, numbers),
        None => may_any_row(join, binding),
    }
}

// ---- bindings whose variables have values

/// Whether there is no variable, or it has a value.
fn is_bound(binding: &Binding, variable: Option<u32>) -> bool
    ensures { result ≡ is_bound binding.now.values variable }
{
    match variable {
        Some(variable) => value_at(binding, variable).is_some(),
        None => true,
    }
}

/// Whether each of the variables has a value.
fn are_bound(variables: &[Option<u32>], binding: &Binding) -> bool
    ensures { result ≡ are_bound variables.now binding.now.values }
{
    for variable in variables {
        if !is_bound(binding, *variable) {
            return false;
        }
    }
    true
}

/// Whether the binding stands in a row of the table.
fn is_joined(join: &Join<'_>, binding: &Binding) -> bool
    ensures { result ≡ is_joined join.now binding.now.values }
{
    are_bound(join.variables.as_slice(), binding) && may_join(join, binding)
}

/// Whether it stands in a row of each table.
pub(crate) fn are_joined(joins: &[Join<'_>], binding: &Binding) -> bool
    ensures { result ≡ are_joined joins.now binding.now.values }
{
    for join in joins {
        if !is_joined(join, binding) {
            return false;
        }
    }
    true
}
