//! Values of variables by the numbers of terms.
ghost use Rattle.std.specs.Prelude.{◌≡◌, is_some, slice_index_or, None, IfOk};
ghost use Rattle.entry_finding.specs.Made.{other_number, other_numbers};

use mof_metamodel::{NoMemory, Seq};
use std::alloc::Global;
use term_table::{NumberedValue, duplicate_numbered};

/// Another of the same value, if there is one.
fn duplicate_value(
    alloc: Global,
    value: &Option<NumberedValue>,
) -> Result<Option<NumberedValue>, NoMemory>
    ensures { IfOk result (λ v. v ≡ value.now) }
{
    match value {
        Some(value) => Ok(Some(duplicate_numbered(alloc, value)?)),
        None => Ok(None),
    }
}

/// Others of the same values.
pub(crate) fn duplicate_values(
    alloc: Global,
    values: &[Option<NumberedValue>],
) -> Result<Seq<Option<NumberedValue>>, NoMemory>
    ensures { IfOk result (λ vs. vs ≡ values.now) }
{
    let mut copies = Seq::new(alloc);
    for value in values {
        copies.push(duplicate_value(alloc, value)?)?;
    }
    Ok(copies)
}

/// Another of the value of a variable, if it has one.
fn value_at(
    alloc: Global,
    values: &[Option<NumberedValue>],
    variable: usize,
) -> Result<Option<NumberedValue>, NoMemory>
    ensures { IfOk result (λ v. v ≡ slice_index_or values.now variable None) }
{
    if variable < values.len() {
        duplicate_value(alloc, &values[variable])
    } else {
        Ok(None)
    }
}

/// Whether a variable has a value.
fn has_value(values: &[Option<NumberedValue>], variable: usize) -> bool
    ensures { result ≡ is_some (slice_index_or values.now variable None) }
{
    if variable < values.len() {
        values[variable].is_some()
    } else {
        false
    }
}

/// The value that is made for a variable: nothing where it has one already.
fn other_value(
    alloc: Global,
    own: &[Option<NumberedValue>],
    all: &[Option<NumberedValue>],
    variable: usize,
) -> Result<Option<NumberedValue>, NoMemory>
    ensures { IfOk result (λ v. v ≡ other_number own.now all.now variable) }
{
    if has_value(own, variable) {
        Ok(None)
    } else {
        value_at(alloc, all, variable)
    }
}

/// The values of the variables that have none of their own.
pub(crate) fn other_values(
    alloc: Global,
    own: &[Option<NumberedValue>],
    all: &[Option<NumberedValue>],
) -> Result<Seq<Option<NumberedValue>>, NoMemory>
    ensures { IfOk result (λ vs. vs ≡ other_numbers own.now all.now) }
{
    let mut others = Seq::new(alloc);
    for variable in 0..own.len() {
        others.push(other_value(alloc, own, all, variable)?)?;
    }
    Ok(others)
}
