ghost use Rattle.std.specs.Prelude.{◌≡◌, slice_get, slice_set, IfOk};
ghost use Rattle.std.specs.Option.{option_copied};
ghost use Rattle.qvtr_semantics.specs.Templates.{value_at};

use mof_metamodel::{NoMemory, Seq};
use ocl_eval::duplicate_datum;
use qvtr_semantics::{Binding, Datum};
use std::alloc::Global;

/// The value of a variable.
pub(crate) fn value_at(binding: &Binding, variable: u32) -> Option<&Datum>
    ensures { option_copied result ≡ value_at binding.now.values variable }
{
    match binding.values.as_slice().get(variable as usize) {
        Some(value) => value.as_ref(),
        None => None,
    }
}

/// The datum in a column of a row.
pub(crate) fn datum_in(row: &[Datum], column: usize) -> Option<&Datum>
    ensures { option_copied result ≡ slice_get row.now column }
{
    match row.get(column) {
        Some(datum) => Some(datum),
        None => None,
    }
}

/// Another of the same value, or of none.
pub fn duplicate_value(alloc: Global, value: &Option<Datum>) -> Result<Option<Datum>, NoMemory>
    ensures { IfOk result (λ d. d ≡ value.now) }
{
    match value {
        Some(datum) => Ok(Some(duplicate_datum(alloc, datum)?)),
        None => Ok(None),
    }
}

/// Others of the same values.
fn duplicate_values(alloc: Global, values: &[Option<Datum>]) -> Result<Seq<Option<Datum>>, NoMemory>
    ensures { IfOk result (λ ds. ds ≡ values.now) }
{
    let mut copies = Seq::new(alloc);
    for value in values {
        copies.push(duplicate_value(alloc, value)?)?;
    }
    Ok(copies)
}

/// Another of the same binding.
pub fn duplicate_binding(alloc: Global, binding: &Binding) -> Result<Binding, NoMemory>
    ensures { IfOk result (λ b. b.values ≡ binding.now.values) }
{
    let values = duplicate_values(alloc, binding.values.as_slice())?;
    Ok(Binding { values })
}

/// The binding in which the variable has this value, or none.
pub(crate) fn with_value(binding: Binding, variable: u32, value: Option<Datum>) -> Binding
    ensures { result.values ≡ slice_set binding.values variable value }
{
    let place = variable as usize;
    let mut values = binding.values.into_vec();
    if place < values.len() {
        values[place] = value;
    }
    Binding {
        values: Seq::from_vec(values),
    }
}
