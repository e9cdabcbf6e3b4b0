//! The bindings of a side of a relation by trying all: each tuple of values that the variables may have is
//! tested.
use crate::plain_error::PlainError;
use crate::plain_reading::{Reading, may_be, value_of};
use mof_metamodel::{NoMemory, Seq};
use ocl_eval::duplicate_datum;
use qvtr_semantics::{Binding, Datum};
use std::alloc::Global;
use template_match::{Side, duplicate_binding};

/// How many tuples are tried, at most.
const MAX_TUPLES: u64 = 1_000;

/// The values that a variable may have.
#[derive(Drop)]
struct Choice<'a> {
    variable: u32,
    data: Vec<&'a Datum>,
}

/// Of all values that there are, those that a variable may have.
fn choice_of<'a>(
    reading: &Reading<'_, '_>,
    all: &'a [Datum],
    variable: u32,
) -> Result<Choice<'a>, NoMemory> {
    let mut data = Vec::new(reading.alloc);
    if let Some(var) = reading.rel.vars.as_slice().get(variable as usize) {
        for datum in all {
            if may_be(reading.models, var, datum) {
                data.push(datum)?;
            }
        }
    }
    Ok(Choice { variable, data })
}

/// The same for each variable that a side looks for and that has no value yet.
fn choices<'a>(
    reading: &Reading<'_, '_>,
    all: &'a [Datum],
    side: Side,
    fixed: &Binding,
) -> Result<Vec<Choice<'a>>, NoMemory> {
    let mut choices = Vec::new(reading.alloc);
    for variable in reading.sought(side) {
        if value_of(fixed, *variable).is_none() {
            choices.push(choice_of(reading, all, *variable)?)?;
        }
    }
    Ok(choices)
}

/// How many tuples there are, as far as numbers go.
fn tuple_count(choices: &[Choice<'_>]) -> u64 {
    let mut count = 1u64;
    for choice in choices {
        count = count.saturating_mul(choice.data.len() as u64);
    }
    count
}

/// Gives a variable a value.
fn give(
    alloc: Global,
    values: &mut Vec<Option<Datum>>,
    variable: u32,
    datum: &Datum,
) -> Result<(), NoMemory> {
    if let Some(place) = values.get_mut(variable as usize) {
        *place = Some(duplicate_datum(alloc, datum)?);
    }
    Ok(())
}

/// The tuple of a number: its digits are places in the choices, that of the last variable counting ones.
fn tuple(
    alloc: Global,
    choices: &[Choice<'_>],
    fixed: &Binding,
    number: u64,
) -> Result<Binding, NoMemory> {
    let mut values = duplicate_binding(alloc, fixed)?.values.into_vec();
    let mut rest = number;
    for choice in choices.iter().rev() {
        let count = choice.data.len() as u64;
        if count > 0 {
            if let Some(datum) = choice.data.get((rest % count) as usize) {
                give(alloc, &mut values, choice.variable, datum)?;
            }
            rest /= count;
        }
    }
    Ok(Binding {
        values: Seq::from_vec(values),
    })
}

/// The tuples that meet the side, in their order.
fn met_tuples(
    reading: &Reading<'_, '_>,
    choices: &[Choice<'_>],
    side: Side,
    fixed: &Binding,
) -> Result<Vec<Binding>, NoMemory> {
    let mut met = Vec::new(reading.alloc);
    for number in 0..tuple_count(choices) {
        let binding = tuple(reading.alloc, choices, fixed, number)?;
        if reading.meets(side, &binding)? {
            met.push(binding)?;
        }
    }
    Ok(met)
}

/// The bindings of a side that extend `fixed`, in the order of their values, where there aren't too many
/// tuples to try. The values of variables are looked for among all.
pub fn plain_bindings(
    reading: &Reading<'_, '_>,
    all: &[Datum],
    side: Side,
    fixed: &Binding,
) -> Result<Vec<Binding>, PlainError> {
    let choices = choices(reading, all, side, fixed)?;
    if tuple_count(choices.as_slice()) > MAX_TUPLES {
        return Err(PlainError::TooMany);
    }
    Ok(met_tuples(reading, choices.as_slice(), side, fixed)?)
}
