//! Values of variables and expressions by the numbers of terms.
ghost use Rattle.std.specs.Prelude.{◌≡◌, ◌≤◌, ◌^◌, length, map, slice_index_or, None, IfOk, OnOk};
ghost use Rattle.std.specs.Option.{option_or, option_copied, option_and_then};
ghost use Rattle.std.specs.List.{range_with_len};
ghost use Rattle.qvtr_semantics.specs.Expressions.{value};
ghost use Rattle.entry_making.specs.Givers.{shown_origin};
ghost use Rattle.entry_making.specs.Numbered.{given_number, number_or_datum, giver_number, giver_numbers};

use crate::origin::Origin;
use crate::world::World;
use mof_metamodel::{NoMemory, Seq};
use ocl_eval::{Scope, datum_of, duplicate_datum, eval_in};
use qv_syntax::Typed;
use qvtr_semantics::Out;
use std::alloc::Global;
use term_table::{NumberedValue, duplicate_numbered};

/// The value of an expression, if it is neither null nor invalid.
fn given_number(alloc: Global, out: &Out) -> Result<Option<NumberedValue>, NoMemory>
    ensures { IfOk result (λ v. v ≡ given_number out.now) }
{
    match datum_of(out) {
        Some(datum) => Ok(Some(NumberedValue::Val(duplicate_datum(alloc, datum)?))),
        None => Ok(None),
    }
}

/// Another of the same value, if there is one.
pub(crate) fn duplicate_value(
    alloc: Global,
    value: &Option<NumberedValue>,
) -> Result<Option<NumberedValue>, NoMemory>
    ensures { IfOk result (λ v. v ≡ value.now) }
{
    match value {
        Some(value) => Ok(Some(duplicate_numbered(alloc, value)?)),
        None => Ok(None),
    }
}

/// Others of the same values.
pub(crate) fn duplicate_values(
    alloc: Global,
    values: &[Option<NumberedValue>],
) -> Result<Seq<Option<NumberedValue>>, NoMemory>
    ensures { IfOk result (λ vs. vs ≡ values.now) }
{
    let mut copies = Seq::new(alloc);
    for value in values {
        copies.push(duplicate_value(alloc, value)?)?;
    }
    Ok(copies)
}

/// The value of a variable, or else the datum that its equation gives.
fn value_or_datum(
    alloc: Global,
    value: &Option<NumberedValue>,
    out: Option<&Out>,
) -> Result<Option<NumberedValue>, NoMemory>
    ensures { IfOk result (λ v. v ≡ option_or value.now (option_and_then given_number (option_copied out.entry))) }
{
    match value {
        Some(value) => Ok(Some(duplicate_numbered(alloc, value)?)),
        None => match out {
            Some(out) => given_number(alloc, out),
            None => Ok(None),
        },
    }
}

/// The values of variables, and the data that equations give to those that have none.
pub(crate) fn begun_values(
    alloc: Global,
    b: &[Option<NumberedValue>],
    scope: &Scope,
) -> Result<Vec<Option<NumberedValue>>, NoMemory>
    requires few { length b.now ≤ 2 ^ 32 }
    ensures { IfOk result (λ vs. vs.items ≡ map (number_or_datum b.now scope.now) (range_with_len 0 (length b.now))) }
{
    let mut values = Vec::new(alloc);
    for v in 0..b.len() {
        values.push(value_or_datum(alloc, &b[v], scope.get(v as u32))?)?;
    }
    Ok(values)
}

/// The value of a variable, if it has one.
pub(crate) fn variable_value(
    alloc: Global,
    values: &[Option<NumberedValue>],
    variable: u32,
) -> Result<Option<NumberedValue>, NoMemory>
    ensures { IfOk result (λ v. v ≡ slice_index_or values.now variable None) }
{
    let place = variable as usize;
    if place < values.len() {
        duplicate_value(alloc, &values[place])
    } else {
        Ok(None)
    }
}

/// The value of an expression that is no variable alone, if it is neither null nor invalid.
fn expression_value(
    world: &World<'_, '_>,
    e: &Typed,
    scope: &mut Scope,
) -> Result<Option<NumberedValue>, NoMemory>
    ensures value { IfOk result (λ v. v ≡ given_number (value world.now.program.now world.now.models.now e.now scope.old)) }
    ensures scope { OnOk result (scope.new ≡ scope.old) }
{
    let out = eval_in(world.alloc, world.program, e, world.models, scope)?;
    given_number(world.alloc, &out)
}

/// The value that is given, if there is one.
pub(crate) fn origin_value(
    world: &World<'_, '_>,
    origin: Origin<'_>,
    values: &[Option<NumberedValue>],
    scope: &mut Scope,
) -> Result<Option<NumberedValue>, NoMemory>
    ensures value { IfOk result (λ v. v ≡ giver_number world.now.program.now world.now.models.now values.now scope.old (shown_origin origin.entry)) }
    ensures scope { OnOk result (scope.new ≡ scope.old) }
{
    match origin {
        Origin::Nothing => Ok(None),
        Origin::Variable(v) => variable_value(world.alloc, values, v),
        Origin::Expression(e) => expression_value(world, e, scope),
    }
}

/// The values that are given, if each is.
pub(crate) fn origin_values(
    world: &World<'_, '_>,
    origins: &[Origin<'_>],
    values: &[Option<NumberedValue>],
    scope: &mut Scope,
) -> Result<Option<Seq<NumberedValue>>, NoMemory>
    ensures value { IfOk result (λ vs. vs ≡ giver_numbers world.now.program.now world.now.models.now values.now scope.old (map shown_origin origins.now)) }
    ensures scope { OnOk result (scope.new ≡ scope.old) }
{
    let mut given = Seq::new(world.alloc);
    for origin in origins {
        match origin_value(world, *origin, values, scope)? {
            Some(value) => given.push(value)?,
            None => return Ok(None),
        }
    }
    Ok(Some(given))
}
