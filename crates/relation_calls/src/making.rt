ghost use Rattle.std.specs.Prelude.{◌≡◌, List, map, Some, IfOk, slice_set, replicate, None};
ghost use Rattle.std.specs.Option.{option_map};
ghost use Rattle.qvtr_semantics.specs.Outs.{datum_of, all_given};
ghost use Rattle.qvtr_semantics.specs.Expressions.{value_for};
ghost use Rattle.qvtr_semantics.specs.Calls.{free, with_roots, call_of, calls_of};
ghost use Rattle.relation_calls.specs.Names.{call_named, calls_named};

use crate::name::CallName;
use crate::visit::Visit;
use mof_metamodel::{NoMemory, Seq};
use ocl_eval::{datum_of, duplicate_datum, eval};
use qv_syntax::{Conj, Dom, Rel, Typed};
use qvtr_semantics::{Binding, Datum};
use std::alloc::Global;

/// No values for the variables of a relation.
pub(crate) fn free(alloc: Global, rel: &Rel) -> Result<Binding, NoMemory>
    ensures { IfOk result (λ b. b.values ≡ free rel.now) }
{
    let mut values = Seq::new(alloc);
    for var in rel.vars.as_slice() {
        values.push(None)?;
    }
    Ok(Binding { values })
}

/// Gives a variable a value, if there is such a variable.
pub(crate) fn put(values: &mut Vec<Option<Datum>>, variable: u32, datum: Datum)
    ensures { values.new.items ≡ slice_set values.old.items variable (Some datum) }
{
    let place = variable as usize;
    if place < values.len() {
        values[place] = Some(datum);
    }
}

/// Gives the roots of domains their values.
fn put_roots(
    alloc: Global,
    free: Binding,
    domains: &[Dom],
    given: &[Datum],
) -> Result<Binding, NoMemory>
    ensures { IfOk result (λ b. b.values ≡ with_roots free.values domains.now given.now) }
{
    let mut values = free.values.into_vec();
    let count = domains.len().min(given.len());
    for i in 0..count {
        put(
            &mut values,
            domains[i].root,
            duplicate_datum(alloc, &given[i])?,
        );
    }
    Ok(Binding {
        values: Seq::from_vec(values),
    })
}

/// The datum that an expression gives, if it gives one.
fn argument(visit: &Visit<'_, '_>, e: &Typed, b: &Binding) -> Result<Option<Datum>, NoMemory>
    ensures { IfOk result (λ d. d ≡ datum_of (value_for visit.now.program.now visit.now.models.now e.now b.now.values)) }
{
    let out = eval(visit.alloc, visit.program, e, visit.models, b)?;
    match datum_of(&out) {
        Some(datum) => Ok(Some(duplicate_datum(visit.alloc, datum)?)),
        None => Ok(None),
    }
}

/// The data that arguments give, if each of them gives one.
fn arguments(
    visit: &Visit<'_, '_>,
    args: &[Typed],
    b: &Binding,
) -> Result<Option<Seq<Datum>>, NoMemory>
    ensures { IfOk result (λ ds. ds ≡ all_given (map (λ e. datum_of (value_for visit.now.program.now visit.now.models.now e b.now.values)) args.now)) }
{
    let mut given = Seq::new(visit.alloc);
    for e in args {
        match argument(visit, e, b)? {
            Some(datum) => given.push(datum)?,
            None => return Ok(None),
        }
    }
    Ok(Some(given))
}

/// The call of a relation with these arguments.
fn call_with(
    visit: &Visit<'_, '_>,
    number: u32,
    rel: &Rel,
    given: &[Datum],
) -> Result<CallName, NoMemory>
    ensures { IfOk result (λ name. call_named name ≡ record { rel = number; roots = with_roots (free rel.now) rel.now.domains given.now }) }
{
    let none = free(visit.alloc, rel)?;
    let roots = put_roots(visit.alloc, none, rel.domains.as_slice(), given)?;
    Ok(CallName { rel: number, roots })
}

/// The call that a conjunct makes with a binding, if its arguments give one.
fn call_of(
    visit: &Visit<'_, '_>,
    number: u32,
    args: &[Typed],
    b: &Binding,
) -> Result<Option<CallName>, NoMemory>
    ensures { IfOk result (λ call. option_map call_named call ≡ call_of visit.now.program.now visit.now.models.now b.now.values number args.now) }
{
    let all = arguments(visit, args, b)?;
    match visit.program.rels.as_slice().get(number as usize) {
        Some(rel) => match all {
            Some(given) => Ok(Some(call_with(visit, number, rel, given.as_slice())?)),
            None => Ok(None),
        },
        None => Ok(None),
    }
}

/// The calls that a clause makes with a binding.
pub(crate) fn calls_of(
    visit: &Visit<'_, '_>,
    clause: &[Conj],
    b: &Binding,
) -> Result<Seq<Option<CallName>>, NoMemory>
    ensures { IfOk result (λ calls. calls_named calls ≡ calls_of visit.now.program.now visit.now.models.now b.now.values clause.now) }
{
    let mut calls = Seq::new(visit.alloc);
    for conj in clause {
        if let Conj::Call(number, args) = conj {
            calls.push(call_of(visit, *number, args.as_slice(), b)?)?;
        }
    }
    Ok(calls)
}
