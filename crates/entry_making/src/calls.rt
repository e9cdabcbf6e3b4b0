//! The calls of the clauses of an entry.
ghost use Rattle.std.specs.Prelude.{◌≡◌, ◌++◌, List, map, replicate, slice_get, None, IfOk, OnOk};
ghost use Rattle.std.specs.Option.{option_copied, option_map, option_to_list};
ghost use Rattle.repair_semantics.specs.declared.term.Term.{Term};
ghost use Rattle.repair_semantics.specs.Entries.{calls_in};
ghost use Rattle.entry_making.specs.Givers.{expression_giver};
ghost use Rattle.entry_making.specs.Numbered.{known_of, giver_numbers};
ghost use Rattle.entry_making.specs.CallNumbers.{with_root, with_numbers, roots_among, root_numbers, number_call_to, number_call, conjunct_calls, number_calls, calls_of};

use crate::keys::expression_origin;
use crate::numbered_call::NumberedCall;
use crate::numbered_known::NumberedKnown;
use crate::values::{origin_value, variable_value};
use crate::world::World;
use mof_metamodel::{NoMemory, Seq};
use ocl_eval::Models;
use qv_syntax::{Conj, Dom, Program, Rel, Typed};
use std::alloc::Global;
use term_table::{NumberedValue, duplicate_numbered};

/// The values of arguments, if each has one.
fn argument_values(
    world: &World<'_, '_>,
    args: &[Typed],
    known: &mut NumberedKnown,
) -> Result<Option<Seq<NumberedValue>>, NoMemory>
    ensures value { IfOk result (λ vs. vs ≡ giver_numbers world.now.program.now world.now.models.now known.old.values known.old.scope (map expression_giver args.now)) }
    ensures kept { OnOk result (known.new ≡ known.old) }
{
    let mut given = Seq::new(world.alloc);
    for arg in args {
        let origin = expression_origin(arg);
        match origin_value(world, origin, known.values.as_slice(), &mut known.scope)? {
            Some(value) => given.push(value)?,
            None => return Ok(None),
        }
    }
    Ok(Some(given))
}

/// No value for each of so many variables.
fn no_values(alloc: Global, count: usize) -> Result<Vec<Option<NumberedValue>>, NoMemory>
    ensures { IfOk result (λ values. values.items ≡ replicate count None) }
{
    let mut values = Vec::new(alloc);
    for i in 0..count {
        values.push(None)?;
    }
    Ok(values)
}

/// Gives a variable a value, if there is one.
fn put_root(
    alloc: Global,
    values: &mut [Option<NumberedValue>],
    root: u32,
    value: Option<&NumberedValue>,
) -> Result<(), NoMemory>
    ensures { OnOk result (values.new ≡ with_root values.old root (option_copied value.entry)) }
{
    let place = root as usize;
    match value {
        Some(value) => {
            if place < values.len() {
                values[place] = Some(duplicate_numbered(alloc, value)?);
            }
            Ok(())
        }
        None => Ok(()),
    }
}

/// The value at a place, if there is one.
fn given_at(given: &[NumberedValue], place: usize) -> Option<&NumberedValue>
    ensures { option_copied result ≡ slice_get given.now place }
{
    given.get(place)
}

/// Gives the roots of domains these values, one after another.
fn put_roots(
    alloc: Global,
    values: &mut [Option<NumberedValue>],
    domains: &[Dom],
    given: &[NumberedValue],
) -> Result<(), NoMemory>
    ensures { OnOk result (values.new ≡ with_numbers values.old domains.now given.now) }
{
    for i in 0..domains.len() {
        put_root(alloc, values, domains[i].root, given_at(given, i))?;
    }
    Ok(())
}

/// Puts a value behind others, if there is one.
fn push_value(value: Option<NumberedValue>, out: &mut Seq<NumberedValue>) -> Result<(), NoMemory>
    ensures { OnOk result (out.new ≡ out.old ++ option_to_list value) }
{
    match value {
        Some(value) => out.push(value),
        None => Ok(()),
    }
}

/// The values that the roots of domains have.
fn roots_among(
    alloc: Global,
    values: &[Option<NumberedValue>],
    domains: &[Dom],
) -> Result<Seq<NumberedValue>, NoMemory>
    ensures { IfOk result (λ roots. roots ≡ roots_among values.now domains.now) }
{
    let mut roots = Seq::new(alloc);
    for domain in domains {
        push_value(variable_value(alloc, values, domain.root)?, &mut roots)?;
    }
    Ok(roots)
}

/// What the roots of the domains of a relation are bound to by these arguments: of two for one root it is the last.
fn root_numbers(
    alloc: Global,
    rel: &Rel,
    given: &[NumberedValue],
) -> Result<Seq<NumberedValue>, NoMemory>
    ensures { IfOk result (λ roots. roots ≡ root_numbers rel.now given.now) }
{
    let mut values = no_values(alloc, rel.vars.len())?;
    put_roots(alloc, values.as_mut_slice(), rel.domains.as_slice(), given)?;
    roots_among(alloc, values.as_slice(), rel.domains.as_slice())
}

/// The call of a relation with these arguments, if there is such a relation.
fn call_to(
    world: &World<'_, '_>,
    number: u32,
    given: &[NumberedValue],
) -> Result<Option<NumberedCall>, NoMemory>
    ensures { IfOk result (λ call. call ≡ option_map (number_call_to number given.now) (slice_get world.now.program.now.rels number)) }
{
    match world.program.rels.as_slice().get(number as usize) {
        Some(rel) => {
            let roots = root_numbers(world.alloc, rel, given)?;
            Ok(Some(NumberedCall { rel: number, roots }))
        }
        None => Ok(None),
    }
}

/// The call that arguments make; one that has no value makes none.
fn call_made(
    world: &World<'_, '_>,
    number: u32,
    args: &[Typed],
    known: &mut NumberedKnown,
) -> Result<Option<NumberedCall>, NoMemory>
    ensures value { IfOk result (λ call. call ≡ number_call world.now.program.now world.now.models.now known.old number args.now) }
    ensures kept { OnOk result (known.new ≡ known.old) }
{
    match argument_values(world, args, known)? {
        Some(given) => call_to(world, number, given.as_slice()),
        None => Ok(None),
    }
}

/// Puts the call of a conjunct behind others, if it is one.
fn put_call(
    world: &World<'_, '_>,
    conjunct: &Conj,
    known: &mut NumberedKnown,
    out: &mut Seq<Option<NumberedCall>>,
) -> Result<(), NoMemory>
    ensures value { OnOk result (out.new ≡ out.old ++ conjunct_calls world.now.program.now world.now.models.now known.old conjunct.now) }
    ensures kept { OnOk result (known.new ≡ known.old) }
{
    match conjunct {
        Conj::Call(number, args) => {
            let call = call_made(world, *number, args.as_slice(), known)?;
            out.push(call)
        }
        Conj::Cond(_) | Conj::Equation(_, _) => Ok(()),
    }
}

/// The calls of a clause.
fn put_calls(
    world: &World<'_, '_>,
    clause: &[Conj],
    known: &mut NumberedKnown,
) -> Result<Seq<Option<NumberedCall>>, NoMemory>
    ensures value { IfOk result (λ calls. calls ≡ number_calls world.now.program.now world.now.models.now known.old clause.now) }
    ensures kept { OnOk result (known.new ≡ known.old) }
{
    let mut calls = Seq::new(world.alloc);
    for conjunct in clause {
        put_call(world, conjunct, known, &mut calls)?;
    }
    Ok(calls)
}

/// The calls that a clause makes where so much is known, in the order of the text; nothing for one that isn't made. What is known stays,
/// but for want of memory.
///
/// # Errors
///
/// `NoMemory` where memory runs out.
pub fn calls_made(
    alloc: Global,
    program: &Program,
    models: &Models<'_>,
    known: &mut NumberedKnown,
    clause: &[Conj],
) -> Result<Seq<Option<NumberedCall>>, NoMemory>
    ensures calls { IfOk result (λ cs. (terms : List Term) → calls_of terms cs ≡ calls_in program.now models.now (known_of terms known.old) clause.now) }
    ensures kept { OnOk result (known.new ≡ known.old) }
{
    let world = World {
        alloc,
        program,
        models,
    };
    put_calls(&world, clause, known)
}
