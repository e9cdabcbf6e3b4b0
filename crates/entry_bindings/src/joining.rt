ghost use Rattle.std.specs.Prelude.{◌≡◌, ◌++◌, None, Some, IfOk, OnOk, slice_get, if◌then◌else◌};
ghost use Rattle.std.specs.List.{flat_map};
ghost use Rattle.std.specs.Option.{option_copied};
ghost use Rattle.entry_bindings.specs.Joins.{taken, filled, extended, call_extended, joined, joined_for};

use crate::argument::Argument;
use crate::arguments::{arguments_of, bound};
use crate::match_table::MatchTable;
use crate::starts::{duplicate_places, number_of, start_of};
use mof_metamodel::{NoMemory, Seq};
use ocl_eval::Models;
use qv_syntax::{Conj, Program, Rel, Typed};
use qvtr_semantics::Binding;
use std::alloc::Global;
use term_table::{NumberedValue, duplicate_numbered};

/// The bindings of a relation with the same data, which are joined with the matches of its calls.
#[derive(Clone, Copy)]
pub(crate) struct Joining<'a, 'm> {
    pub(crate) alloc: Global,
    pub(crate) program: &'a Program,
    pub(crate) models: &'a Models<'m>,
    pub(crate) rel: &'a Rel,
    pub(crate) matches: &'a MatchTable,
    pub(crate) data: &'a Binding,
}

/// The values of the variables of a relation.
pub(crate) type Values = Seq<Option<NumberedValue>>;

/// Whether the open variable has this value or takes it.
fn take(
    alloc: Global,
    values: &mut Vec<Option<NumberedValue>>,
    argument: &Argument,
    root: &NumberedValue,
) -> Result<bool, NoMemory>
    ensures { IfOk result (λ one. taken values.old.items argument.now root.now ≡ (if one then Some values.new.items else None)) }
{
    match argument {
        Argument::Given(_) => Ok(true),
        Argument::Open(variable) => match number_of(values.as_slice(), *variable as usize) {
            Some(value) => Ok(value == root),
            None => {
                let place = *variable as usize;
                if place < values.len() {
                    values[place] = Some(duplicate_numbered(alloc, root)?);
                }
                Ok(true)
            }
        },
    }
}

/// The binding with the values that its open arguments have in a match.
#[tactic(auto, using(crate::proofs::StepLaws::fill_ended))]
fn filled(
    alloc: Global,
    b: &[Option<NumberedValue>],
    given: &[Argument],
    roots: &[NumberedValue],
) -> Result<Option<Values>, NoMemory>
    ensures { IfOk result (λ found. found ≡ filled b.now given.now roots.now) }
{
    let mut values = duplicate_places(alloc, b)?.into_vec();
    let count = given.len().min(roots.len());
    for i in 0..count {
        if !take(alloc, &mut values, &given[i], &roots[i])? {
            return Ok(None);
        }
    }
    Ok(Some(Seq::from_vec(values)))
}

/// One for each match of a call.
fn extended(
    task: &Joining<'_, '_>,
    b: &[Option<NumberedValue>],
    number: u32,
    given: &[Argument],
    found: &mut Seq<Values>,
) -> Result<(), NoMemory>
    ensures { OnOk result (found.new ≡ found.old ++ extended task.now.matches.now b.now number given.now) }
{
    let matches = task.matches.matching(task.alloc, number, given)?;
    for one in matches.as_slice() {
        if let Some(values) = filled(task.alloc, b, given, one.roots.as_slice())? {
            found.push(values)?;
        }
    }
    Ok(())
}

/// The relation of this number.
fn called_relation(program: &Program, number: u32) -> Option<&Rel>
    ensures { option_copied result ≡ slice_get program.now.rels number }
{
    program.rels.as_slice().get(number as usize)
}

/// For a call with these arguments; none where it isn't made.
fn call_extended(
    task: &Joining<'_, '_>,
    number: u32,
    args: &[Typed],
    b: &[Option<NumberedValue>],
    found: &mut Seq<Values>,
) -> Result<(), NoMemory>
    ensures { OnOk result (found.new ≡ found.old ++ call_extended task.now.program.now task.now.models.now task.now.matches.now task.now.rel.now task.now.data.now.values number args.now b.now) }
{
    let given = arguments_of(task, b, args)?;
    match called_relation(task.program, number) {
        Some(called) => match given {
            Some(given) => {
                let roots = bound(task.alloc, called, given.as_slice())?;
                extended(task, b, number, roots.as_slice(), found)
            }
            None => Ok(()),
        },
        None => Ok(()),
    }
}

/// All of them for a call.
fn all_extended(
    task: &Joining<'_, '_>,
    number: u32,
    args: &[Typed],
    bs: &[Values],
) -> Result<Seq<Values>, NoMemory>
    ensures { IfOk result (λ found. found ≡ flat_map (call_extended task.now.program.now task.now.models.now task.now.matches.now task.now.rel.now task.now.data.now.values number args.now) bs.now) }
{
    let mut found = Seq::new(task.alloc);
    for b in bs {
        call_extended(task, number, args, b.as_slice(), &mut found)?;
    }
    Ok(found)
}

/// Bindings with the data, joined with the matches of the calls of a clause.
fn joined(task: &Joining<'_, '_>, clause: &[Conj], bs: Seq<Values>) -> Result<Seq<Values>, NoMemory>
    ensures { IfOk result (λ found. found ≡ joined task.now.program.now task.now.models.now task.now.matches.now task.now.rel.now task.now.data.now.values clause.now bs) }
{
    let mut found = bs;
    for conj in clause {
        if let Conj::Call(number, args) = conj {
            found = all_extended(task, *number, args.as_slice(), found.as_slice())?;
        }
    }
    Ok(found)
}

/// The bindings with the data.
pub(crate) fn joined_for(
    task: &Joining<'_, '_>,
    roots: &[Option<NumberedValue>],
) -> Result<Seq<Values>, NoMemory>
    ensures { IfOk result (λ found. found ≡ joined_for task.now.program.now task.now.models.now task.now.matches.now task.now.rel.now roots.now task.now.data.now.values) }
{
    let mut begin = Seq::new(task.alloc);
    begin.push(start_of(task.alloc, roots, task.data.values.as_slice())?)?;
    joined(task, task.rel.whens.as_slice(), begin)
}
