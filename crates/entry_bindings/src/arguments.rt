ghost use Rattle.std.specs.Prelude.{◌≡◌, None, Some, replicate, length, IfOk, slice_set, slice_index_or};
ghost use Rattle.std.specs.List.{filter_map};
ghost use Rattle.std.specs.Option.{option_copied, option_map};
ghost use Rattle.qvtr_semantics.specs.Bindings.{is_model};
ghost use Rattle.qvtr_semantics.specs.Outs.{datum_of};
ghost use Rattle.qvtr_semantics.specs.Expressions.{value_for};
ghost use Rattle.template_match.specs.Sources.{is_target_variable};
ghost use Rattle.repair_semantics.specs.EntryValues.{variable_alone};
ghost use Rattle.term_table.specs.declared.numbered.NumberedValue.TheVariants as numbered;
ghost use Rattle.entry_bindings.specs.declared.argument.Argument.{Argument};
ghost use Rattle.entry_bindings.specs.declared.argument.Argument.TheVariants as arguments;
ghost use Rattle.entry_bindings.specs.Arguments.{variable_argument, argument_of, arguments_of, put_roots, bound};

use crate::argument::{Argument, duplicate_argument};
use crate::joining::Joining;
use crate::starts::number_of;
use mof_metamodel::{NoMemory, Seq};
use ocl_eval::{datum_of, duplicate_datum, eval};
use qv_syntax::{Dom, Node, Program, Rel, Typed};
use std::alloc::Global;
use term_table::{NumberedValue, duplicate_numbered};

/// Whether it is this model.
fn is_model(model: Option<u32>, number: u32) -> bool
    ensures { result ≡ is_model model number }
{
    match model {
        Some(own) => own == number,
        None => false,
    }
}

/// Whether the variable of the number is one for objects of the target model.
fn is_target_variable(program: &Program, rel: &Rel, variable: u32) -> bool
    ensures { result ≡ is_target_variable program.now rel.now variable }
{
    match rel.vars.as_slice().get(variable as usize) {
        Some(var) => is_model(var.model, program.target),
        None => false,
    }
}

/// The variable that an expression is, where it is one alone.
fn variable_alone(e: &Typed) -> Option<u32>
    ensures { result ≡ variable_alone e.now }
{
    match &e.node {
        Node::Variable { number } => Some(*number),
        _ => None,
    }
}

/// What a variable alone gives.
fn variable_argument(
    task: &Joining<'_, '_>,
    variable: u32,
    value: Option<&NumberedValue>,
) -> Result<Option<Argument>, NoMemory>
    ensures { IfOk result (λ a. a ≡ variable_argument task.now.program.now task.now.rel.now variable (option_copied value.entry)) }
{
    match value {
        Some(value) => Ok(Some(Argument::Given(duplicate_numbered(task.alloc, value)?))),
        None => if is_target_variable(task.program, task.rel, variable) {
            Ok(Some(Argument::Open(variable)))
        } else {
            Ok(None)
        },
    }
}

/// What another expression gives: its datum, if it has one.
fn datum_argument(task: &Joining<'_, '_>, e: &Typed) -> Result<Option<Argument>, NoMemory>
    ensures { IfOk result (λ a. a ≡ option_map (λ x. arguments.Given (numbered.Val x)) (datum_of (value_for task.now.program.now task.now.models.now e.now task.now.data.now.values))) }
{
    let out = eval(task.alloc, task.program, e, task.models, task.data)?;
    match datum_of(&out) {
        Some(datum) => {
            let datum = duplicate_datum(task.alloc, datum)?;
            Ok(Some(Argument::Given(NumberedValue::Val(datum))))
        }
        None => Ok(None),
    }
}

/// What an expression gives as an argument.
fn argument_of(
    task: &Joining<'_, '_>,
    b: &[Option<NumberedValue>],
    e: &Typed,
) -> Result<Option<Argument>, NoMemory>
    ensures { IfOk result (λ a. a ≡ argument_of task.now.program.now task.now.models.now task.now.rel.now task.now.data.now.values b.now e.now) }
{
    match variable_alone(e) {
        Some(variable) => variable_argument(task, variable, number_of(b, variable as usize)),
        None => datum_argument(task, e),
    }
}

/// What the arguments of a call are, if each of them gives something.
pub(crate) fn arguments_of(
    task: &Joining<'_, '_>,
    b: &[Option<NumberedValue>],
    args: &[Typed],
) -> Result<Option<Seq<Argument>>, NoMemory>
    ensures { IfOk result (λ given. given ≡ arguments_of task.now.program.now task.now.models.now task.now.rel.now task.now.data.now.values b.now args.now) }
{
    let mut given = Seq::new(task.alloc);
    for e in args {
        match argument_of(task, b, e)? {
            Some(argument) => given.push(argument)?,
            None => return Ok(None),
        }
    }
    Ok(Some(given))
}

// ---- what the roots of the called relation get

/// No arguments for the variables of a relation.
fn no_arguments(alloc: Global, rel: &Rel) -> Result<Seq<Option<Argument>>, NoMemory>
    ensures { IfOk result (λ slots. slots ≡ replicate (length rel.now.vars) None) }
{
    let mut slots = Seq::new(alloc);
    for var in rel.vars.as_slice() {
        slots.push(None)?;
    }
    Ok(slots)
}

/// Gives a variable an argument, if there is such a variable.
fn put(slots: &mut Vec<Option<Argument>>, root: u32, argument: Argument)
    ensures { slots.new.items ≡ slice_set slots.old.items root (Some argument) }
{
    let place = root as usize;
    if place < slots.len() {
        slots[place] = Some(argument);
    }
}

/// Gives the roots of domains their arguments.
fn put_roots(
    alloc: Global,
    free: Seq<Option<Argument>>,
    domains: &[Dom],
    given: &[Argument],
) -> Result<Seq<Option<Argument>>, NoMemory>
    ensures { IfOk result (λ slots. slots ≡ put_roots free domains.now given.now) }
{
    let mut slots = free.into_vec();
    let count = domains.len().min(given.len());
    for i in 0..count {
        put(
            &mut slots,
            domains[i].root,
            duplicate_argument(alloc, &given[i])?,
        );
    }
    Ok(Seq::from_vec(slots))
}

/// The argument of a variable.
fn argument_at(slots: &[Option<Argument>], root: u32) -> Option<&Argument>
    ensures { option_copied result ≡ slice_index_or slots.now root None }
{
    match slots.get(root as usize) {
        Some(slot) => slot.as_ref(),
        None => None,
    }
}

/// For each domain the argument of its root.
fn picked(
    alloc: Global,
    domains: &[Dom],
    slots: &[Option<Argument>],
) -> Result<Seq<Argument>, NoMemory>
    ensures { IfOk result (λ given. given ≡ filter_map (λ dom. slice_index_or slots.now dom.root None) domains.now) }
{
    let mut given = Seq::new(alloc);
    for dom in domains {
        if let Some(argument) = argument_at(slots, dom.root) {
            given.push(duplicate_argument(alloc, argument)?)?;
        }
    }
    Ok(given)
}

/// What the roots of the domains of the called relation get: where two domains have one root, the last argument.
pub(crate) fn bound(
    alloc: Global,
    called: &Rel,
    given: &[Argument],
) -> Result<Seq<Argument>, NoMemory>
    ensures { IfOk result (λ roots. roots ≡ bound called.now given.now) }
{
    let none = no_arguments(alloc, called)?;
    let slots = put_roots(alloc, none, called.domains.as_slice(), given)?;
    picked(alloc, called.domains.as_slice(), slots.as_slice())
}
