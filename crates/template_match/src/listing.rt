//! The parts of what a search asks, each with the variables that it names.
use crate::agenda::Agenda;
use crate::asked::{Asked, AskedBy};
use crate::join::Join;
use crate::link::Link;
use crate::naming::name_variables;
use crate::opening::is_vacant;
use crate::part::Part;
use crate::prepared::Prepared;
use crate::shape::Shape;
use crate::sides::clause_of;
use mof_metamodel::NoMemory;
use qv_syntax::Conj;
use qvtr_semantics::Binding;

/// What templates ask of their objects alone.
fn list_shapes(agenda: &mut Agenda, roots: &Binding, shapes: &[Shape]) -> Result<(), NoMemory> {
    for (number, shape) in shapes.iter().enumerate() {
        agenda.add_part(Part::Shape(number))?;
        agenda.name(roots, shape.holder)?;
    }
    Ok(())
}

/// Links.
fn list_links(agenda: &mut Agenda, roots: &Binding, links: &[Link]) -> Result<(), NoMemory> {
    for (number, link) in links.iter().enumerate() {
        agenda.add_part(Part::Link(number))?;
        agenda.name(roots, link.holder)?;
        agenda.name(roots, link.variable)?;
    }
    Ok(())
}

/// The variables that what asks names.
fn name_in_asker(agenda: &mut Agenda, roots: &Binding, by: &AskedBy<'_>) -> Result<(), NoMemory> {
    match by {
        AskedBy::Item(e) => name_variables(agenda, roots, e),
        AskedBy::Condition(e) => name_variables(agenda, roots, e),
        AskedBy::Equation(variable) => agenda.name(roots, *variable),
    }
}

/// What is asked of slots.
fn list_asked(agenda: &mut Agenda, roots: &Binding, all: &[Asked<'_>]) -> Result<(), NoMemory> {
    for (number, asked) in all.iter().enumerate() {
        agenda.add_part(Part::Asked(number))?;
        agenda.name(roots, asked.holder)?;
        name_in_asker(agenda, roots, &asked.by)?;
    }
    Ok(())
}

/// The variables that a conjunct names.
fn name_in_conjunct(agenda: &mut Agenda, roots: &Binding, conjunct: &Conj) -> Result<(), NoMemory> {
    match conjunct {
        Conj::Cond(e) => name_variables(agenda, roots, e),
        Conj::Equation(variable, e) => {
            agenda.name(roots, *variable)?;
            name_variables(agenda, roots, e)
        }
        Conj::Call(..) => Ok(()),
    }
}

/// Conjuncts.
fn list_conjuncts(
    agenda: &mut Agenda,
    roots: &Binding,
    conjuncts: &[Conj],
) -> Result<(), NoMemory> {
    for (number, conjunct) in conjuncts.iter().enumerate() {
        agenda.add_part(Part::Conjunct(number))?;
        name_in_conjunct(agenda, roots, conjunct)?;
    }
    Ok(())
}

/// The variables of the columns of a join.
fn name_columns(
    agenda: &mut Agenda,
    roots: &Binding,
    variables: &[Option<u32>],
) -> Result<(), NoMemory> {
    for variable in variables {
        if let Some(variable) = variable {
            agenda.name(roots, *variable)?;
        }
    }
    Ok(())
}

/// Joins.
fn list_joins(agenda: &mut Agenda, roots: &Binding, joins: &[Join<'_>]) -> Result<(), NoMemory> {
    for (number, join) in joins.iter().enumerate() {
        agenda.add_part(Part::Join(number))?;
        name_columns(agenda, roots, join.variables.as_slice())?;
    }
    Ok(())
}

/// All parts of what a search asks, and those to be looked at where it begins.
fn list_parts(
    agenda: &mut Agenda,
    prepared: &Prepared<'_, '_, '_>,
    roots: &Binding,
) -> Result<(), NoMemory> {
    let conjuncts = clause_of(prepared.task.side, prepared.task.rel);
    list_conjuncts(agenda, roots, conjuncts)?;
    list_links(agenda, roots, prepared.task.links)?;
    list_asked(agenda, roots, prepared.asked)?;
    list_joins(agenda, roots, prepared.task.joins)?;
    list_shapes(agenda, roots, prepared.shapes)?;
    agenda.put_all()
}

/// How many parts there are.
fn part_count(prepared: &Prepared<'_, '_, '_>) -> usize {
    let links = prepared.task.links.len();
    let conjuncts = clause_of(prepared.task.side, prepared.task.rel).len();
    links
        .saturating_add(conjuncts)
        .saturating_add(prepared.asked.len())
        .saturating_add(prepared.task.joins.len())
        .saturating_add(prepared.shapes.len())
}

/// How many of the variables have no value.
fn vacant_count(roots: &Binding, variables: &[u32]) -> usize {
    let mut count: usize = 0;
    for variable in variables {
        if is_vacant(roots, *variable) {
            count = count.saturating_add(1);
        }
    }
    count
}

/// What a search has to look at where it begins.
pub(crate) fn first_agenda(
    prepared: &Prepared<'_, '_, '_>,
    roots: &Binding,
) -> Result<Agenda, NoMemory> {
    let variables = prepared.task.rel.vars.len();
    let open = vacant_count(roots, prepared.task.variables);
    let mut agenda = Agenda::new(prepared.task.alloc, part_count(prepared), variables, open)?;
    list_parts(&mut agenda, prepared, roots)?;
    Ok(agenda)
}
