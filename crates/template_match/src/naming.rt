//! Which variables an expression names.
use crate::agenda::Agenda;
use mof_metamodel::NoMemory;
use qv_syntax::{Call, Node, Typed, TypedInfix, TypedPostfix};
use qvtr_semantics::Binding;

#[cycle(naming)]
fn name_all(agenda: &mut Agenda, roots: &Binding, parts: &[Typed]) -> Result<(), NoMemory> {
    for part in parts {
        name_variables(agenda, roots, part)?;
    }
    Ok(())
}

#[cycle(naming)]
fn name_in_links(
    agenda: &mut Agenda,
    roots: &Binding,
    links: &[TypedInfix],
) -> Result<(), NoMemory> {
    for link in links {
        name_variables(agenda, roots, &link.right)?;
    }
    Ok(())
}

#[cycle(naming)]
fn name_in_calls(
    agenda: &mut Agenda,
    roots: &Binding,
    calls: &[TypedPostfix],
) -> Result<(), NoMemory> {
    for call in calls {
        name_in_call(agenda, roots, &call.call)?;
    }
    Ok(())
}

#[cycle(naming)]
fn name_in_call(agenda: &mut Agenda, roots: &Binding, call: &Call) -> Result<(), NoMemory> {
    match call {
        Call::Property { .. } => Ok(()),
        Call::CollectProperty { .. } => Ok(()),
        Call::Operation { args, .. } => name_all(agenda, roots, args.as_slice()),
        Call::Class { .. } => Ok(()),
        Call::Collection { args, .. } => name_all(agenda, roots, args.as_slice()),
        Call::Iterator { body, .. } => name_variables(agenda, roots, body.get()),
    }
}

/// The last part of the agenda names the variables of the relation that the expression names.
#[cycle(naming)]
pub(crate) fn name_variables(
    agenda: &mut Agenda,
    roots: &Binding,
    e: &Typed,
) -> Result<(), NoMemory> {
    match &e.node {
        Node::Number { .. } => Ok(()),
        Node::Str { .. } => Ok(()),
        Node::Bool { .. } => Ok(()),
        Node::Null => Ok(()),
        Node::Invalid => Ok(()),
        Node::EnumLiteral { .. } => Ok(()),
        Node::Variable { number } => agenda.name(roots, *number),
        Node::Let { value, body, .. } => {
            name_variables(agenda, roots, value.get())?;
            name_variables(agenda, roots, body.get())
        }
        Node::Chain { first, rest } => {
            name_variables(agenda, roots, first.get())?;
            name_in_links(agenda, roots, rest.as_slice())
        }
        Node::Not { operand } => name_variables(agenda, roots, operand.get()),
        Node::Negated { operand } => name_variables(agenda, roots, operand.get()),
        Node::Calls { of, calls } => {
            name_variables(agenda, roots, of.get())?;
            name_in_calls(agenda, roots, calls.as_slice())
        }
        Node::If {
            condition,
            one,
            other,
        } => {
            name_variables(agenda, roots, condition.get())?;
            name_variables(agenda, roots, one.get())?;
            name_variables(agenda, roots, other.get())
        }
        Node::Coll { elements, .. } => name_all(agenda, roots, elements.as_slice()),
        Node::Extent { .. } => Ok(()),
        Node::Query { args, .. } => name_all(agenda, roots, args.as_slice()),
    }
}
