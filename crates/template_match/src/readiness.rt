ghost use Rattle.std.specs.Prelude.{◌≡◌, ◌&&◌, map};
ghost use Rattle.template_match.specs.Ready.{is_known, all_true, is_ready, is_call_ready, is_infix_ready, is_postfix_ready};

use qv_syntax::{Call, Node, Typed, TypedInfix, TypedPostfix};
use qvtr_semantics::Binding;

/// Whether the variable has a value, if it is one of the relation.
fn is_known(binding: &Binding, number: u32) -> bool
    ensures { result ≡ is_known binding.now.values number }
{
    match binding.values.as_slice().get(number as usize) {
        Some(value) => value.is_some(),
        None => true,
    }
}

/// Whether both hold.
fn both(a: bool, b: bool) -> bool
    ensures { result ≡ a && b }
{
    a && b
}

/// Whether each variable of the relation that one of the expressions names has a value.
#[cycle(readiness)]
fn all_ready(binding: &Binding, parts: &[Typed]) -> bool
    ensures { result ≡ all_true (map (is_ready binding.now.values) parts.now) }
{
    for part in parts {
        if !is_ready(binding, part) {
            return false;
        }
    }
    true
}

#[cycle(readiness)]
fn all_links_ready(binding: &Binding, links: &[TypedInfix]) -> bool
    ensures { result ≡ all_true (map (is_infix_ready binding.now.values) links.now) }
{
    for link in links {
        if !is_ready(binding, &link.right) {
            return false;
        }
    }
    true
}

#[cycle(readiness)]
fn all_calls_ready(binding: &Binding, calls: &[TypedPostfix]) -> bool
    ensures { result ≡ all_true (map (is_postfix_ready binding.now.values) calls.now) }
{
    for call in calls {
        if !is_call_ready(binding, &call.call) {
            return false;
        }
    }
    true
}

#[cycle(readiness)]
fn is_call_ready(binding: &Binding, call: &Call) -> bool
    ensures { result ≡ is_call_ready binding.now.values call.now }
{
    match call {
        Call::Property { .. } => true,
        Call::CollectProperty { .. } => true,
        Call::Operation { args, .. } => all_ready(binding, args.as_slice()),
        Call::Class { .. } => true,
        Call::Collection { args, .. } => all_ready(binding, args.as_slice()),
        Call::Iterator { body, .. } => is_ready(binding, body.get()),
    }
}

/// Whether each variable of the relation that the expression names has a value.
#[cycle(readiness)]
pub(crate) fn is_ready(binding: &Binding, e: &Typed) -> bool
    ensures { result ≡ is_ready binding.now.values e.now }
{
    match &e.node {
        Node::Number { .. } => true,
        Node::Str { .. } => true,
        Node::Bool { .. } => true,
        Node::Null => true,
        Node::Invalid => true,
        Node::EnumLiteral { .. } => true,
        Node::Variable { number } => is_known(binding, *number),
        Node::Let { value, body, .. } => both(
            is_ready(binding, value.get()),
            is_ready(binding, body.get()),
        ),
        Node::Chain { first, rest } => both(
            is_ready(binding, first.get()),
            all_links_ready(binding, rest.as_slice()),
        ),
        Node::Not { operand } => is_ready(binding, operand.get()),
        Node::Negated { operand } => is_ready(binding, operand.get()),
        Node::Calls { of, calls } => both(
            is_ready(binding, of.get()),
            all_calls_ready(binding, calls.as_slice()),
        ),
        Node::If {
            condition,
            one,
            other,
        } => both(
            is_ready(binding, condition.get()),
            both(is_ready(binding, one.get()), is_ready(binding, other.get())),
        ),
        Node::Coll { elements, .. } => all_ready(binding, elements.as_slice()),
        Node::Extent { .. } => true,
        Node::Query { args, .. } => all_ready(binding, args.as_slice()),
    }
}
