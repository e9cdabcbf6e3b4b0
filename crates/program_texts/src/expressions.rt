ghost use Rattle.std.specs.Prelude.{◌≡◌, true, map};
ghost use Rattle.program_texts.specs.Stored.{all_true, is_stored, is_call_stored, is_infix_stored, is_postfix_stored};

use qv_syntax::{Call, Node, Typed, TypedInfix, TypedPostfix};

#[cycle(texts)]
pub(crate) fn stored_expressions(parts: &[Typed])
    ensures { all_true (map is_stored parts.now) ≡ true }
{
    for part in parts {
        stored_expression(part);
    }
}

#[cycle(texts)]
fn stored_links(links: &[TypedInfix])
    ensures { all_true (map is_infix_stored links.now) ≡ true }
{
    for link in links {
        stored_expression(&link.right);
    }
}

#[cycle(texts)]
fn stored_calls(calls: &[TypedPostfix])
    ensures { all_true (map is_postfix_stored calls.now) ≡ true }
{
    for call in calls {
        stored_call(&call.call);
    }
}

#[cycle(texts)]
fn stored_call(call: &Call)
    ensures { is_call_stored call.now ≡ true }
{
    match call {
        Call::Property { .. } => {}
        Call::CollectProperty { .. } => {}
        Call::Operation { args, .. } => stored_expressions(args.as_slice()),
        Call::Class { .. } => {}
        Call::Collection { args, .. } => stored_expressions(args.as_slice()),
        Call::Iterator { body, .. } => stored_expression(body.get()),
    }
}

/// Each string literal within the expression is storable.
#[cycle(texts)]
pub(crate) fn stored_expression(e: &Typed)
    ensures { is_stored e.now ≡ true }
{
    match &e.node {
        Node::Number { .. } => {}
        Node::Str { value } => {
            let _text = value.text();
        }
        Node::Bool { .. } => {}
        Node::Null => {}
        Node::Invalid => {}
        Node::EnumLiteral { .. } => {}
        Node::Variable { .. } => {}
        Node::Let { value, body, .. } => {
            stored_expression(value.get());
            stored_expression(body.get());
        }
        Node::Chain { first, rest } => {
            stored_expression(first.get());
            stored_links(rest.as_slice());
        }
        Node::Not { operand } => stored_expression(operand.get()),
        Node::Negated { operand } => stored_expression(operand.get()),
        Node::Calls { of, calls } => {
            stored_expression(of.get());
            stored_calls(calls.as_slice());
        }
        Node::If {
            condition,
            one,
            other,
        } => {
            stored_expression(condition.get());
            stored_expression(one.get());
            stored_expression(other.get());
        }
        Node::Coll { elements, .. } => stored_expressions(elements.as_slice()),
        Node::Extent { .. } => {}
        Node::Query { args, .. } => stored_expressions(args.as_slice()),
    }
}
