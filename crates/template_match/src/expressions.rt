ghost use Rattle.std.specs.Prelude.{◌≡◌};
ghost use Rattle.std.specs.Option.{option_map};
ghost use Rattle.qv_syntax.specs.declared.typed.Node.{out-Node};
ghost use Rattle.template_match.specs.Links.{variable_alone};
ghost use Rattle.template_match.specs.Search.{saying_by, saying_chain, saying_node, saying};

use qv_syntax::{Conj, Node, Operator, Typed, TypedInfix};

/// The variable that the expression is, if it is one alone.
pub fn variable_alone(e: &Typed) -> Option<u32>
    ensures { result ≡ variable_alone (out-Node e.now.node) }
{
    match &e.node {
        Node::Variable { number } => Some(*number),
        _ => None,
    }
}

/// `v` and `e`, if `= e` stands behind the variable v.
fn said_by(variable: Option<u32>, link: &TypedInfix) -> Option<(u32, &Typed)>
    ensures { option_map (λ s. (s.0, s.1.now)) result ≡ saying_by link.now.operator variable link.now.right }
{
    match link.operator {
        Operator::Equal => match variable {
            Some(variable) => Some((variable, &link.right)),
            None => None,
        },
        _ => None,
    }
}

/// `v` and `e`, if the part is a variable and `= e` alone stands behind it.
fn said_by_chain<'a>(first: &Typed, rest: &'a [TypedInfix]) -> Option<(u32, &'a Typed)>
    ensures { option_map (λ s. (s.0, s.1.now)) result ≡ saying_chain first.now rest.now }
{
    match rest {
        [link] => said_by(variable_alone(first), link),
        _ => None,
    }
}

/// `v` and `e` of a condition `v = e`.
fn said_by_condition(e: &Typed) -> Option<(u32, &Typed)>
    ensures { option_map (λ s. (s.0, s.1.now)) result ≡ saying_node (out-Node e.now.node) }
{
    match &e.node {
        Node::Chain { first, rest } => said_by_chain(first.get(), rest.as_slice()),
        _ => None,
    }
}

/// `v` and `e` of a conjunct `v = e`.
pub(crate) fn saying(conjunct: &Conj) -> Option<(u32, &Typed)>
    ensures { option_map (λ s. (s.0, s.1.now)) result ≡ saying conjunct.now }
{
    match conjunct {
        Conj::Cond(e) => said_by_condition(e),
        Conj::Equation(variable, e) => Some((*variable, e)),
        Conj::Call(..) => None,
    }
}
