//! What expressions name, in the order in which it is written: variables, queries that are called, and the models of extents.
ghost use Rattle.std.specs.Prelude.{◌≡◌, ◌++◌, map, IfOk, OnOk};
ghost use Rattle.enforcement_rules.specs.Mentions.{joined, mentions_in, mentions_of_node, mentions_of_call, mentions_behind, mentions_with};

use crate::mention::Mention;
use mof_metamodel::{NoMemory, Seq};
use qv_syntax::{Call, Node, Typed, TypedInfix, TypedPostfix};
use std::alloc::Global;

/// Puts what an expression names behind other mentions.
#[cycle(mentions)]
fn put_mentions(out: &mut Seq<Mention>, tree: &Typed) -> Result<(), NoMemory>
    ensures { OnOk result (out.new ≡ out.old ++ mentions_in tree.now) }
{
    put_node(out, &tree.node)
}

/// The same of several expressions.
#[cycle(mentions)]
fn put_all(out: &mut Seq<Mention>, trees: &[Typed]) -> Result<(), NoMemory>
    ensures { OnOk result (out.new ≡ out.old ++ joined (map mentions_in trees.now)) }
{
    for tree in trees {
        put_mentions(out, tree)?;
    }
    Ok(())
}

/// The same of the parts behind operators.
#[cycle(mentions)]
fn put_links(out: &mut Seq<Mention>, links: &[TypedInfix]) -> Result<(), NoMemory>
    ensures { OnOk result (out.new ≡ out.old ++ joined (map mentions_behind links.now)) }
{
    for link in links {
        put_mentions(out, &link.right)?;
    }
    Ok(())
}

/// The same of calls.
#[cycle(mentions)]
fn put_postfixes(out: &mut Seq<Mention>, postfixes: &[TypedPostfix]) -> Result<(), NoMemory>
    ensures { OnOk result (out.new ≡ out.old ++ joined (map mentions_with postfixes.now)) }
{
    for postfix in postfixes {
        put_call(out, &postfix.call)?;
    }
    Ok(())
}

/// The same of a call.
#[cycle(mentions)]
fn put_call(out: &mut Seq<Mention>, call: &Call) -> Result<(), NoMemory>
    ensures { OnOk result (out.new ≡ out.old ++ mentions_of_call call.now) }
{
    match call {
        Call::Property { .. } | Call::CollectProperty { .. } | Call::Class { .. } => Ok(()),
        Call::Operation { args, .. } => put_all(out, args.as_slice()),
        Call::Collection { args, .. } => put_all(out, args.as_slice()),
        Call::Iterator { body, .. } => put_mentions(out, body.get()),
    }
}

/// The same of a node.
#[cycle(mentions)]
fn put_node(out: &mut Seq<Mention>, node: &Node) -> Result<(), NoMemory>
    ensures { OnOk result (out.new ≡ out.old ++ mentions_of_node node.now) }
{
    match node {
        Node::Variable { number } => out.push(Mention::Variable(*number)),
        Node::Extent { model, .. } => out.push(Mention::Extent(*model)),
        Node::Let { value, body, .. } => {
            put_mentions(out, value.get())?;
            put_mentions(out, body.get())
        }
        Node::Chain { first, rest } => {
            put_mentions(out, first.get())?;
            put_links(out, rest.as_slice())
        }
        Node::Not { operand } => put_mentions(out, operand.get()),
        Node::Negated { operand } => put_mentions(out, operand.get()),
        Node::Calls {
            of,
            calls: postfixes,
        } => {
            put_mentions(out, of.get())?;
            put_postfixes(out, postfixes.as_slice())
        }
        Node::If {
            condition,
            one,
            other,
        } => {
            put_mentions(out, condition.get())?;
            put_mentions(out, one.get())?;
            put_mentions(out, other.get())
        }
        Node::Coll { elements, .. } => put_all(out, elements.as_slice()),
        Node::Query { query, args } => {
            out.push(Mention::Query(*query))?;
            put_all(out, args.as_slice())
        }
        Node::Number { .. }
        | Node::Str { .. }
        | Node::Bool { .. }
        | Node::Null
        | Node::Invalid
        | Node::EnumLiteral { .. } => Ok(()),
    }
}

/// What an expression names.
pub(crate) fn mentions(alloc: Global, tree: &Typed) -> Result<Seq<Mention>, NoMemory>
    ensures { IfOk result (λ out. out ≡ mentions_in tree.now) }
{
    let mut out = Seq::new(alloc);
    put_mentions(&mut out, tree)?;
    Ok(out)
}
