ghost use Rattle.std.specs.Prelude.{◌≡◌, ◌++◌, [], map, replicate, IfOk, OnOk};
ghost use Rattle.std.specs.List.{concat};
ghost use Rattle.ocl_environments.specs.QueryCalls.{called_by, called_in_node, called_in_call, called_behind, called_with, rows_of};

use mof_metamodel::{NoMemory, Seq};
use qv_syntax::{Call, Node, Query, Typed, TypedInfix, TypedPostfix};
use std::alloc::Global;

/// Puts the queries that an expression calls behind others.
#[cycle(calls)]
fn put_calls(calls: &mut Seq<u32>, tree: &Typed) -> Result<(), NoMemory>
    ensures { OnOk result (calls.new ≡ calls.old ++ called_by tree.now) }
{
    put_node(calls, &tree.node)
}

/// The same of several expressions.
#[cycle(calls)]
fn put_all(calls: &mut Seq<u32>, trees: &[Typed]) -> Result<(), NoMemory>
    ensures { OnOk result (calls.new ≡ calls.old ++ concat (map called_by trees.now)) }
{
    for tree in trees {
        put_calls(calls, tree)?;
    }
    Ok(())
}

/// The same of the parts behind operators.
#[cycle(calls)]
fn put_links(calls: &mut Seq<u32>, links: &[TypedInfix]) -> Result<(), NoMemory>
    ensures { OnOk result (calls.new ≡ calls.old ++ concat (map called_behind links.now)) }
{
    for link in links {
        put_calls(calls, &link.right)?;
    }
    Ok(())
}

/// The same of calls.
#[cycle(calls)]
fn put_postfixes(calls: &mut Seq<u32>, postfixes: &[TypedPostfix]) -> Result<(), NoMemory>
    ensures { OnOk result (calls.new ≡ calls.old ++ concat (map called_with postfixes.now)) }
{
    for postfix in postfixes {
        put_call(calls, &postfix.call)?;
    }
    Ok(())
}

/// The same of a call.
#[cycle(calls)]
fn put_call(calls: &mut Seq<u32>, call: &Call) -> Result<(), NoMemory>
    ensures { OnOk result (calls.new ≡ calls.old ++ called_in_call call.now) }
{
    match call {
        Call::Property { .. } | Call::CollectProperty { .. } | Call::Class { .. } => Ok(()),
        Call::Operation { args, .. } => put_all(calls, args.as_slice()),
        Call::Collection { args, .. } => put_all(calls, args.as_slice()),
        Call::Iterator { body, .. } => put_calls(calls, body.get()),
    }
}

/// The same of a node.
#[cycle(calls)]
fn put_node(calls: &mut Seq<u32>, node: &Node) -> Result<(), NoMemory>
    ensures { OnOk result (calls.new ≡ calls.old ++ called_in_node node.now) }
{
    match node {
        Node::Let { value, body, .. } => {
            put_calls(calls, value.get())?;
            put_calls(calls, body.get())
        }
        Node::Chain { first, rest } => {
            put_calls(calls, first.get())?;
            put_links(calls, rest.as_slice())
        }
        Node::Not { operand } => put_calls(calls, operand.get()),
        Node::Negated { operand } => put_calls(calls, operand.get()),
        Node::Calls {
            of,
            calls: postfixes,
        } => {
            put_calls(calls, of.get())?;
            put_postfixes(calls, postfixes.as_slice())
        }
        Node::If {
            condition,
            one,
            other,
        } => {
            put_calls(calls, condition.get())?;
            put_calls(calls, one.get())?;
            put_calls(calls, other.get())
        }
        Node::Coll { elements, .. } => put_all(calls, elements.as_slice()),
        Node::Query { query, args } => {
            calls.push(*query)?;
            put_all(calls, args.as_slice())
        }
        Node::Number { .. }
        | Node::Str { .. }
        | Node::Bool { .. }
        | Node::Null
        | Node::Invalid
        | Node::EnumLiteral { .. }
        | Node::Variable { .. }
        | Node::Extent { .. } => Ok(()),
    }
}

/// The queries that the body of a query calls.
fn calls_in(alloc: Global, query: &Query) -> Result<Seq<u32>, NoMemory>
    ensures { IfOk result (λ calls. calls ≡ called_by query.now.body) }
{
    let mut calls = Seq::new(alloc);
    put_calls(&mut calls, &query.body)?;
    Ok(calls)
}

/// Puts a row of calls for each query behind others.
fn put_rows(alloc: Global, rows: &mut Seq<Seq<u32>>, queries: &[Query]) -> Result<(), NoMemory>
    ensures { OnOk result (rows.new ≡ rows.old ++ map (λ q. called_by q.body) queries.now) }
{
    for query in queries {
        rows.push(calls_in(alloc, query)?)?;
    }
    Ok(())
}

/// No calls, for each of so many queries.
fn no_calls(alloc: Global, count: usize) -> Result<Seq<Seq<u32>>, NoMemory>
    ensures { IfOk result (λ rows. rows ≡ replicate count []) }
{
    let mut rows = Seq::new(alloc);
    for _i in 0..count {
        rows.push(Seq::new(alloc))?;
    }
    Ok(rows)
}

/// Which queries each query calls, with so many others before these, which call none of them.
pub(crate) fn call_rows(
    alloc: Global,
    before: usize,
    queries: &[Query],
) -> Result<Seq<Seq<u32>>, NoMemory>
    ensures { IfOk result (λ rows. rows ≡ rows_of before queries.now) }
{
    let mut rows = no_calls(alloc, before)?;
    put_rows(alloc, &mut rows, queries)?;
    Ok(rows)
}
