//! Directed graphs by their edges.
ghost use Rattle.std.specs.Prelude.{◌≡◌, ◌<◌, ◌++◌, [], length, replicate, IfOk, OnOk};
ghost use Rattle.enforcement_rules.specs.Edges.{edges_from, edges_to, with_edge, with_edges, BeginWithin, HasEdges};

use mof_metamodel::{NoMemory, Seq};
use std::alloc::Global;

/// Edges from one node to others.
pub(crate) fn put_edges_from(
    v: u32,
    ws: &[u32],
    edges: &mut Seq<(u32, u32)>,
) -> Result<(), NoMemory>
    ensures { OnOk result (edges.new ≡ edges.old ++ edges_from v ws.now) }
{
    for w in ws {
        edges.push((v, *w))?;
    }
    Ok(())
}

/// Edges to one node from others.
pub(crate) fn put_edges_to(w: u32, vs: &[u32], edges: &mut Seq<(u32, u32)>) -> Result<(), NoMemory>
    ensures { OnOk result (edges.new ≡ edges.old ++ edges_to w vs.now) }
{
    for v in vs {
        edges.push((*v, w))?;
    }
    Ok(())
}

/// Puts the end of an edge into the row of the node at which it begins.
fn put_edge(edge: (u32, u32), rows: &mut [Seq<u32>]) -> Result<(), NoMemory>
    requires { edge.0 < length rows.old }
    ensures { OnOk result (rows.new ≡ with_edge rows.old edge) }
{
    rows[edge.0 as usize].push(edge.1)
}

/// The same of all edges.
fn put_edges(edges: &[(u32, u32)], rows: &mut [Seq<u32>]) -> Result<(), NoMemory>
    requires { BeginWithin (length rows.old) edges.now }
    ensures { OnOk result (rows.new ≡ with_edges rows.old edges.now) }
{
    for edge in edges {
        put_edge(*edge, rows)?;
    }
    Ok(())
}

/// For each of so many nodes none.
fn no_rows(alloc: Global, count: usize) -> Result<Vec<Seq<u32>>, NoMemory>
    ensures { IfOk result (λ rows. rows.items ≡ replicate count []) }
{
    let mut rows = Vec::new(alloc);
    for _i in 0..count {
        rows.push(Seq::new(alloc))?;
    }
    Ok(rows)
}

/// For each of so many nodes those to which an edge leads from it.
pub(crate) fn rows_of(
    alloc: Global,
    count: usize,
    edges: &[(u32, u32)],
) -> Result<Vec<Seq<u32>>, NoMemory>
    requires { BeginWithin count edges.now }
    ensures { IfOk result (λ rows. HasEdges count edges.now rows.items) }
{
    let mut rows = no_rows(alloc, count)?;
    put_edges(edges, rows.as_mut_slice())?;
    Ok(rows)
}
