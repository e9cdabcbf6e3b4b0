//! Orders of the nodes of a graph without a cycle.
ghost use Rattle.std.specs.Prelude.{◌≡◌, [], length, map, replicate, IfOk};
ghost use Rattle.std.specs.List.{range_with_len};
ghost use Rattle.std.specs.List.Sorted.{IsPermutation, IsNonDecreasingBy};
ghost use Rattle.call_graph.specs.Graphs.{Leads};
ghost use Rattle.call_graph.specs.Strata.{AreStrata};
ghost use Rattle.entry_making.specs.declared.ranked.Ranked.{Ranked};
ghost use Rattle.entry_making.specs.Orders.{HasNoCycle, IsOrder, ranked_at};

use crate::ranked::Ranked;
use call_graph::{Layers, strata};
use mof_metamodel::{NoMemory, Seq};
use std::alloc::Global;

/// So many nodes that lead nowhere.
fn no_rows(alloc: Global, count: usize) -> Result<Seq<Seq<u32>>, NoMemory>
    ensures { IfOk result (λ rows. rows ≡ replicate count []) }
{
    let mut rows = Seq::new(alloc);
    for i in 0..count {
        rows.push(Seq::new(alloc))?;
    }
    Ok(rows)
}

/// The greatest number of edges on a path from each node.
fn strata_of(alloc: Global, graph: &[Seq<u32>]) -> Result<Seq<usize>, NoMemory>
    requires { HasNoCycle (Leads graph.now) }
    ensures { IfOk result (λ strata. AreStrata graph.now (replicate (length graph.now) []) strata) }
{
    let others = no_rows(alloc, graph.len())?;
    match strata(alloc, graph, others.as_slice())? {
        Layers::Layered(strata) => Ok(strata),
        Layers::Cyclic(_) => unreachable!(),
    }
}

/// Each node with its stratum.
fn ranked(alloc: Global, strata: &[usize]) -> Result<Vec<Ranked>, NoMemory>
    ensures { IfOk result (λ nodes. nodes.items ≡ map (ranked_at strata.now) (range_with_len 0 (length strata.now))) }
{
    let mut nodes = Vec::new(alloc);
    for node in 0..strata.len() {
        nodes.push(Ranked {
            stratum: strata[node],
            node,
        })?;
    }
    Ok(nodes)
}

/// The nodes in the order of their strata.
fn by_stratum(nodes: Vec<Ranked>) -> Vec<Ranked>
    ensures same { IsPermutation nodes.items result.items }
    ensures sorted { IsNonDecreasingBy (λ r. r.stratum) result.items }
{
    let mut nodes = nodes;
    nodes.sort_unstable_by_key(|r| r.stratum);
    nodes
}

/// The nodes without their strata.
fn nodes_of(alloc: Global, ranked: &[Ranked]) -> Result<Seq<usize>, NoMemory>
    ensures { IfOk result (λ order. order ≡ map (λ r. r.node) ranked.now) }
{
    let mut order = Seq::new(alloc);
    for r in ranked {
        order.push(r.node)?;
    }
    Ok(order)
}

/// The nodes of a graph without a cycle in an order in which each stands behind those to which it leads.
#[tactic(auto, using(crate::proofs::OrderLaws::in_order))]
pub(crate) fn order_of(alloc: Global, graph: &[Seq<u32>]) -> Result<Seq<usize>, NoMemory>
    requires { HasNoCycle (Leads graph.now) }
    ensures { IfOk result (IsOrder graph.now) }
{
    let strata = strata_of(alloc, graph)?;
    let nodes = by_stratum(ranked(alloc, strata.as_slice())?);
    nodes_of(alloc, nodes.as_slice())
}
