ghost use Rattle.std.specs.Prelude.{◌≡◌, ℕ, ◌+◌, ◌^◌, ◌<◌, ◌≤◌, ◌⊎◌, ◌↔◌, length, slice_index_or, max, IsTrue, MatchOption};
ghost use Rattle.call_graph.specs.declared.standing.Standing.TheVariants as stands;
ghost use Rattle.call_graph.specs.Graphs.{neighbours, Leads};
ghost use Rattle.call_graph.specs.Walks.{standing_at, node_at};
ghost use Rattle.call_graph.specs.Tops.{IsDone, IsTop, IsEnough, IsNeeded, IsGroupTop, AreWhensDone, IsOpenWhen};

use crate::standing::Standing;
use mof_metamodel::Seq;

/// The greater of two numbers.
fn greater(a: usize, b: usize) -> usize
    ensures { result ≡ max a b }
{
    if a < b { b } else { a }
}

/// How far a walk has come with a node.
pub(crate) fn standing_of(standings: &[Standing], u: usize) -> Standing
    ensures { result ≡ standing_at standings.now u }
{
    if u < standings.len() {
        standings[u]
    } else {
        Standing::Done(0)
    }
}

/// What one node that is called needs: its stratum and this much more, if it is done.
fn need_of(standing: Standing, more: usize) -> usize
    requires { (stratum : ℕ) → standing ≡ stands.Done stratum → stratum + more < 2 ^ 64 }
    ensures most { (stratum : ℕ) → standing ≡ stands.Done stratum → result ≡ stratum + more }
    ensures none { ((stratum : ℕ) → standing ≡ stands.Done stratum → ⊥) → result ≡ 0 }
{
    match standing {
        Standing::Done(stratum) => stratum + more,
        Standing::New | Standing::Open(_) => 0,
    }
}

/// The greatest of the strata of the nodes of a row that are done, each with this much more.
fn top_of(row: &[u32], standings: &[Standing], more: usize) -> usize
    requires { (u stratum : ℕ) → standing_at standings.now u ≡ stands.Done stratum → stratum + more < 2 ^ 64 }
    ensures { IsTop standings.now more row.now (length row.now) result }
{
    let mut top = 0;
    for i in 0..row.len() {
        let standing = standing_of(standings, row[i] as usize);
        top = greater(top, need_of(standing, more));
    }
    top
}

/// The nodes that a node calls.
pub(crate) fn row_of(graph: &[Seq<u32>], u: usize) -> &[u32]
    requires { u < length graph.now }
    ensures { result.now ≡ neighbours graph.now u }
{
    graph[u].as_slice()
}

/// What the calls of a node need of its stratum.
fn need_of_node(whens: &[Seq<u32>], wheres: &[Seq<u32>], standings: &[Standing], u: usize) -> usize
    requires when { u < length whens.now }
    requires wheres { u < length wheres.now }
    requires short { (w stratum : ℕ) → standing_at standings.now w ≡ stands.Done stratum → stratum + 1 < 2 ^ 64 }
    ensures enough { IsEnough whens.now wheres.now standings.now u result }
    ensures needed { (result ≡ 0) ⊎ IsNeeded whens.now wheres.now standings.now u result }
{
    let by_when = top_of(row_of(whens, u), standings, 1);
    let by_where = top_of(row_of(wheres, u), standings, 0);
    greater(by_when, by_where)
}

/// What the calls of the nodes from a place on need of their stratum.
pub(crate) fn need_of_group(
    whens: &[Seq<u32>],
    wheres: &[Seq<u32>],
    standings: &[Standing],
    stack: &[usize],
    from: usize,
) -> usize
    requires inside { (p : ℕ) → p < length stack.now → node_at stack.now p < length whens.now }
    requires same { length whens.now ≡ length wheres.now }
    requires before { from ≤ length stack.now }
    requires short { (w stratum : ℕ) → standing_at standings.now w ≡ stands.Done stratum → stratum + 1 < 2 ^ 64 }
    ensures { IsGroupTop whens.now wheres.now standings.now stack.now from (length stack.now) result }
{
    let mut top = 0;
    for p in from..stack.len() {
        top = greater(top, need_of_node(whens, wheres, standings, stack[p]));
    }
    top
}

/// Whether a node is done.
fn is_done(standing: Standing) -> bool
    ensures { IsTrue result ↔ ((stratum : ℕ) × (standing ≡ stands.Done stratum)) }
{
    match standing {
        Standing::Done(_) => true,
        Standing::New | Standing::Open(_) => false,
    }
}

/// The place in a row of a node that isn't done, if there is one.
fn undone(row: &[u32], standings: &[Standing]) -> Option<usize>
    ensures { MatchOption result ((k : ℕ) → k < length row.now → IsDone standings.now (slice_index_or row.now k 0))
        (λ k. (k < length row.now) × (IsDone standings.now (slice_index_or row.now k 0) → ⊥)) }
{
    for i in 0..row.len() {
        if !is_done(standing_of(standings, row[i] as usize)) {
            return Some(i);
        }
    }
    None
}

/// A node from a place on that calls one that isn't done in a when clause, if there is one.
pub(crate) fn open_when(
    whens: &[Seq<u32>],
    standings: &[Standing],
    stack: &[usize],
    from: usize,
) -> Option<usize>
    requires inside { (p : ℕ) → p < length stack.now → node_at stack.now p < length whens.now }
    requires before { from ≤ length stack.now }
    ensures { MatchOption result (AreWhensDone whens.now standings.now stack.now from (length stack.now))
        (IsOpenWhen whens.now standings.now stack.now from) }
{
    for p in from..stack.len() {
        match undone(row_of(whens, stack[p]), standings) {
            Some(_) => return Some(stack[p]),
            None => {}
        }
    }
    None
}
