ghost use Rattle.std.specs.Prelude.{◌≡◌, ℕ, List, ◌++◌, ◌∷◌, [], ◌<◌, ◌≤◌, ◌↔◌, length, slice_index_or, IsTrue, IfOk, OnOk, MatchOption, replicate};
ghost use Rattle.call_graph.specs.declared.mark.Mark.TheVariants as marked;
ghost use Rattle.call_graph.specs.Graphs.{neighbours, Leads, IsOnCycle};
ghost use Rattle.call_graph.specs.Searches.{mark_at, Settled, ArePassed, IsSearch, StaySeen, weight};

use crate::mark::Mark;
use mof_metamodel::{NoMemory, Seq};
use std::alloc::Global;

/// Whether all that a node leads to is done.
fn is_settled(marks: &[Mark], u: usize) -> bool
    ensures { IsTrue result ↔ Settled marks.now u }
{
    if u >= marks.len() {
        return true;
    }
    match marks[u] {
        Mark::Done => true,
        Mark::New | Mark::Open => false,
    }
}

/// Whether a node was not looked at.
fn is_new(marks: &[Mark], u: usize) -> bool
    ensures { IsTrue result ↔ (mark_at marks.now u ≡ marked.New) }
{
    if u >= marks.len() {
        return false;
    }
    match marks[u] {
        Mark::New => true,
        Mark::Done | Mark::Open => false,
    }
}

/// The place of the first neighbour that isn't settled, from a place on before which all are.
fn first_unsettled(row: &[u32], from: usize, marks: &[Mark]) -> usize
    requires short { from ≤ length row.now }
    requires before { ArePassed marks.now row.now from }
    ensures within { result ≤ length row.now }
    ensures before { ArePassed marks.now row.now result }
    ensures at { result < length row.now → Settled marks.now (slice_index_or row.now result 0) → ⊥ }
{
    let mut i = from;
    while i < row.len() && is_settled(marks, row[i] as usize) {
        i += 1;
    }
    i
}

/// The last node of a path.
fn last(path: &[usize]) -> Option<usize>
    ensures { MatchOption result (path.now ≡ []) (λ u. (before : List ℕ) × (path.now ≡ before ++ u ∷ [])) }
{
    match path {
        [.., u] => Some(*u),
        [] => None,
    }
}

/// Takes the last node off the path, all of whose neighbours are done.
fn finish(graph: &[Seq<u32>], marks: &mut [Mark], next: &[usize], path: &mut Seq<usize>, u: usize)
    requires last { (before : List ℕ) × (path.old ≡ before ++ u ∷ []) }
    requires search { IsSearch graph.now marks.old next.now path.old }
    requires settled { ArePassed marks.old (neighbours graph.now u) (length (neighbours graph.now u)) }
    ensures search { IsSearch graph.now marks.new next.now path.new }
    ensures seen { StaySeen marks.old marks.new }
    ensures falls { weight marks.new path.new < weight marks.old path.old }
{
    marks[u] = Mark::Done;
    let _last = path.pop();
}

/// Puts a neighbour of the last node behind it.
fn open(
    graph: &[Seq<u32>],
    marks: &mut [Mark],
    next: &[usize],
    path: &mut Seq<usize>,
    link: (usize, usize),
) -> Result<(), NoMemory>
    requires last { (before : List ℕ) × (path.old ≡ before ++ link.0 ∷ []) }
    requires search { IsSearch graph.now marks.old next.now path.old }
    requires leads { Leads graph.now link.0 link.1 }
    requires unseen { mark_at marks.old link.1 ≡ marked.New }
    ensures search { OnOk result (IsSearch graph.now marks.new next.now path.new) }
    ensures seen { StaySeen marks.old marks.new }
    ensures falls { OnOk result (weight marks.new path.new < weight marks.old path.old) }
{
    marks[link.1] = Mark::Open;
    path.push(link.1)
}

/// Goes on from the last node of the path: to its first neighbour that isn't done, or back where all are. A neighbour
/// that stands on the path lies on a cycle.
fn advance(
    graph: &[Seq<u32>],
    marks: &mut [Mark],
    next: &mut [usize],
    path: &mut Seq<usize>,
    u: usize,
) -> Result<Option<usize>, NoMemory>
    requires last { (before : List ℕ) × (path.old ≡ before ++ u ∷ []) }
    requires search { IsSearch graph.now marks.old next.old path.old }
    requires inside { u < length graph.now }
    requires nexts { length next.old ≡ length graph.now }
    ensures search { IfOk result (λ o. MatchOption o (IsSearch graph.now marks.new next.new path.new) (IsOnCycle graph.now)) }
    ensures seen { StaySeen marks.old marks.new }
    ensures falls { IfOk result (λ o. MatchOption o (weight marks.new path.new < weight marks.old path.old) (λ v. Unit {0})) }
{
    let row = graph[u].as_slice();
    let i = first_unsettled(row, next[u], marks);
    next[u] = i;
    if i >= row.len() {
        finish(graph, marks, next, path, u);
        return Ok(None);
    }
    let v = row[i] as usize;
    if !is_new(marks, v) {
        return Ok(Some(v));
    }
    open(graph, marks, next, path, (u, v))?;
    Ok(None)
}

/// Searches all that a node leads to.
fn search(
    alloc: Global,
    graph: &[Seq<u32>],
    marks: &mut [Mark],
    next: &mut [usize],
    root: usize,
) -> Result<Option<usize>, NoMemory>
    requires unseen { mark_at marks.old root ≡ marked.New }
    requires search { IsSearch graph.now marks.old next.old [] }
    ensures search { IfOk result (λ o. MatchOption o (IsSearch graph.now marks.new next.new []) (IsOnCycle graph.now)) }
    ensures seen { StaySeen marks.old marks.new }
    ensures root { mark_at marks.new root ≡ marked.New → ⊥ }
{
    let mut path = Seq::new(alloc);
    marks[root] = Mark::Open;
    path.push(root)?;
    while let Some(u) = last(path.as_slice()) {
        match advance(graph, marks, next, &mut path, u)? {
            Some(v) => return Ok(Some(v)),
            None => {}
        }
    }
    Ok(None)
}

/// No node was looked at.
fn new_marks(alloc: Global, count: usize) -> Result<Vec<Mark>, NoMemory>
    ensures { IfOk result (λ marks. marks.items ≡ replicate count marked.New) }
{
    let mut marks = Vec::new(alloc);
    for _i in 0..count {
        marks.push(Mark::New)?;
    }
    Ok(marks)
}

/// No neighbour of any node was passed.
fn no_places(alloc: Global, count: usize) -> Result<Vec<usize>, NoMemory>
    ensures { IfOk result (λ next. next.items ≡ replicate count 0) }
{
    let mut next = Vec::new(alloc);
    for _i in 0..count {
        next.push(0)?;
    }
    Ok(next)
}

/// Searches all that a node leads to, unless it was looked at.
fn visit(
    alloc: Global,
    graph: &[Seq<u32>],
    marks: &mut [Mark],
    next: &mut [usize],
    root: usize,
) -> Result<Option<usize>, NoMemory>
    requires search { IsSearch graph.now marks.old next.old [] }
    ensures search { IfOk result (λ o. MatchOption o (IsSearch graph.now marks.new next.new []) (IsOnCycle graph.now)) }
    ensures seen { StaySeen marks.old marks.new }
    ensures root { mark_at marks.new root ≡ marked.New → ⊥ }
{
    if is_new(marks, root) {
        search(alloc, graph, marks, next, root)
    } else {
        Ok(None)
    }
}

/// A node on a cycle, of tables in which nothing was looked at.
fn visit_all(
    alloc: Global,
    graph: &[Seq<u32>],
    marks: &mut [Mark],
    next: &mut [usize],
) -> Result<Option<usize>, NoMemory>
    requires search { IsSearch graph.now marks.old next.old [] }
    ensures { IfOk result (λ o. MatchOption o ((u : ℕ) → IsOnCycle graph.now u → ⊥) (IsOnCycle graph.now)) }
{
    for root in 0..graph.len() {
        match visit(alloc, graph, marks, next, root)? {
            Some(u) => return Ok(Some(u)),
            None => {}
        }
    }
    Ok(None)
}

/// A node on a cycle, if there is a cycle.
///
/// # Errors
///
/// `NoMemory` where memory runs out.
#[tactic(auto, using(crate::proofs::SearchLemmas::begun))]
pub fn find_cycle(alloc: Global, graph: &[Seq<u32>]) -> Result<Option<usize>, NoMemory>
    ensures { IfOk result (λ o. MatchOption o ((u : ℕ) → IsOnCycle graph.now u → ⊥) (IsOnCycle graph.now)) }
{
    let mut marks = new_marks(alloc, graph.len())?;
    let mut next = no_places(alloc, graph.len())?;
    visit_all(alloc, graph, marks.as_mut_slice(), next.as_mut_slice())
}
