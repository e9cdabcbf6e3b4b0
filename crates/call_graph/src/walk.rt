ghost use Rattle.std.specs.Prelude.{◌≡◌, ℕ, List, [], ◌+◌, ◌^◌, ◌<◌, ◌≤◌, length, slice_index_or, take, map, min, IfOk, OnOk, MatchOption};
ghost use Rattle.call_graph.specs.declared.standing.Standing.TheVariants as stands;
ghost use Rattle.call_graph.specs.Strata.{IsOnWhenCycle, AreStrata, AreLayers};
ghost use Rattle.call_graph.specs.Tops.{AreSettled, IsClosed, IsOpenWhen};
ghost use Rattle.call_graph.specs.Walks.{standing_at, node_at, calls_of, call_at, passed_at, new_count, stratum_of, IsWalk, GoesOn, IsWalkOn, IsVisited, IsNew, EndsIn, IsEntered, IsPassed, IsFollowed, IsLowered};

use crate::layers::Layers;
use crate::standing::Standing;
use crate::step::Step;
use crate::tops::{need_of_group, open_when, row_of, standing_of};
use mof_metamodel::{NoMemory, Seq};
use std::alloc::Global;

/// How far a walk has come: with each node, and how many of its calls were passed; the nodes that are open, in the
/// order in which they were opened; and the path.
#[derive(Drop)]
pub(crate) struct Walk {
    pub(crate) standings: Vec<Standing>,
    pub(crate) passed: Vec<usize>,
    pub(crate) stack: Seq<usize>,
    pub(crate) path: Seq<Step>,
}

/// The call of a node in this place, of its when calls and then its where calls.
fn call_of(whens: &[Seq<u32>], wheres: &[Seq<u32>], u: usize, k: usize) -> Option<usize>
    requires when { u < length whens.now }
    requires wheres { u < length wheres.now }
    ensures { MatchOption result (length (calls_of whens.now wheres.now u) ≤ k)
        (λ v. (k < length (calls_of whens.now wheres.now u)) × (call_at whens.now wheres.now u k ≡ v) × (k + 1 < 2 ^ 64)) }
{
    let by_when = row_of(whens, u);
    let by_where = row_of(wheres, u);
    if k < by_when.len() {
        return Some(by_when[k] as usize);
    }
    let rest = k - by_when.len();
    if rest < by_where.len() {
        Some(by_where[rest] as usize)
    } else {
        None
    }
}

/// A number of a list.
fn item(numbers: &[usize], place: usize) -> usize
    requires { place < length numbers.now }
    ensures { result ≡ slice_index_or numbers.now place 0 }
{
    numbers[place]
}

/// The last step of a path.
fn last(path: &[Step]) -> Option<Step>
    ensures { MatchOption result (path.now ≡ []) (EndsIn path.now) }
{
    match path {
        [.., step] => Some(*step),
        [] => None,
    }
}

/// The lesser of two numbers.
fn lesser(a: usize, b: usize) -> usize
    ensures { result ≡ min a b }
{
    if a < b { a } else { b }
}

/// The last step of a path is known to reach this place too.
fn lower(path: &mut Seq<Step>, p: usize) -> Result<(), NoMemory>
    ensures { OnOk result (IsLowered path.old p path.new) }
{
    match path.pop() {
        Some(step) => path.push(Step {
            place: step.place,
            low: lesser(step.low, p),
        }),
        None => Ok(()),
    }
}

/// Opens a node that was not looked at, and puts it behind the path.
fn enter(walk: &mut Walk, v: usize) -> Result<(), NoMemory>
    requires { v < length walk.old.standings.items }
    ensures { OnOk result (IsEntered walk.old v walk.new) }
{
    let place = walk.stack.len();
    walk.standings[v] = Standing::Open(place);
    walk.stack.push(v)?;
    walk.path.push(Step { place, low: place })
}

/// Passes the call of a node in this place, which leads to one that is open in this place.
fn pass_open(walk: &mut Walk, u: usize, k: usize, p: usize) -> Result<(), NoMemory>
    requires inside { u < length walk.old.passed.items }
    requires short { k + 1 < 2 ^ 64 }
    ensures { OnOk result (IsPassed walk.old u (k + 1) walk.new × IsLowered walk.old.path p walk.new.path) }
{
    walk.passed[u] = k + 1;
    lower(&mut walk.path, p)
}

/// Passes the call of a node in this place, which leads to one that is done.
fn pass_done(walk: &mut Walk, u: usize, k: usize)
    requires inside { u < length walk.old.passed.items }
    requires short { k + 1 < 2 ^ 64 }
    ensures passed { IsPassed walk.old u (k + 1) walk.new }
    ensures path { walk.new.path ≡ walk.old.path }
{
    walk.passed[u] = k + 1;
}

/// Follows the call of a node in this place to a node that was not looked at, or passes it.
fn follow(walk: &mut Walk, u: usize, k: usize, v: usize) -> Result<(), NoMemory>
    requires inside { u < length walk.old.passed.items }
    requires short { k + 1 < 2 ^ 64 }
    ensures { OnOk result (IsFollowed walk.old u k v walk.new) }
{
    match standing_of(walk.standings.as_slice(), v) {
        Standing::New => enter(walk, v),
        Standing::Open(p) => pass_open(walk, u, k, p),
        Standing::Done(_) => {
            pass_done(walk, u, k);
            Ok(())
        }
    }
}

/// Gives the nodes from a place on a stratum.
fn settle(standings: &mut [Standing], stack: &mut Seq<usize>, from: usize, stratum: usize)
    requires inside { (p : ℕ) → p < length stack.old → node_at stack.old p < length standings.old }
    requires short { from ≤ length stack.old }
    ensures settled { AreSettled standings.old standings.new stack.old from stratum }
    ensures stack { stack.new ≡ take from stack.old }
    ensures fewer { new_count standings.new ≤ new_count standings.old }
{
    while stack.len() > from {
        let u = stack.as_slice()[stack.len() - 1];
        standings[u] = Standing::Done(stratum);
        let _last = stack.pop();
    }
}

/// Closes the nodes from a place on, which reach each other. One that calls another of them in a when clause lies on
/// a cycle.
fn close(whens: &[Seq<u32>], wheres: &[Seq<u32>], walk: &mut Walk, from: usize) -> Option<usize>
    requires inside { (p : ℕ) → p < length walk.old.stack → node_at walk.old.stack p < length whens.now }
    requires same { length whens.now ≡ length wheres.now }
    requires long { length walk.old.standings.items ≡ length whens.now }
    requires room { (w stratum : ℕ) → standing_at walk.old.standings.items w ≡ stands.Done stratum → stratum + 1 ≤ length walk.old.standings.items }
    requires before { from ≤ length walk.old.stack }
    ensures { MatchOption result (IsClosed whens.now wheres.now walk.old from walk.new) (IsOpenWhen whens.now walk.old.standings.items walk.old.stack from) }
{
    match open_when(
        whens,
        walk.standings.as_slice(),
        walk.stack.as_slice(),
        from,
    ) {
        Some(u) => Some(u),
        None => {
            let stratum = need_of_group(
                whens,
                wheres,
                walk.standings.as_slice(),
                walk.stack.as_slice(),
                from,
            );
            settle(
                walk.standings.as_mut_slice(),
                &mut walk.stack,
                from,
                stratum,
            );
            None
        }
    }
}

/// Goes back from the last node of the path, all of whose calls were passed.
fn leave(
    whens: &[Seq<u32>],
    wheres: &[Seq<u32>],
    walk: &mut Walk,
    step: Step,
) -> Result<Option<usize>, NoMemory>
    requires same { length whens.now ≡ length wheres.now }
    requires walk { IsWalk whens.now wheres.now walk.old.standings.items walk.old.passed.items walk.old.stack walk.old.path }
    requires last { EndsIn walk.old.path step }
    requires all { length (calls_of whens.now wheres.now (node_at walk.old.stack step.place)) ≤ passed_at walk.old.passed.items (node_at walk.old.stack step.place) }
    ensures { IfOk result (λ o. MatchOption o (GoesOn whens.now wheres.now walk.old walk.new) (IsOnWhenCycle whens.now wheres.now)) }
{
    let _last = walk.path.pop();
    if step.low < step.place {
        lower(&mut walk.path, step.low)?;
        return Ok(None);
    }
    Ok(close(whens, wheres, walk, step.place))
}

/// Goes on from the last node of the path: along its next call, or back where all were passed.
fn advance(
    whens: &[Seq<u32>],
    wheres: &[Seq<u32>],
    walk: &mut Walk,
    step: Step,
) -> Result<Option<usize>, NoMemory>
    requires same { length whens.now ≡ length wheres.now }
    requires walk { IsWalk whens.now wheres.now walk.old.standings.items walk.old.passed.items walk.old.stack walk.old.path }
    requires last { EndsIn walk.old.path step }
    ensures { IfOk result (λ o. MatchOption o (GoesOn whens.now wheres.now walk.old walk.new) (IsOnWhenCycle whens.now wheres.now)) }
{
    let u = item(walk.stack.as_slice(), step.place);
    let k = item(walk.passed.as_slice(), u);
    match call_of(whens, wheres, u, k) {
        Some(v) => {
            follow(walk, u, k, v)?;
            Ok(None)
        }
        None => leave(whens, wheres, walk, step),
    }
}

/// Walks along all that a path leads to.
fn walk_on(
    whens: &[Seq<u32>],
    wheres: &[Seq<u32>],
    walk: &mut Walk,
) -> Result<Option<usize>, NoMemory>
    requires same { length whens.now ≡ length wheres.now }
    requires walk { IsWalk whens.now wheres.now walk.old.standings.items walk.old.passed.items walk.old.stack walk.old.path }
    ensures { IfOk result (λ o. MatchOption o (IsWalkOn whens.now wheres.now walk.old walk.new) (IsOnWhenCycle whens.now wheres.now)) }
{
    while let Some(step) = last(walk.path.as_slice()) {
        match advance(whens, wheres, walk, step)? {
            Some(u) => return Ok(Some(u)),
            None => {}
        }
    }
    Ok(None)
}

/// Walks along all that a node leads to, unless it was looked at.
fn visit(
    whens: &[Seq<u32>],
    wheres: &[Seq<u32>],
    walk: &mut Walk,
    root: usize,
) -> Result<Option<usize>, NoMemory>
    requires same { length whens.now ≡ length wheres.now }
    requires walk { IsWalk whens.now wheres.now walk.old.standings.items walk.old.passed.items walk.old.stack [] }
    requires path { walk.old.path ≡ [] }
    ensures { IfOk result (λ o. MatchOption o (IsVisited whens.now wheres.now walk.old root walk.new) (IsOnWhenCycle whens.now wheres.now)) }
{
    match standing_of(walk.standings.as_slice(), root) {
        Standing::New => {
            enter(walk, root)?;
            walk_on(whens, wheres, walk)
        }
        Standing::Open(_) | Standing::Done(_) => Ok(None),
    }
}

/// Nothing was looked at.
fn new_walk(alloc: Global, count: usize) -> Result<Walk, NoMemory>
    ensures { IfOk result (IsNew count) }
{
    let mut standings = Vec::new(alloc);
    let mut passed = Vec::new(alloc);
    for _i in 0..count {
        standings.push(Standing::New)?;
        passed.push(0)?;
    }
    Ok(Walk {
        standings,
        passed,
        stack: Seq::new(alloc),
        path: Seq::new(alloc),
    })
}

/// The stratum of a node; 0 for one that is not done.
fn stratum_of(standing: Standing) -> usize
    ensures { result ≡ stratum_of standing }
{
    match standing {
        Standing::Done(stratum) => stratum,
        Standing::New | Standing::Open(_) => 0,
    }
}

/// The strata of all nodes.
fn strata_of(alloc: Global, standings: &[Standing]) -> Result<Seq<usize>, NoMemory>
    ensures { IfOk result (λ strata. strata ≡ map stratum_of standings.now) }
{
    let mut strata = Seq::new(alloc);
    for i in 0..standings.len() {
        strata.push(stratum_of(standings[i]))?;
    }
    Ok(strata)
}

/// Walks along all calls.
fn visit_all(
    whens: &[Seq<u32>],
    wheres: &[Seq<u32>],
    walk: &mut Walk,
) -> Result<Option<usize>, NoMemory>
    requires same { length whens.now ≡ length wheres.now }
    requires walk { IsWalk whens.now wheres.now walk.old.standings.items walk.old.passed.items walk.old.stack [] }
    requires path { walk.old.path ≡ [] }
    ensures { IfOk result (λ o. MatchOption o (AreStrata whens.now wheres.now (map stratum_of walk.new.standings.items)) (IsOnWhenCycle whens.now wheres.now)) }
{
    for root in 0..whens.len() {
        match visit(whens, wheres, walk, root)? {
            Some(u) => return Ok(Some(u)),
            None => {}
        }
    }
    Ok(None)
}

/// The strata of nodes with calls of two kinds, in when and in where clauses: for each node the greatest number of
/// when calls on a path of calls from it. If there is a cycle of calls with a when call among them: a node on such a
/// cycle. In time linear in the number of nodes and calls.
///
/// # Errors
///
/// `NoMemory` where memory runs out.
pub fn strata(alloc: Global, whens: &[Seq<u32>], wheres: &[Seq<u32>]) -> Result<Layers, NoMemory>
    requires { length whens.now ≡ length wheres.now }
    ensures { IfOk result (AreLayers whens.now wheres.now) }
{
    let mut walk = new_walk(alloc, whens.len())?;
    match visit_all(whens, wheres, &mut walk)? {
        Some(u) => Ok(Layers::Cyclic(u)),
        None => Ok(Layers::Layered(strata_of(alloc, walk.standings.as_slice())?)),
    }
}
