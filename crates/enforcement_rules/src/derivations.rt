//! What follows from rules: the least set of numbers of which a rule's number is one if all are that it asks for. It takes time in
//! proportion to the rules: each waits for one number that isn't there yet, and is looked at again when that comes.
ghost use Rattle.std.specs.Prelude.{◌≡◌, ◌<◌, ◌++◌, ◌∷◌, ◌↔◌, ℕ, List, [], true, false, length, replicate, slice_index_or, Contains, IfOk, OnOk};
ghost use Rattle.enforcement_rules.specs.Derivations.{IsDerivedNumber, NumberRule, with_bound, with_asked, IsStep, IsRuleBelow, IsWithin, IsUnderway};

use mof_metamodel::{NoMemory, Seq};
use std::alloc::Global;
use std::mem;

/// Rules behind others.
fn append(woken: Seq<(u32, Seq<u32>)>, pending: &mut Seq<(u32, Seq<u32>)>) -> Result<(), NoMemory>
    ensures { OnOk result (pending.new ≡ pending.old ++ woken) }
{
    for rule in woken.into_vec() {
        pending.push(rule)?;
    }
    Ok(())
}

/// Binds a number: the rules that wait for it are to be looked at again.
fn bind(
    alloc: Global,
    v: u32,
    bound: &mut [bool],
    waiting: &mut [Seq<(u32, Seq<u32>)>],
    pending: &mut Seq<(u32, Seq<u32>)>,
) -> Result<(), NoMemory>
    requires bound { v < length bound.old }
    requires waiting { v < length waiting.old }
    ensures { OnOk result (record { bound = bound.new; waiting = waiting.new; pending = pending.new } ≡ with_bound (record { bound = bound.old; waiting = waiting.old; pending = pending.old }) v) }
{
    let i = v as usize;
    if bound[i] {
        return Ok(());
    }
    bound[i] = true;
    let woken = mem::replace(&mut waiting[i], Seq::new(alloc));
    append(woken, pending)
}

/// A rule that asks for one more number waits for that, unless it is bound.
fn ask(
    rule: (u32, Seq<u32>),
    n: u32,
    bound: &[bool],
    waiting: &mut [Seq<(u32, Seq<u32>)>],
    pending: &mut Seq<(u32, Seq<u32>)>,
) -> Result<(), NoMemory>
    requires bound { n < length bound.now }
    requires waiting { n < length waiting.old }
    ensures { OnOk result (record { bound = bound.now; waiting = waiting.new; pending = pending.new } ≡ with_asked (record { bound = bound.now; waiting = waiting.old; pending = pending.old }) rule.0 rule.1 n) }
{
    let i = n as usize;
    if bound[i] {
        return pending.push(rule);
    }
    waiting[i].push(rule)
}

/// Looks at a rule: at the last number that it asks for.
fn step(
    alloc: Global,
    v: u32,
    mut asked: Seq<u32>,
    bound: &mut [bool],
    waiting: &mut [Seq<(u32, Seq<u32>)>],
    pending: &mut Seq<(u32, Seq<u32>)>,
) -> Result<(), NoMemory>
    requires bound { IsRuleBelow (length bound.old) (v, asked) }
    requires waiting { length waiting.old ≡ length bound.old }
    ensures { OnOk result (IsStep (record { bound = bound.old; waiting = waiting.old; pending = pending.old }) v asked (record { bound = bound.new; waiting = waiting.new; pending = pending.new })) }
{
    match asked.pop() {
        None => bind(alloc, v, bound, waiting, pending),
        Some(n) => ask((v, asked), n, bound, waiting, pending),
    }
}

/// Looks at rules as long as there are some to be looked at.
fn run(
    alloc: Global,
    bound: &mut [bool],
    waiting: &mut [Seq<(u32, Seq<u32>)>],
    pending: &mut Seq<(u32, Seq<u32>)>,
) -> Result<(), NoMemory>
    requires { IsWithin (length bound.old) (record { bound = bound.old; waiting = waiting.old; pending = pending.old }) }
    ensures done { OnOk result (pending.new ≡ []) }
    ensures kept { OnOk result ((rules : List NumberRule) → IsUnderway rules (record { bound = bound.old; waiting = waiting.old; pending = pending.old }) → IsUnderway rules (record { bound = bound.new; waiting = waiting.new; pending = pending.new })) }
{
    while let Some(rule) = pending.pop() {
        let (v, asked) = rule;
        step(alloc, v, asked, bound, waiting, pending)?;
    }
    Ok(())
}

/// For each number that none of the numbers is.
fn none_bound(alloc: Global, count: usize) -> Result<Vec<bool>, NoMemory>
    ensures { IfOk result (λ bound. bound.items ≡ replicate count false) }
{
    let mut bound = Vec::new(alloc);
    for _i in 0..count {
        bound.push(false)?;
    }
    Ok(bound)
}

/// For each number no rule that waits for it.
fn none_waiting(alloc: Global, count: usize) -> Result<Vec<Seq<(u32, Seq<u32>)>>, NoMemory>
    ensures { IfOk result (λ waiting. waiting.items ≡ replicate count []) }
{
    let mut waiting = Vec::new(alloc);
    for _i in 0..count {
        waiting.push(Seq::new(alloc))?;
    }
    Ok(waiting)
}

/// For each number whether it follows from the rules. All numbers are below `count`.
pub(crate) fn derived(
    alloc: Global,
    count: usize,
    rules: Seq<(u32, Seq<u32>)>,
) -> Result<Vec<bool>, NoMemory>
    requires { (rule : NumberRule) → Contains rules rule → IsRuleBelow count rule }
    ensures { IfOk result (λ bound. (n : ℕ) → (slice_index_or bound.items n false ≡ true) ↔ IsDerivedNumber rules n) }
{
    let mut bound = none_bound(alloc, count)?;
    let mut waiting = none_waiting(alloc, count)?;
    let mut pending = rules;
    run(
        alloc,
        bound.as_mut_slice(),
        waiting.as_mut_slice(),
        &mut pending,
    )?;
    Ok(bound)
}
