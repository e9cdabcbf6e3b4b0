ghost use Rattle.std.specs.Prelude.{◌≡◌, ◌↔◌, [], ◌∷◌, ◌++◌, Contains, IfOk, IsTrue};

use crate::call_key::is_same_call;
use entry_making::NumberedCall;
use mof_metamodel::{NoMemory, Seq};
use std::alloc::Global;
use term_table::{NumberedValue, duplicate_numbered};

/// Others of the same values.
fn duplicate_roots(alloc: Global, roots: &[NumberedValue]) -> Result<Seq<NumberedValue>, NoMemory>
    ensures { IfOk result (λ copies. copies ≡ roots.now) }
{
    let mut copies = Seq::new(alloc);
    for root in roots {
        copies.push(duplicate_numbered(alloc, root)?)?;
    }
    Ok(copies)
}

/// Another of the same call.
pub(crate) fn duplicate_call(alloc: Global, call: &NumberedCall) -> Result<NumberedCall, NoMemory>
    ensures { IfOk result (λ copy. copy ≡ call.now) }
{
    let roots = duplicate_roots(alloc, call.roots.as_slice())?;
    Ok(NumberedCall {
        rel: call.rel,
        roots,
    })
}

/// Others of the same calls.
fn duplicate_calls(alloc: Global, calls: &[NumberedCall]) -> Result<Seq<NumberedCall>, NoMemory>
    ensures { IfOk result (λ copies. copies ≡ calls.now) }
{
    let mut copies = Seq::new(alloc);
    for call in calls {
        copies.push(duplicate_call(alloc, call)?)?;
    }
    Ok(copies)
}

/// A path with one call more.
pub(crate) fn path_with(
    alloc: Global,
    path: &[NumberedCall],
    call: &NumberedCall,
) -> Result<Seq<NumberedCall>, NoMemory>
    ensures { IfOk result (λ calls. calls ≡ path.now ++ call.now ∷ []) }
{
    let mut calls = duplicate_calls(alloc, path)?;
    calls.push(duplicate_call(alloc, call)?)?;
    Ok(calls)
}

/// Whether the call is one of the path.
pub(crate) fn is_among(path: &[NumberedCall], call: &NumberedCall) -> bool
    ensures { IsTrue result ↔ Contains path.now call.now }
{
    for other in path {
        if is_same_call(other, call) {
            return true;
        }
    }
    false
}
