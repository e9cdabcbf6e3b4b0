ghost use Rattle.std.specs.Prelude.{◌≡◌, ◌<◌, ◌≤◌, ◌+◌, ◌++◌, ◌∷◌, [], ℕ, List, suc, length, IfOk, OnOk};
ghost use Rattle.qvtr_semantics.specs.declared.limits.TheConstants.{MAX_CALLS};
ghost use Rattle.entry_making.specs.declared.numbered_call.NumberedCall.{NumberedCall};
ghost use Rattle.entry_walk.specs.FinishedTables.{IsBehind, IsWay, AreStepped, height_in};

use crate::copying::{duplicate_call, path_with};
use crate::finished::FinishedTable;
use entry_making::NumberedCall;
use mof_metamodel::{NoMemory, Seq};
use qvtr_semantics::MAX_CALLS;
use std::alloc::Global;

/// The place of a call behind another that has calls behind it.
fn place_behind(finished: &FinishedTable, place: usize) -> usize
    requires stepped { AreStepped finished.now }
    requires high { 0 < height_in finished.now place }
    ensures behind { IsBehind finished.now place result }
    ensures lower { height_in finished.now place ≡ suc (height_in finished.now result) }
    ensures within { result < length finished.now }
{
    match finished.at(place).behind {
        Some(behind) => behind,
        None => unreachable!(),
    }
}

/// Goes on with the calls behind the last one of a chain until it has one call more than it may have.
fn lengthen(
    alloc: Global,
    finished: &FinishedTable,
    chain: &mut Seq<NumberedCall>,
    place: usize,
) -> Result<(), NoMemory>
    requires stepped { AreStepped finished.now }
    requires short { length chain.old ≤ suc MAX_CALLS }
    requires high { MAX_CALLS < length chain.old + height_in finished.now place }
    ensures way { OnOk result ((more : List NumberedCall) × (chain.new ≡ chain.old ++ more) × (last : ℕ) × IsWay finished.now place more last) }
    ensures long { OnOk result (length chain.new ≡ suc MAX_CALLS) }
{
    let mut at = place;
    while chain.len() <= MAX_CALLS {
        at = place_behind(finished, at);
        chain.push(duplicate_call(alloc, &finished.at(at).call)?)?;
    }
    Ok(())
}

/// The path, a call that has been walked, and calls behind it: one call more than a chain may have.
pub(crate) fn deep_chain(
    alloc: Global,
    finished: &FinishedTable,
    path: &[NumberedCall],
    call: &NumberedCall,
    place: usize,
) -> Result<Seq<NumberedCall>, NoMemory>
    requires stepped { AreStepped finished.now }
    requires short { length path.now ≤ MAX_CALLS }
    requires high { MAX_CALLS < suc (length path.now) + height_in finished.now place }
    ensures way { IfOk result (λ chain. (more : List NumberedCall) × (chain ≡ (path.now ++ call.now ∷ []) ++ more) × (last : ℕ) × IsWay finished.now place more last) }
    ensures long { IfOk result (λ chain. length chain ≡ suc MAX_CALLS) }
{
    let mut chain = path_with(alloc, path, call)?;
    lengthen(alloc, finished, &mut chain, place)?;
    Ok(chain)
}
