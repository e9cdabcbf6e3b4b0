ghost use Rattle.std.specs.Prelude.{◌≡◌, ◌<◌, ◌≤◌, ◌++◌, ◌∷◌, [], List, length, Contains, IfOk, OnOk};
ghost use Rattle.qvtr_semantics.specs.declared.limits.TheConstants.{MAX_CALLS};
ghost use Rattle.mof_metamodel.specs.declared.desc.MetaDesc.{MetaDesc};
ghost use Rattle.term_table.specs.TermTables.{IsGrown};
ghost use Rattle.entry_making.specs.declared.numbered_call.NumberedCall.{NumberedCall};
ghost use Rattle.entry_finding.specs.Premises.{CanBeEnforced};
ghost use Rattle.entry_finding.specs.Prepared.{ArePreparations};
ghost use Rattle.entry_walk.specs.FinishedTables.{IsUnfinished, AreStepped, height_in, finished_by, higher};
ghost use Rattle.entry_walk.specs.Explored.{IsExplored};
ghost use Rattle.entry_walk.specs.Walking.{IsWalking, IsNext, IsNew, HasReached, HasReachedAll, IsBlocked, HasPassed};

use crate::copying::{duplicate_call, is_among, path_with};
use crate::deep::deep_chain;
use crate::ends::{Height, Reached, Reaches, WalkEnd};
use crate::exploring::explored;
use crate::finished::{Finished, FinishedTable};
use crate::ground::Ground;
use entry_finding::{Finding, Found};
use entry_making::NumberedCall;
use mof_metamodel::{NoMemory, Seq};
use qvtr_semantics::MAX_CALLS;
use std::alloc::Global;
use term_table::TermTable;

/// Where a path can't go on with a call that hasn't been walked: the call is on the path, or the path has as many calls as it may have.
fn blocked(
    alloc: Global,
    path: &[NumberedCall],
    call: &NumberedCall,
) -> Result<Option<WalkEnd>, NoMemory>
    ensures { IfOk result (IsBlocked path.now call.now) }
{
    if is_among(path, call) {
        return Ok(Some(WalkEnd::Cycle(path_with(alloc, path, call)?)));
    }
    if path.len() >= MAX_CALLS {
        return Ok(Some(WalkEnd::Deep(path_with(alloc, path, call)?)));
    }
    Ok(None)
}

/// Where a path comes to a call that has been walked: it goes on if no chain that begins so is too long.
fn passed(
    alloc: Global,
    finished: &FinishedTable,
    path: &[NumberedCall],
    call: &NumberedCall,
    place: usize,
) -> Result<Reached, NoMemory>
    requires stepped { AreStepped finished.now }
    requires short { length path.now ≤ MAX_CALLS }
    requires within { place < length finished.now }
    ensures { IfOk result (HasPassed finished.now path.now call.now place) }
{
    if finished.at(place).height >= MAX_CALLS - path.len() {
        let chain = deep_chain(alloc, finished, path, call, place)?;
        return Ok(Reached::Ended(WalkEnd::Deep(chain)));
    }
    Ok(Reached::At(place))
}

/// The height over some calls and one more that stands at this place.
fn higher(finished: &FinishedTable, before: Height, place: usize) -> Height
    requires within { place < length finished.now }
    requires low { height_in finished.now place < MAX_CALLS }
    ensures { result ≡ higher finished.now before place }
{
    let height = finished.at(place).height;
    if height < before.height {
        before
    } else {
        Height {
            height: height + 1,
            behind: Some(place),
        }
    }
}

/// Takes the last call off the path, which is finished with these entries and this height, and answers its place.
fn leave(
    alloc: Global,
    finished: &mut FinishedTable,
    path: &mut Seq<NumberedCall>,
    found: Found,
    height: Height,
) -> Result<usize, NoMemory>
    requires { (before : List NumberedCall) × (call : NumberedCall) × (path.old ≡ before ++ call ∷ []) × IsUnfinished finished.old call }
    ensures place { IfOk result (λ n. n ≡ length finished.old) }
    ensures left { OnOk result ((call : NumberedCall) × (path.old ≡ path.new ++ call ∷ []) × (finished.new ≡ finished.old ++ finished_by call found height ∷ [])) }
{
    let Found { entries, calls } = found;
    drop(calls);
    match path.pop() {
        Some(call) => finished.add(
            alloc,
            Finished {
                call,
                entries,
                height: height.height,
                behind: height.behind,
            },
        ),
        None => unreachable!(),
    }
}

/// Walks a call with all that is behind it, if it hasn't been walked.
#[cycle(walking)]
fn reach(
    ground: &Ground<'_, '_, '_>,
    table: &mut TermTable,
    finished: &mut FinishedTable,
    path: &mut Seq<NumberedCall>,
    call: &NumberedCall,
) -> Result<Reached, NoMemory>
    requires premises { (metas : List MetaDesc) × CanBeEnforced metas ground.now.world.program.now ground.now.world.models.now }
    requires prepared { ArePreparations ground.now.world.program.now ground.now.world.models.now ground.now.world.preparations.now }
    requires walking { IsWalking ground.now.world.program.now ground.now.world.models.now ground.now.tops.now table.old finished.old path.old }
    requires leads { IsNext ground.now.world.program.now ground.now.world.models.now table.old path.old call.now }
    ensures reached { IfOk result (HasReached ground.now.world.program.now ground.now.world.models.now ground.now.tops.now finished.old path.old call.now table.new finished.new path.new) }
    ensures grown { IsGrown table.old table.new }
{
    let _count = table.len(); // says that no two terms are equal
    match finished.place_of(ground.world.alloc, call)? {
        Some(place) => passed(ground.world.alloc, finished, path.as_slice(), call, place),
        None => match blocked(ground.world.alloc, path.as_slice(), call)? {
            Some(end) => Ok(Reached::Ended(end)),
            None => visit(ground, table, finished, path, call),
        },
    }
}

/// Explores a call that hasn't been walked, and goes through the calls of its entries.
#[cycle(walking)]
fn visit(
    ground: &Ground<'_, '_, '_>,
    table: &mut TermTable,
    finished: &mut FinishedTable,
    path: &mut Seq<NumberedCall>,
    call: &NumberedCall,
) -> Result<Reached, NoMemory>
    requires premises { (metas : List MetaDesc) × CanBeEnforced metas ground.now.world.program.now ground.now.world.models.now }
    requires prepared { ArePreparations ground.now.world.program.now ground.now.world.models.now ground.now.world.preparations.now }
    requires walking { IsWalking ground.now.world.program.now ground.now.world.models.now ground.now.tops.now table.old finished.old path.old }
    requires leads { IsNext ground.now.world.program.now ground.now.world.models.now table.old path.old call.now }
    requires new { IsNew table.old finished.old path.old call.now }
    requires room { length path.old < MAX_CALLS }
    ensures reached { IfOk result (HasReached ground.now.world.program.now ground.now.world.models.now ground.now.tops.now finished.old path.old call.now table.new finished.new path.new) }
    ensures grown { IsGrown table.old table.new }
{
    match explored(ground, table, call)? {
        Finding::Met(found) => go_through(ground, table, finished, path, call, found),
        Finding::Unmet(unmet) => Ok(Reached::Ended(WalkEnd::Unmet(unmet))),
    }
}

/// Walks the calls that the entries of a call make, with the call on the path; then it is finished.
#[cycle(walking)]
fn go_through(
    ground: &Ground<'_, '_, '_>,
    table: &mut TermTable,
    finished: &mut FinishedTable,
    path: &mut Seq<NumberedCall>,
    call: &NumberedCall,
    found: Found,
) -> Result<Reached, NoMemory>
    requires premises { (metas : List MetaDesc) × CanBeEnforced metas ground.now.world.program.now ground.now.world.models.now }
    requires prepared { ArePreparations ground.now.world.program.now ground.now.world.models.now ground.now.world.preparations.now }
    requires walking { IsWalking ground.now.world.program.now ground.now.world.models.now ground.now.tops.now table.old finished.old path.old }
    requires leads { IsNext ground.now.world.program.now ground.now.world.models.now table.old path.old call.now }
    requires new { IsNew table.old finished.old path.old call.now }
    requires room { length path.old < MAX_CALLS }
    requires explored { IsExplored ground.now.world.program.now ground.now.world.models.now table.old ground.now.tops.now call.now found }
    ensures reached { IfOk result (HasReached ground.now.world.program.now ground.now.world.models.now ground.now.tops.now finished.old path.old call.now table.new finished.new path.new) }
    ensures grown { IsGrown table.old table.new }
{
    path.push(duplicate_call(ground.world.alloc, call)?)?;
    match reach_all(ground, table, finished, path, found.calls.as_slice())? {
        Reaches::All(height) => {
            let place = leave(ground.world.alloc, finished, path, found, height)?;
            Ok(Reached::At(place))
        }
        Reaches::Ended(end) => Ok(Reached::Ended(end)),
    }
}

/// Walks calls to which the path leads.
#[cycle(walking)]
pub(crate) fn reach_all(
    ground: &Ground<'_, '_, '_>,
    table: &mut TermTable,
    finished: &mut FinishedTable,
    path: &mut Seq<NumberedCall>,
    calls: &[NumberedCall],
) -> Result<Reaches, NoMemory>
    requires premises { (metas : List MetaDesc) × CanBeEnforced metas ground.now.world.program.now ground.now.world.models.now }
    requires prepared { ArePreparations ground.now.world.program.now ground.now.world.models.now ground.now.world.preparations.now }
    requires walking { IsWalking ground.now.world.program.now ground.now.world.models.now ground.now.tops.now table.old finished.old path.old }
    requires lead { (c : NumberedCall) → Contains calls.now c → IsNext ground.now.world.program.now ground.now.world.models.now table.old path.old c }
    ensures reached { IfOk result (HasReachedAll ground.now.world.program.now ground.now.world.models.now ground.now.tops.now finished.old path.old calls.now table.new finished.new path.new) }
    ensures grown { IsGrown table.old table.new }
{
    let mut height = Height {
        height: 0,
        behind: None,
    };
    for call in calls {
        match reach(ground, table, finished, path, call)? {
            Reached::At(place) => height = higher(finished, height, place),
            Reached::Ended(end) => return Ok(Reaches::Ended(end)),
        }
    }
    Ok(Reaches::All(height))
}
