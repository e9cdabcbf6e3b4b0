ghost use Rattle.std.specs.Prelude.{List, IfOk};
ghost use Rattle.mof_metamodel.specs.declared.desc.MetaDesc.{MetaDesc};
ghost use Rattle.term_table.specs.TermTables.{IsGrown};
ghost use Rattle.entry_finding.specs.Premises.{CanBeEnforced};
ghost use Rattle.entry_finding.specs.Prepared.{ArePreparations};
ghost use Rattle.entry_tops.specs.Tops.{AreTopsFound};
ghost use Rattle.entry_walk.specs.Ends.{IsWalkEnd};
ghost use Rattle.entry_walk.specs.Walking.{HasWalked};

use crate::ends::{Reaches, WalkEnd};
use crate::finished::FinishedTable;
use crate::ground::Ground;
use crate::walking::reach_all;
use crate::whole::all_entries;
use entry_finding::{World, preparations};
use entry_tops::{Tops, TopsEnd, top_entries};
use mof_metamodel::{NoMemory, Seq};
use ocl_eval::Models;
use qv_syntax::Program;
use std::alloc::Global;
use term_table::TermTable;

/// What comes of a walk that begins with the entries of top relations: all calls have been walked, or it has come to an end.
#[derive(Drop)]
enum FromTops {
    All(FinishedTable),
    Ended(WalkEnd),
}

/// Walks the calls that the entries of top relations make.
fn walk_from(ground: &Ground<'_, '_, '_>, table: &mut TermTable) -> Result<FromTops, NoMemory>
    requires premises { (metas : List MetaDesc) × CanBeEnforced metas ground.now.world.program.now ground.now.world.models.now }
    requires prepared { ArePreparations ground.now.world.program.now ground.now.world.models.now ground.now.world.preparations.now }
    requires tops { AreTopsFound ground.now.world.program.now ground.now.world.models.now table.old ground.now.tops.now }
    ensures walked { IfOk result (HasWalked ground.now.world.program.now ground.now.world.models.now table.new ground.now.tops.now) }
    ensures grown { IsGrown table.old table.new }
{
    let mut finished = FinishedTable::new(ground.world.alloc);
    let mut path = Seq::new(ground.world.alloc);
    let calls = ground.tops.calls.as_slice();
    match reach_all(ground, table, &mut finished, &mut path, calls)? {
        Reaches::All(_) => Ok(FromTops::All(finished)),
        Reaches::Ended(end) => Ok(FromTops::Ended(end)),
    }
}

/// The entries of top relations, and those of the calls behind them.
fn with_calls(
    world: &World<'_, '_, '_>,
    table: &mut TermTable,
    tops: Tops,
) -> Result<WalkEnd, NoMemory>
    requires premises { (metas : List MetaDesc) × CanBeEnforced metas world.now.program.now world.now.models.now }
    requires prepared { ArePreparations world.now.program.now world.now.models.now world.now.preparations.now }
    requires tops { AreTopsFound world.now.program.now world.now.models.now table.old tops }
    ensures end { IfOk result (IsWalkEnd world.now.program.now world.now.models.now table.new) }
    ensures grown { IsGrown table.old table.new }
{
    let ground = Ground {
        world: *world,
        tops: &tops,
    };
    match walk_from(&ground, table)? {
        FromTops::All(finished) => {
            let Tops {
                entries,
                calls,
                matches,
            } = tops;
            Ok(WalkEnd::Whole(all_entries(entries, finished)?))
        }
        FromTops::Ended(end) => Ok(end),
    }
}

/// All entries of a program that can be enforced, by the terms of a table, to which those of its entries are added; or the first chain of
/// calls that comes back to one of them or is too long, or the first entry that is unmet, to which the walk comes. Each call is explored
/// once.
///
/// # Errors
///
/// `NoMemory` where memory runs out. The table may have grown then.
pub fn walked_entries(
    alloc: Global,
    program: &Program,
    models: &Models<'_>,
    table: &mut TermTable,
) -> Result<WalkEnd, NoMemory>
    requires premises { (metas : List MetaDesc) × CanBeEnforced metas program.now models.now }
    ensures end { IfOk result (IsWalkEnd program.now models.now table.new) }
    ensures grown { IsGrown table.old table.new }
{
    let prepared = preparations(alloc, program, models)?;
    let world = World {
        alloc,
        program,
        models,
        preparations: prepared.as_slice(),
    };
    match top_entries(&world, table)? {
        TopsEnd::Met(tops) => with_calls(&world, table, tops),
        TopsEnd::Unmet(unmet) => Ok(WalkEnd::Unmet(unmet)),
    }
}
