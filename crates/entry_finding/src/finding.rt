//! The entries of a relation with some roots.
ghost use Rattle.std.specs.Prelude.{◌≡◌, List, slice_get, Some, IsSome, IfOk};
ghost use Rattle.mof_metamodel.specs.declared.desc.MetaDesc.{MetaDesc};
ghost use Rattle.qv_syntax.specs.declared.program.Rel.{Rel};
ghost use Rattle.repair_semantics.specs.TargetItems.{target_metamodel};
ghost use Rattle.term_table.specs.TermTables.{values_in, IsGrown};
ghost use Rattle.entry_bindings.specs.Matches.{names_in};
ghost use Rattle.entry_bindings.specs.Asked.{AreWithin, AreMatchesWithin};
ghost use Rattle.entry_finding.specs.declared.preparation.Preparation.{Preparation};
ghost use Rattle.entry_finding.specs.Premises.{CanBeEnforced};
ghost use Rattle.entry_finding.specs.Prepared.{IsPreparation, ArePreparations};
ghost use Rattle.entry_finding.specs.Found.{IsSought, AreFound, IsUnmetAmong, IfMet, IfUnmet};

use crate::all_made::all_made;
use crate::found::Finding;
use crate::making::Making;
use crate::preparation::Preparation;
use entry_bindings::{MatchTable, entry_bindings};
use mof_metamodel::NoMemory;
use ocl_eval::Models;
use qv_syntax::Program;
use std::alloc::Global;
use term_table::{NumberedValue, TermTable};

/// The program with its models, and what was found once for its relations.
#[derive(Clone, Copy)]
pub struct World<'a, 'p, 'm> {
    pub alloc: Global,
    pub program: &'a Program,
    pub models: &'a Models<'m>,
    pub preparations: &'a [Option<Preparation<'p>>],
}

/// A relation with the values of roots of its domains, as a top relation or as one that is called.
#[derive(Clone, Copy)]
pub struct Rooted<'a> {
    pub rel: u32,
    pub called: bool,
    pub roots: &'a [Option<NumberedValue>],
}

/// What was found for a relation of the direction.
fn prepared<'a, 'p>(preparation: &'a Option<Preparation<'p>>) -> &'a Preparation<'p>
    requires { IsSome preparation.now }
    ensures { preparation.now ≡ Some result.now }
{
    match preparation {
        Some(preparation) => preparation,
        None => unreachable!(),
    }
}

/// What was found for the relation of this number.
fn preparation_at<'a, 'p>(
    preparations: &'a [Option<Preparation<'p>>],
    number: u32,
) -> &'a Preparation<'p>
    requires { (p : Preparation) × (slice_get preparations.now number ≡ Some (Some p)) }
    ensures { slice_get preparations.now number ≡ Some (Some result.now) }
{
    match preparations.get(number as usize) {
        Some(found) => prepared(found),
        None => unreachable!(),
    }
}

/// The entries, by what was found once for the relation.
fn entries_by(
    world: &World<'_, '_, '_>,
    rooted: &Rooted<'_>,
    preparation: &Preparation<'_>,
    table: &mut TermTable,
    matches: &MatchTable,
) -> Result<Finding, NoMemory>
    requires sought { (metas : List MetaDesc) × CanBeEnforced metas world.now.program.now world.now.models.now × IsSought metas world.now.program.now world.now.models.now rooted.now.rel (values_in table.old rooted.now.roots.now) }
    requires prepared { (rel : Rel) → slice_get world.now.program.now.rels rooted.now.rel ≡ Some rel → IsPreparation world.now.program.now (target_metamodel world.now.program.now world.now.models.now) rooted.now.rel rel preparation.now }
    requires numbers { AreWithin table.old rooted.now.roots.now }
    requires names { AreMatchesWithin table.old matches.now }
    ensures met { IfOk result (IfMet (AreFound world.now.program.now world.now.models.now table.new (names_in table.new matches.now) rooted.now.rel rooted.now.called (values_in table.new rooted.now.roots.now))) }
    ensures unmet { IfOk result (IfUnmet (IsUnmetAmong world.now.program.now world.now.models.now table.new (names_in table.new matches.now) rooted.now.rel rooted.now.called (values_in table.new rooted.now.roots.now))) }
    ensures grown { IsGrown table.old table.new }
{
    let bindings = entry_bindings(
        world.alloc,
        world.program,
        world.models,
        &preparation.plan,
        table,
        matches,
        rooted.roots,
    )?;
    let task = Making {
        alloc: world.alloc,
        program: world.program,
        models: world.models,
        recipe: &preparation.recipe,
        rel: rooted.rel,
        called: rooted.called,
    };
    all_made(&task, table, bindings.as_slice())
}

/// The entries of a relation with these roots, each once, with the calls of their where clauses and what the items of their target templates
/// demand; or one that is unmet. The calls in their when clauses are among the matches. New terms go into the table, which only grows, also
/// where memory runs out. It takes the time of the search for the bindings and of the expressions of each entry.
///
/// # Errors
///
/// `NoMemory` where memory runs out.
pub fn entries_with(
    world: &World<'_, '_, '_>,
    rooted: &Rooted<'_>,
    table: &mut TermTable,
    matches: &MatchTable,
) -> Result<Finding, NoMemory>
    requires sought { (metas : List MetaDesc) × CanBeEnforced metas world.now.program.now world.now.models.now × IsSought metas world.now.program.now world.now.models.now rooted.now.rel (values_in table.old rooted.now.roots.now) }
    requires prepared { ArePreparations world.now.program.now world.now.models.now world.now.preparations.now }
    requires numbers { AreWithin table.old rooted.now.roots.now }
    requires names { AreMatchesWithin table.old matches.now }
    ensures met { IfOk result (IfMet (AreFound world.now.program.now world.now.models.now table.new (names_in table.new matches.now) rooted.now.rel rooted.now.called (values_in table.new rooted.now.roots.now))) }
    ensures unmet { IfOk result (IfUnmet (IsUnmetAmong world.now.program.now world.now.models.now table.new (names_in table.new matches.now) rooted.now.rel rooted.now.called (values_in table.new rooted.now.roots.now))) }
    ensures grown { IsGrown table.old table.new }
{
    let number = rooted.rel;
    entries_by(
        world,
        rooted,
        preparation_at(world.preparations, number),
        table,
        matches,
    )
}
