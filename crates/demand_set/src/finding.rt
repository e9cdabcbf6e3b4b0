ghost use Rattle.std.specs.Prelude.{◌≡◌, List, map, All, IfOk, IfErr};
ghost use Rattle.mof_metamodel.specs.declared.desc.MetaDesc.{MetaDesc};
ghost use Rattle.object_tables.specs.Models.{ModelData};
ghost use Rattle.source_laws.specs.Agreement.{AgreeBut};
ghost use Rattle.repair_semantics.specs.TargetItems.{target_metamodel};
ghost use Rattle.qv_syntax.specs.declared.program.Program.{Program};
ghost use Rattle.entry_making.specs.CallNumbers.{call_of};
ghost use Rattle.entry_finding.specs.Found.{entry_in, IsUnmetAt, IsEntryWithin, IsCallWithin};
ghost use Rattle.entry_finding.specs.Premises.{CanBeEnforced};
ghost use Rattle.entry_walk.specs.Ends.{AreAllEntries};
ghost use Rattle.repair_semantics.specs.EntryChains.{CyclicEntries, DeepEntries, IsUnmet};
ghost use Rattle.demand_set.specs.DemandSets.{IsDemandSet, IsRefusal};

use crate::demand_error::DemandError;
use crate::ordering::in_order;
use crate::set::DemandSet;
use crate::trees::{chain_trees, found_tree};
use entry_finding::{NumberedEntry, UnmetEntry};
use entry_making::NumberedCall;
use entry_walk::{WalkEnd, walked_entries};
use mof_metamodel::{MetaModel, Seq};
use ocl_eval::Models;
use qv_syntax::Program;
use std::alloc::Global;
use term_table::TermTable;

/// The metamodel of the target.
fn target_meta<'m>(program: &Program, models: &Models<'m>) -> &'m MetaModel
    requires premises { (metas : List MetaDesc) × CanBeEnforced metas program.now models.now }
    ensures { result.now ≡ target_metamodel program.now models.now }
{
    match models.get(program.target as usize) {
        Some(model) => model.meta(),
        None => unreachable!(),
    }
}

/// The demands of all entries, if no two of them are in conflict.
fn demands_of(
    alloc: Global,
    program: &Program,
    models: &Models<'_>,
    table: TermTable,
    entries: Seq<NumberedEntry>,
) -> Result<DemandSet, DemandError>
    requires premises { (metas : List MetaDesc) × CanBeEnforced metas program.now models.now }
    requires whole { AreAllEntries program.now models.now table entries }
    ensures ok { IfOk result (IsDemandSet program.now models.now) }
    ensures refusal { IfErr result (IsRefusal program.now models.now) }
{
    let entries = in_order(&table, entries);
    let demands = DemandSet::of_entries(alloc, table, entries)?;
    match demands.conflict(alloc, target_meta(program, models))? {
        None => Ok(demands),
        Some(clash) => Err(DemandError::Conflict(clash)),
    }
}

/// A chain that comes back to one of its calls, as it is told.
fn cyclic(alloc: Global, table: &TermTable, chain: Seq<NumberedCall>) -> DemandError
    requires { All (IsCallWithin table.now) chain }
    ensures { (program : Program) (models : List ModelData) → CyclicEntries program models (map (call_of table.now) chain) → IsRefusal program models result }
{
    match chain_trees(alloc, table, chain.as_slice()) {
        Ok(names) => DemandError::Cycle(names),
        Err(_) => DemandError::NoMemory,
    }
}

/// A chain that is too long, as it is told.
fn too_deep(alloc: Global, table: &TermTable, chain: Seq<NumberedCall>) -> DemandError
    requires { All (IsCallWithin table.now) chain }
    ensures { (program : Program) (models : List ModelData) → DeepEntries program models (map (call_of table.now) chain) → IsRefusal program models result }
{
    match chain_trees(alloc, table, chain.as_slice()) {
        Ok(names) => DemandError::Deep(names),
        Err(_) => DemandError::NoMemory,
    }
}

/// An entry that is unmet, as it is told.
fn unmet(alloc: Global, table: &TermTable, found: UnmetEntry) -> DemandError
    requires { IsEntryWithin table.now found.entry }
    ensures { (program : Program) (models : List ModelData) → IsUnmet program models (entry_in table.now found.entry) → IsUnmetAt program models (entry_in table.now found.entry) found.place → IsRefusal program models result }
{
    match found_tree(alloc, table, &found.entry) {
        Ok(entry) => DemandError::Unmet {
            entry,
            place: found.place,
        },
        Err(_) => DemandError::NoMemory,
    }
}

/// All entries of a program that can be enforced, what they demand of the target, and the objects of the target that are demanded (QVT 1.3,
/// sections 7.2 and 7.10.2). The target model isn't looked at, but for its metamodel. Entries are sorted by relation, then by their values; the
/// demands of an entry stand in the order of the text.
///
/// # Errors
///
/// A chain of calls in where clauses that comes back to one of its calls or is too long, an entry that can't be fulfilled, or two demands that no
/// model meets: each only where it stands, and one where any does. `NoMemory` where memory runs out.
/// What is answered is so for all target models of the metamodel.
pub fn demands(
    alloc: Global,
    program: &Program,
    models: &Models<'_>,
) -> Result<DemandSet, DemandError>
    requires premises { (metas : List MetaDesc) × CanBeEnforced metas program.now models.now }
    ensures ok { IfOk result (IsDemandSet program.now models.now) }
    ensures refusal { IfErr result (IsRefusal program.now models.now) }
    ensures sources { IfOk result (λ d. (others : List ModelData) → AgreeBut program.now.target models.now others → target_metamodel program.now models.now ≡ target_metamodel program.now others → IsDemandSet program.now others d) }
    ensures refusal_sources { IfErr result (λ e. (others : List ModelData) → AgreeBut program.now.target models.now others → target_metamodel program.now models.now ≡ target_metamodel program.now others → IsRefusal program.now others e) }
{
    let mut table = TermTable::new(alloc);
    match walked_entries(alloc, program, models, &mut table)? {
        WalkEnd::Whole(entries) => demands_of(alloc, program, models, table, entries),
        WalkEnd::Cycle(chain) => Err(cyclic(alloc, &table, chain)),
        WalkEnd::Deep(chain) => Err(too_deep(alloc, &table, chain)),
        WalkEnd::Unmet(found) => Err(unmet(alloc, &table, found)),
    }
}
