//! One enforcement of a program on the target among models.
ghost use Rattle.std.specs.Prelude.{◌≡◌, ◌<◌, List, length, Some, slice_get, IfOk};
ghost use Rattle.mof_metamodel.specs.declared.desc.MetaDesc.{MetaDesc};
ghost use Rattle.object_tables.specs.Models.{ModelData};
ghost use Rattle.repair_laws.specs.Repairs.{with_target};
ghost use Rattle.entry_finding.specs.Premises.{CanBeEnforced};
ghost use Rattle.demand_set.specs.DemandSets.{IsDemandSet};
ghost use Rattle.example_run.specs.Repaired.{IsReadable, IsRepaired, IsUnrefused};

use crate::memory::{demand_memory, making_memory};
use demand_set::{DemandSet, demands};
use enforce_mode::{Edits, prepare};
use enforcement_laws::demand_sets_are_demands;
use mof_metamodel::NoMemory;
use object_tables::Model;
use ocl_eval::Models;
use qv_syntax::Program;
use repair_semantics::Report;
use std::alloc::Global;

/// The target among the models.
fn target_of<'a, 'm>(program: &Program, models: &'a Models<'m>) -> &'a Model<'m>
    requires { program.now.target < length models.now }
    ensures { slice_get models.now program.now.target ≡ Some result.now }
{
    match models.get(program.target as usize) {
        Some(target) => target,
        None => unreachable!(),
    }
}

/// What makes the target what is demanded of it.
fn readied<'m>(
    alloc: Global,
    program: &Program,
    models: &Models<'m>,
    found: &DemandSet,
) -> Result<Edits<'m>, NoMemory>
    requires premises { (metas : List MetaDesc) × CanBeEnforced metas program.now models.now }
    requires readable { (m : ModelData) → slice_get models.now program.now.target ≡ Some m → IsReadable m }
    requires unrefused { IsUnrefused program.now models.now }
    requires demanded { IsDemandSet program.now models.now found.now }
    ensures { IfOk result (λ e. IsRepaired program.now models.now (with_target program.now models.now e.made) e.report) }
{
    demand_sets_are_demands();
    let target = target_of(program, models);
    match prepare(alloc, program, found, target) {
        Ok(edits) => Ok(edits),
        Err(error) => Err(making_memory(error)),
    }
}

/// The same, from the demands on.
fn ready<'m>(alloc: Global, program: &Program, models: &Models<'m>) -> Result<Edits<'m>, NoMemory>
    requires premises { (metas : List MetaDesc) × CanBeEnforced metas program.now models.now }
    requires readable { (m : ModelData) → slice_get models.now program.now.target ≡ Some m → IsReadable m }
    requires unrefused { IsUnrefused program.now models.now }
    ensures { IfOk result (λ e. IsRepaired program.now models.now (with_target program.now models.now e.made) e.report) }
{
    match demands(alloc, program, models) {
        Ok(found) => {
            let edits = readied(alloc, program, models, &found);
            drop(found);
            edits
        }
        Err(error) => Err(demand_memory(error)),
    }
}

/// Makes the target among the models what is demanded of it, and says what that changes. Where memory runs out the
/// models stay as they are.
pub(crate) fn repair<'m>(
    alloc: Global,
    program: &Program,
    models: &mut Models<'m>,
) -> Result<Report, NoMemory>
    requires premises { (metas : List MetaDesc) × CanBeEnforced metas program.now models.old }
    requires readable { (m : ModelData) → slice_get models.old program.now.target ≡ Some m → IsReadable m }
    requires unrefused { IsUnrefused program.now models.old }
    ensures { IfOk result (IsRepaired program.now models.old models.new) }
{
    match ready(alloc, program, &*models) {
        Ok(edits) => {
            let report = edits.report();
            edits.apply(models.get_mut(program.target));
            Ok(report)
        }
        Err(NoMemory) => Err(NoMemory),
    }
}
