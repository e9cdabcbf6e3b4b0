ghost use Rattle.std.specs.Prelude.{◌≡◌, ◌≤◌, ◌<◌, ◌^◌, true, length, Some, slice_get, IfOk};
ghost use Rattle.object_tables.specs.Models.{ModelData};
ghost use Rattle.object_tables.specs.Validity.{Valid};
ghost use Rattle.example_models.specs.declared.limits.TheConstants.{MAX_SOURCE_CLASSES, SEEDS};
ghost use Rattle.example_models.specs.ClsTable.{cls_desc};
ghost use Rattle.example_models.specs.RdbTable.{rdb_desc};
ghost use Rattle.example_models.specs.Source.{attributes_before, source_data};
ghost use Rattle.example_program.specs.MainProgram.{main_program_data};
ghost use Rattle.example_laws.specs.ExampleModels.{first_models};
ghost use Rattle.example_run.specs.Examples.{IsGoodProgram, IsOutcome, IsSummary};
ghost use Rattle.example_run.specs.Repaired.{IsAfter, IsReadable};

use crate::models::{Size, attribute_count, first_models};
use crate::outcome::Outcome;
use crate::repairing::repair;
use crate::second_look::{holds_after, stays_after};
use crate::summary::Summary;
use example_laws::{demands_are_not_refused, made_targets_are_sound};
use example_models::{cls_metamodel, gen_source, rdb_metamodel};
use example_program::{
    main_program, main_program_is_enforceable, main_program_is_small, main_program_is_well_formed,
};
use mof_metamodel::{MetaModel, NoMemory, or_drop};
use object_tables::Model;
use ocl_eval::Models;
use qv_syntax::Program;
use std::alloc::Global;

/// The transformation is all that an enforcement asks of a program.
fn program_is_good()
    ensures { IsGoodProgram main_program_data }
{
    main_program_is_well_formed();
    main_program_is_enforceable();
    main_program_is_small()
}

/// Checks models in which an enforcement made the target, and enforces again.
fn look_again(
    alloc: Global,
    program: &Program,
    models: &mut Models<'_>,
    created: u32,
) -> Result<Outcome, NoMemory>
    requires after { IsAfter program.now models.old }
    requires few { length program.now.rels < 2 ^ 32 }
    requires readable { (m : ModelData) → slice_get models.old program.now.target ≡ Some m → IsReadable m }
    ensures { IfOk result (λ o. o ≡ record { created = created; holds = true; unchanged = true }) }
{
    models.index()?;
    let holds = holds_after(alloc, program, &*models)?;
    let unchanged = stays_after(alloc, program, models)?;
    Ok(Outcome {
        created,
        holds,
        unchanged,
    })
}

/// Enforces the transformation on the models of an example, checks them, and enforces it again.
fn run_models(
    alloc: Global,
    program: &Program,
    models: &mut Models<'_>,
    size: Size,
) -> Result<Outcome, NoMemory>
    requires program { program.now ≡ main_program_data }
    requires models { models.old ≡ first_models size.classes size.seed }
    requires valid { Valid (source_data size.classes size.seed) }
    requires classes { size.classes ≤ MAX_SOURCE_CLASSES }
    ensures { IfOk result (IsOutcome size.classes size.seed) }
{
    program_is_good();
    demands_are_not_refused();
    made_targets_are_sound();
    match repair(alloc, program, models) {
        Ok(report) => look_again(alloc, program, models, report.created),
        Err(NoMemory) => Err(NoMemory),
    }
}

/// The same from the source on.
fn run_source<'m>(
    alloc: Global,
    program: &Program,
    source: Model<'m>,
    rdb: &'m MetaModel,
    size: Size,
) -> Result<Outcome, NoMemory>
    requires program { program.now ≡ main_program_data }
    requires source { source ≡ source_data size.classes size.seed }
    requires valid { Valid source }
    requires rdb { rdb.now ≡ rdb_desc }
    requires classes { size.classes ≤ MAX_SOURCE_CLASSES }
    ensures { IfOk result (IsOutcome size.classes size.seed) }
{
    match first_models(alloc, source, rdb) {
        Ok(models) => {
            let mut models = models;
            let outcome = run_models(alloc, program, &mut models, size);
            drop(models);
            outcome
        }
        Err(NoMemory) => Err(NoMemory),
    }
}

/// What is told of an outcome.
fn summary_of(size: Size, attributes: u32, outcome: Outcome) -> Summary
    requires attributes { attributes ≡ attributes_before size.seed size.classes }
    requires outcome { IsOutcome size.classes size.seed outcome }
    ensures { IsSummary size.classes size.seed result }
{
    Summary {
        classes: size.classes,
        attributes,
        created: outcome.created,
        holds: outcome.holds,
        unchanged: outcome.unchanged,
    }
}

/// The same from the metamodels on.
fn run_size(
    alloc: Global,
    program: &Program,
    cls: &MetaModel,
    rdb: &MetaModel,
    size: Size,
) -> Result<Summary, NoMemory>
    requires program { program.now ≡ main_program_data }
    requires cls { cls.now ≡ cls_desc }
    requires rdb { rdb.now ≡ rdb_desc }
    requires some { 1 ≤ size.classes }
    requires classes { size.classes ≤ MAX_SOURCE_CLASSES }
    requires seed { size.seed < SEEDS }
    ensures { IfOk result (IsSummary size.classes size.seed) }
{
    match gen_source(alloc, cls, size.classes, size.seed) {
        Ok(source) => {
            let attributes = attribute_count(&source, size);
            match run_source(alloc, program, source, rdb, size) {
                Ok(outcome) => Ok(summary_of(size, attributes, outcome)),
                Err(NoMemory) => Err(NoMemory),
            }
        }
        Err(NoMemory) => Err(NoMemory),
    }
}

/// Runs the example with a source of so many classes, from 1 to `MAX_SOURCE_CLASSES`, made after a seed below
/// `SEEDS`: enforces the transformation from classes to tables on an empty target, checks it, and enforces it
/// again. Then the relations hold, and the second enforcement changed nothing.
///
/// # Errors
///
/// `NoMemory` where memory runs out. Neither enforcement is refused, nor is the check.
pub fn run_example(alloc: Global, n: u32, seed: u32) -> Result<Summary, NoMemory>
    requires some { 1 ≤ n }
    requires classes { n ≤ MAX_SOURCE_CLASSES }
    requires seed { seed < SEEDS }
    ensures { IfOk result (IsSummary n seed) }
{
    let cls = cls_metamodel(alloc)?;
    let rdb = or_drop!(rdb_metamodel(alloc); cls);
    let program = or_drop!(main_program(alloc); cls, rdb);
    let size = Size { classes: n, seed };
    let summary = run_size(alloc, &program, &cls, &rdb, size);
    drop(program);
    drop(rdb);
    drop(cls);
    summary
}
