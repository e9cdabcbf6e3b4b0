//! What is found over models in which an enforcement made the target: the relations hold, and another one changes
//! nothing.
ghost use Rattle.std.specs.Prelude.{◌≡◌, ◌↔◌, ◌<◌, ◌^◌, true, length, Some, slice_get, IfOk, IfErr, IsTrue};
ghost use Rattle.object_tables.specs.Models.{ModelData};
ghost use Rattle.check_mode.specs.declared.verdict.Verdict.TheVariants as verdicts;
ghost use Rattle.relation_calls.specs.declared.error.CallError.TheVariants as call_errors;
ghost use Rattle.example_run.specs.Repaired.{IsAfter, IsReadable};

use crate::repairing::repair;
use check_mode::{Verdict, check, verdicts_are_one};
use enforcement_laws::{
    demand_sets_are_of_sources, made_models_satisfy, made_models_stay, targets_are_replaced,
};
use mof_metamodel::NoMemory;
use ocl_eval::Models;
use qv_syntax::Program;
use relation_calls::CallError;
use std::alloc::Global;

/// Whether a verdict is that the relations hold.
fn is_yes(verdict: &Verdict) -> bool
    ensures { IsTrue result ↔ (verdict.now ≡ verdicts.Yes) }
{
    match verdict {
        Verdict::Yes => true,
        Verdict::No { .. } => false,
    }
}

/// The want of memory that a check is refused for.
fn call_memory(error: CallError) -> NoMemory
    requires { error ≡ call_errors.NoMemory }
{
    match error {
        CallError::NoMemory => NoMemory,
        CallError::Cycle(_) => unreachable!(),
        CallError::Deep(_) => unreachable!(),
    }
}

/// Whether the relations hold: they do.
pub(crate) fn holds_after(
    alloc: Global,
    program: &Program,
    models: &Models<'_>,
) -> Result<bool, NoMemory>
    requires after { IsAfter program.now models.now }
    requires few { length program.now.rels < 2 ^ 32 }
    ensures { IfOk result (λ holds. holds ≡ true) }
{
    made_models_satisfy();
    verdicts_are_one();
    match check(alloc, program, models) {
        Ok(verdict) => {
            let holds = is_yes(&verdict);
            drop(verdict);
            Ok(holds)
        }
        Err(error) => Err(call_memory(error)),
    }
}

/// Whether another enforcement changes nothing: it does, and nothing is refused.
pub(crate) fn stays_after(
    alloc: Global,
    program: &Program,
    models: &mut Models<'_>,
) -> Result<bool, NoMemory>
    requires after { IsAfter program.now models.old }
    requires readable { (m : ModelData) → slice_get models.old program.now.target ≡ Some m → IsReadable m }
    ensures { IfOk result (λ unchanged. unchanged ≡ true) }
{
    targets_are_replaced();
    demand_sets_are_of_sources();
    made_models_stay();
    match repair(alloc, program, models) {
        Ok(report) => Ok(report.unchanged),
        Err(NoMemory) => Err(NoMemory),
    }
}
