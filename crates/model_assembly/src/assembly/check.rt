ghost use Rattle.std.specs.Prelude.{◌≡◌, IfOk, IfErr, OnOk};
ghost use Rattle.object_tables.specs.Validity.{IsFirstBreach, Valid};
ghost use Rattle.model_assembly.specs.AssemblyChecks as checks;

use crate::fault::ModelFault;
use mof_metamodel::{NoMemory, Text};
use object_tables::{Breach, LimitKind, MAX_DEPTH, Model};
use std::alloc::Global;

/// Why what a file writes is no model.
#[derive(Drop)]
pub enum AssemblyError {
    /// A fault of what is written.
    Content(ModelFault),
    /// Memory could not be had.
    NoMemory,
}

impl From<NoMemory> for AssemblyError {
    ghost use Rattle.model_assembly.specs.declared.assembly.check.AssemblyError.TheVariants as errors;

    ghost from_gives = { λ _ e. e ≡ errors.NoMemory };

    fn from(_error: NoMemory) -> AssemblyError {
        AssemblyError::NoMemory
    }
}

/// The fault of a model that breaks a rule.
fn invalid(alloc: Global, model: &Model<'_>, breach: Breach) -> Result<ModelFault, NoMemory>
    requires { IsFirstBreach model.now breach }
    ensures { IfOk result (checks.IsInvalidBy model.now breach) }
{
    // What every model keeps is known here.
    let _ = model.end();
    let id = Text::new(alloc, model.id_of(breach.object))?;
    Ok(ModelFault::Invalid(breach, id))
}

/// The fault of a valid model that nests too deeply.
fn depth_fault(alloc: Global, model: &Model<'_>) -> Result<Option<ModelFault>, NoMemory>
    requires { Valid model.now }
    ensures { IfOk result (checks.IsModelFault model.now) }
{
    let is_too_deep = model.greatest_depth(alloc)? > MAX_DEPTH;
    if is_too_deep {
        Ok(Some(ModelFault::Limit(LimitKind::Depth)))
    } else {
        Ok(None)
    }
}

/// The fault of a model, if it breaks a rule or nests too deeply. In time linear in the objects and their properties.
fn model_fault(alloc: Global, model: &Model<'_>) -> Result<Option<ModelFault>, NoMemory>
    ensures { IfOk result (checks.IsModelFault model.now) }
{
    match model.first_breach(alloc)? {
        Some(breach) => Ok(Some(invalid(alloc, model, breach)?)),
        None => depth_fault(alloc, model),
    }
}

/// Tells the fault of a model that isn't valid or is too deep.
pub(super) fn check(alloc: Global, model: &Model<'_>) -> Result<(), AssemblyError>
    ensures ok { OnOk result (checks.IsSoundModel model.now) }
    ensures fault { IfErr result (checks.IsRefusedBy model.now) }
{
    match model_fault(alloc, model)? {
        Some(fault) => Err(AssemblyError::Content(fault)),
        None => Ok(()),
    }
}
