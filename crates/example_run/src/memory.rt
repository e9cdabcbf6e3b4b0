//! What an enforcement is refused for where nothing but memory can be wanting.
ghost use Rattle.std.specs.Prelude.{◌≡◌};
ghost use Rattle.demand_set.specs.declared.demand_error.DemandError.TheVariants as demands;
ghost use Rattle.enforce_mode.specs.declared.error.EnforceError.TheVariants as making;

use demand_set::DemandError;
use enforce_mode::EnforceError;
use mof_metamodel::NoMemory;

/// The want of memory for which there are no demands.
pub(crate) fn demand_memory(error: DemandError) -> NoMemory
    requires { error ≡ demands.NoMemory }
{
    match error {
        DemandError::NoMemory => NoMemory,
        DemandError::Cycle(_) => unreachable!(),
        DemandError::Deep(_) => unreachable!(),
        DemandError::Unmet { .. } => unreachable!(),
        DemandError::Conflict(_) => unreachable!(),
    }
}

/// The want of memory for which no model is made.
pub(crate) fn making_memory(error: EnforceError) -> NoMemory
    requires { error ≡ making.NoMemory }
{
    match error {
        EnforceError::NoMemory => NoMemory,
        EnforceError::Invalid(_, _) => unreachable!(),
        EnforceError::Limit(_) => unreachable!(),
    }
}
