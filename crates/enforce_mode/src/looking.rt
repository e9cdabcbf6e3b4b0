ghost use Rattle.std.specs.Prelude.{IfOk, IfErr, OnOk};
ghost use Rattle.object_tables.specs.Validity.{Valid, IsFirstBreach};
ghost use Rattle.enforce_mode.specs.Made.{HasFewObjects, IsSound, IsAgainst};

use crate::error::EnforceError;
use mof_metamodel::{NoMemory, Text};
use object_tables::{Breach, LimitKind, MAX_DEPTH, Model};
use std::alloc::Global;

/// That a model breaks a rule, with the identifier of the object where it does.
fn invalid(alloc: Global, made: &Model<'_>, breach: Breach) -> Result<EnforceError, NoMemory>
    requires { IsFirstBreach made.now breach }
    ensures { IfOk result (IsAgainst made.now) }
{
    // What every model keeps is known here.
    let _ = made.end();
    let id = Text::new(alloc, made.id_of(breach.object))?;
    Ok(EnforceError::Invalid(breach, id))
}

/// Looks a valid model through for objects that are too deep.
fn look_at_depth(alloc: Global, made: &Model<'_>) -> Result<(), EnforceError>
    requires { Valid made.now }
    ensures sound { OnOk result (IsSound made.now) }
    ensures against { IfErr result (IsAgainst made.now) }
{
    // That there are few objects is known here.
    let _ = made.end();
    if made.greatest_depth(alloc)? > MAX_DEPTH {
        return Err(EnforceError::Limit(LimitKind::Depth));
    }
    Ok(())
}

/// Looks a model through for what stands against it: a breach, or an object that is too deep (MOF 2.5.1, 12.4; the limit is this engine's
/// own). In time linear in the objects and their properties.
pub(crate) fn look_through(alloc: Global, made: &Model<'_>) -> Result<(), EnforceError>
    ensures sound { OnOk result (IsSound made.now) }
    ensures against { IfErr result (IsAgainst made.now) }
{
    match made.first_breach(alloc)? {
        Some(breach) => Err(invalid(alloc, made, breach)?),
        None => look_at_depth(alloc, made),
    }
}
