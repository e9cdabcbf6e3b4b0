use mof_metamodel::{NoMemory as OutOfMemory, Text};
use object_tables::{Breach, LimitKind};

/// Why a target can't become what is demanded of it.
#[derive(Drop)]
pub enum EnforceError {
    /// The model that would be made breaks this rule first, at the object with this identifier.
    Invalid(Breach, Text),
    /// It would have more objects, or be deeper, than a model may.
    Limit(LimitKind),
    NoMemory,
}

impl From<OutOfMemory> for EnforceError {
    ghost use Rattle.std.specs.Prelude.{◌≡◌};
    ghost use Rattle.enforce_mode.specs.declared.error.EnforceError.TheVariants.{NoMemory};

    ghost from_gives = { λ _ e. e ≡ NoMemory };

    fn from(_error: OutOfMemory) -> EnforceError {
        EnforceError::NoMemory
    }
}
