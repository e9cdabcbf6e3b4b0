//! Why trying all comes to nothing.
ghost use Rattle.std.specs.Prelude.{◌≡◌};

use mof_metamodel::NoMemory as OutOfMemory;

/// There are too many tuples of values, or memory doesn't reach.
#[derive(Clone, Copy)]
pub enum PlainError {
    TooMany,
    NoMemory,
}

impl From<OutOfMemory> for PlainError {
    ghost use Rattle.repair_cases.specs.declared.plain_error.PlainError.TheVariants.{NoMemory};

    ghost from_gives = { λ _ e. e ≡ NoMemory };

    fn from(_error: OutOfMemory) -> PlainError {
        PlainError::NoMemory
    }
}
