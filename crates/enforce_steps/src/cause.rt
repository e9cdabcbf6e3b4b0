use mof_metamodel::{NoMemory as OutOfMemory, Seq};

/// For what an enforcement or a trace is refused.
#[derive(Clone, Copy)]
pub enum Cause {
    /// A relation of the direction breaks a rule of what can be enforced.
    NotEnforceable,
    /// A chain of entries comes back to one of its calls, or has too many.
    Chain,
    /// An entry can't be fulfilled.
    Unmet,
    /// Two demands that no model meets.
    Conflict,
    /// The model that would be made breaks a bound, or has a cycle of containers.
    Invalid,
    /// The model that would be made has too many objects, or is too deep, or its text is too long.
    Limit,
}

/// Why a step gives nothing.
#[derive(Drop)]
pub enum StepError {
    /// It is refused, as this text tells.
    Refused { cause: Cause, text: Seq<u8> },
    /// Memory could not be had.
    NoMemory,
}

impl From<OutOfMemory> for StepError {
    ghost use Rattle.std.specs.Prelude.{◌≡◌};
    ghost use Rattle.enforce_steps.specs.declared.cause.StepError.TheVariants as errors;

    ghost from_gives = { λ _ e. e ≡ errors.NoMemory };

    fn from(_error: OutOfMemory) -> StepError {
        StepError::NoMemory
    }
}
