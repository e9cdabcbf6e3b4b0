use enforce_steps::Cause;
use mof_metamodel::{NoMemory, Seq};
use repair_semantics::Report;
use std::alloc::AllocFailed;

/// What an execution comes to.
#[derive(Drop)]
pub(crate) enum Outcome<'w> {
    /// The relations hold.
    Yes,
    /// They don't, and this is what is printed of it.
    No(Seq<u8>),
    /// The target stays as it is.
    Kept,
    /// The file at the target's path is to have these bytes, of which this is the report.
    Mended {
        path: &'w str,
        bytes: Seq<u8>,
        report: Report,
    },
    /// The trace of what would be enforced.
    Traced(Seq<u8>),
}

/// What stops the work on a command.
#[derive(Drop)]
pub(crate) enum Stop<'w> {
    /// The file at the path couldn't be read.
    Fault(&'w str),
    /// The file at the path is too long.
    TooLong(&'w str),
    /// A file has a fault, for a limit that is passed or not. The line tells it.
    Faulty { is_limit: bool, line: Seq<u8> },
    /// The execution is refused for a cause. The text tells of what.
    Refused { cause: Cause, text: Seq<u8> },
    /// Memory could not be had.
    NoMemory,
}

impl From<NoMemory> for Stop<'_> {
    ghost use Rattle.std.specs.Prelude.{◌≡◌};
    ghost use Rattle.qvtr_engine.specs.declared.outcome.Stop.TheVariants as stop;

    ghost from_gives = { λ _ s. s ≡ stop.NoMemory };

    fn from(_error: NoMemory) -> Self {
        Stop::NoMemory
    }
}

impl<T: Drop> From<AllocFailed<T>> for Stop<'_> {
    ghost use Rattle.std.specs.Prelude.{◌≡◌};
    ghost use Rattle.qvtr_engine.specs.declared.outcome.Stop.TheVariants as stop;

    ghost from_gives = { λ _ s. s ≡ stop.NoMemory };

    fn from(_error: AllocFailed<T>) -> Self {
        Stop::NoMemory
    }
}
