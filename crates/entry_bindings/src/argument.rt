ghost use Rattle.std.specs.Prelude.{◌≡◌, IfOk};

use mof_metamodel::NoMemory;
use std::alloc::Global;
use term_table::{NumberedValue, duplicate_numbered};

/// What a binding gives an argument of a call in a when clause.
#[derive(Drop)]
pub(crate) enum Argument {
    Given(NumberedValue),
    /// A variable for objects of the target that has no value yet: it takes that of the match.
    Open(u32),
}

/// Another of the same argument.
pub(crate) fn duplicate_argument(alloc: Global, argument: &Argument) -> Result<Argument, NoMemory>
    ensures { IfOk result (λ copy. copy ≡ argument.now) }
{
    match argument {
        Argument::Given(value) => Ok(Argument::Given(duplicate_numbered(alloc, value)?)),
        Argument::Open(variable) => Ok(Argument::Open(*variable)),
    }
}
