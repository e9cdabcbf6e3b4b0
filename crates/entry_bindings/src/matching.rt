ghost use Rattle.std.specs.Prelude.{◌≡◌, IfOk};

use crate::starts::duplicate_roots;
use mof_metamodel::{NoMemory, Seq};
use std::alloc::Global;
use term_table::NumberedValue;

/// The name of an entry by number: its relation, and the values of the roots of its domains in their order.
#[derive(Drop)]
pub struct Match {
    pub rel: u32,
    pub roots: Seq<NumberedValue>,
}

/// Another of the same match.
pub(crate) fn duplicate_match(alloc: Global, found: &Match) -> Result<Match, NoMemory>
    ensures { IfOk result (λ copy. copy ≡ found.now) }
{
    let roots = duplicate_roots(alloc, found.roots.as_slice())?;
    Ok(Match {
        rel: found.rel,
        roots,
    })
}
