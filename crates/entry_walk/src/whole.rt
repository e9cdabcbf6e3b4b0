ghost use Rattle.std.specs.Prelude.{◌≡◌, ◌++◌, IfOk, OnOk};
ghost use Rattle.std.specs.List.{flat_map};
ghost use Rattle.entry_walk.specs.FinishedTables.{entries_of};

use crate::finished::{Finished, FinishedTable};
use entry_finding::NumberedEntry;
use mof_metamodel::{NoMemory, Seq};

/// Puts the entries of a call behind others.
fn append(all: &mut Vec<NumberedEntry>, one: Finished) -> Result<(), NoMemory>
    ensures { OnOk result (all.new.items ≡ all.old.items ++ entries_of one) }
{
    for entry in one.entries.into_vec() {
        all.push(entry)?;
    }
    Ok(())
}

/// The entries of top relations, and those of calls behind them.
pub(crate) fn all_entries(
    tops: Seq<NumberedEntry>,
    finished: FinishedTable,
) -> Result<Seq<NumberedEntry>, NoMemory>
    ensures { IfOk result (λ all. all ≡ tops ++ flat_map entries_of finished) }
{
    let mut all = tops.into_vec();
    for one in finished.into_items() {
        append(&mut all, one)?;
    }
    Ok(Seq::from_vec(all))
}
