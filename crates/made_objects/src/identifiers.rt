ghost use Rattle.std.specs.Prelude.{◌≡◌, ◌<◌, ◌+◌, ◌^◌, length, IfOk};
ghost use Rattle.repair_semantics.specs.CandidateObjects.{fresh_id};
ghost use Rattle.made_objects.specs.Headers.{IsNextUnused};

use mof_metamodel::{NoMemory, Text};
use object_tables::Model;
use std::alloc::Global;

/// An identifier that no object of the target has, and the number behind its own.
#[derive(Drop)]
pub(crate) struct Unused {
    pub(crate) id: Text,
    pub(crate) next: u64,
}

/// `n` and a number.
fn numbered(alloc: Global, number: u64) -> Result<Text, NoMemory>
    ensures { IfOk result (λ id. id ≡ fresh_id number) }
{
    Ok(Text::from_string(format!(in alloc; "n{number}")?))
}

/// The first of `n0`, `n1`, .. from a number on that no object of the target has.
pub(crate) fn next_unused(alloc: Global, target: &Model<'_>, from: u64) -> Result<Unused, NoMemory>
    requires { from + length target.now.objects + 1 < 2 ^ 64 }
    ensures { IfOk result (IsNextUnused target.now from) }
{
    let past = from + u64::from(target.end()) + 1;
    for number in from..past {
        let id = numbered(alloc, number)?;
        if target.by_id(id.as_str()).is_none() {
            let next = number + 1;
            return Ok(Unused { id, next });
        }
    }
    unreachable!()
}
