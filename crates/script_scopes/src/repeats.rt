ghost use Rattle.std.specs.Prelude.{◌≡◌, [], ℕ, List, IfOk, OnOk, Some, None};
ghost use Rattle.mof_metamodel.specs.MetaFaults.{first_repeat as repeat_in};
ghost use Rattle.ocl_environments.specs.Written.{IfFault};
ghost use Rattle.script_scopes.specs.Declarations.{IsRepeated};
ghost use Rattle.script_scopes.specs.Refusals.{IsRepeatFault};

use mof_metamodel::{NameTable, NoMemory, Text};
use ocl_environments::{TypeError, TypeFault};
use std::alloc::Global;

/// The first name that stands before it in the list.
pub fn first_repeat(alloc: Global, names: &[Text]) -> Result<Option<Text>, NoMemory>
    ensures { IfOk result (λ found. found ≡ repeat_in [] names.now) }
{
    let mut met: NameTable<u32> = NameTable::new(alloc);
    for name in names {
        if met.contains(name) {
            return Ok(Some(name.duplicate(alloc)?));
        }
        met.put(name.duplicate(alloc)?, 0)?;
    }
    Ok(None)
}

/// Refuses names of which one stands twice. It takes time in proportion to their number.
pub(crate) fn refuse_repeat(alloc: Global, names: &[Text]) -> Result<(), TypeError>
    ensures none { OnOk result ((name : List ℕ) → ¬ IsRepeated names.now name) }
    ensures fault { IfFault result (IsRepeatFault names.now) }
{
    match first_repeat(alloc, names)? {
        Some(name) => Err(TypeError::Fault(TypeFault::DuplicateName(name))),
        None => Ok(()),
    }
}
