//! Whether a binding in which some variables have no value yet may lead to one that is looked for.
ghost use Rattle.std.specs.Prelude.{◌≡◌, false, IfOk};
ghost use Rattle.template_match.specs.Branches.{IsBarren};
ghost use Rattle.template_match.specs.Prepared.{problem_in, IsPrepared};

use crate::agenda::Agenda;
use crate::prepared::Prepared;
use crate::pruning::part_may_hold;
use mof_metamodel::NoMemory;
use qvtr_semantics::Binding;

/// Whether a part may hold, if it says something of the values that are there.
fn is_part_allowed(
    prepared: &Prepared<'_, '_, '_>,
    binding: &Binding,
    agenda: &Agenda,
    number: usize,
) -> Result<bool, NoMemory>
    requires prepared { IsPrepared prepared.now binding.now.values }
    ensures { IfOk result (λ b. b ≡ false → IsBarren (problem_in prepared.now) binding.now.values) }
{
    match agenda.settled_part(number) {
        Some(part) => part_may_hold(prepared, binding, part),
        None => Ok(true),
    }
}

/// The same of each part.
fn is_each_allowed(
    prepared: &Prepared<'_, '_, '_>,
    binding: &Binding,
    agenda: &Agenda,
) -> Result<bool, NoMemory>
    requires prepared { IsPrepared prepared.now binding.now.values }
    ensures { IfOk result (λ b. b ≡ false → IsBarren (problem_in prepared.now) binding.now.values) }
{
    for number in 0..agenda.part_count() {
        if !is_part_allowed(prepared, binding, agenda, number)? {
            return Ok(false);
        }
    }
    Ok(true)
}

/// The same of each part that names a variable.
fn is_value_allowed(
    prepared: &Prepared<'_, '_, '_>,
    binding: &Binding,
    agenda: &Agenda,
    variable: u32,
) -> Result<bool, NoMemory>
    requires prepared { IsPrepared prepared.now binding.now.values }
    ensures { IfOk result (λ b. b ≡ false → IsBarren (problem_in prepared.now) binding.now.values) }
{
    let mentions = agenda.mentions();
    let mut at = mentions.first(variable);
    for _ in 0..mentions.len() {
        match mentions.at(at) {
            Some(mention) => {
                if !is_part_allowed(prepared, binding, agenda, mention.part)? {
                    return Ok(false);
                }
                at = mentions.behind(mention);
            }
            None => return Ok(true),
        }
    }
    Ok(true)
}

/// The same of each part that names the variable that was given a value last, if one was. Where all is tested at
/// once next, little of it, nothing is asked before.
pub(crate) fn is_allowed(
    prepared: &Prepared<'_, '_, '_>,
    binding: &Binding,
    agenda: &Agenda,
    given: Option<u32>,
) -> Result<bool, NoMemory>
    requires prepared { IsPrepared prepared.now binding.now.values }
    ensures { IfOk result (λ b. b ≡ false → IsBarren (problem_in prepared.now) binding.now.values) }
{
    match given {
        Some(variable) => {
            if agenda.is_full() && agenda.is_small() {
                Ok(true)
            } else {
                is_value_allowed(prepared, binding, agenda, variable)
            }
        }
        None => is_each_allowed(prepared, binding, agenda),
    }
}
