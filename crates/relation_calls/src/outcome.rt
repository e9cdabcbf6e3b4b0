ghost use Rattle.std.specs.Prelude.{◌≡◌, IfOk};
ghost use Rattle.std.specs.List.{list_any};
ghost use Rattle.std.specs.Option.{option_map};
ghost use Rattle.template_match.specs.Search.{values_of};
ghost use Rattle.relation_calls.specs.Outcomes.{is_alone, is_partnered, first_alone};

use mof_metamodel::NoMemory;
use qvtr_semantics::Binding;
use std::alloc::Global;
use template_match::duplicate_binding;

/// What comes of a binding that meets the source of a relation.
#[derive(Clone, Copy)]
pub(crate) enum Outcome {
    /// Not all of its calls in the when clause match.
    Unmatched,
    /// They match, and it has no partner that meets the target and whose calls in the where clause hold.
    Alone,
    /// It has such a partner.
    Partnered,
}

/// Whether some binding has a partner.
pub(crate) fn is_any_partnered(outcomes: &[Outcome]) -> bool
    ensures { result ≡ list_any is_partnered outcomes.now }
{
    for outcome in outcomes {
        if matches!(outcome, Outcome::Partnered) {
            return true;
        }
    }
    false
}

/// Whether some binding has none, though its calls match.
pub(crate) fn is_any_alone(outcomes: &[Outcome]) -> bool
    ensures { result ≡ list_any is_alone outcomes.now }
{
    for outcome in outcomes {
        if matches!(outcome, Outcome::Alone) {
            return true;
        }
    }
    false
}

/// The first such binding.
pub(crate) fn first_alone(
    alloc: Global,
    bindings: &[Binding],
    outcomes: &[Outcome],
) -> Result<Option<Binding>, NoMemory>
    ensures { IfOk result (λ b. option_map (λ c. c.values) b ≡ first_alone (values_of bindings.now) outcomes.now) }
{
    let count = bindings.len().min(outcomes.len());
    for i in 0..count {
        if matches!(outcomes[i], Outcome::Alone) {
            return Ok(Some(duplicate_binding(alloc, &bindings[i])?));
        }
    }
    Ok(None)
}
