//! Which variables are open, and what gives an open variable values.
ghost use Rattle.std.specs.Prelude.{◌≡◌, slice_get};
ghost use Rattle.std.specs.List.{find, list_any};
ghost use Rattle.std.specs.Option.{option_copied, option_map};
ghost use Rattle.template_match.specs.Prepared.{problem_in, IsPrepared};
ghost use Rattle.template_match.specs.Search.{sought, is_vacant, is_open, is_any_open, usable_saying, usable_conjunct, extent_by, extent_for, usable_variable, conjuncts_in};

use crate::expressions::saying;
use crate::marks::is_marked;
use crate::prepared::Prepared;
use crate::readiness::is_ready;
use crate::sides::clause_of;
use mof_metamodel::ClassId;
use qv_syntax::{Conj, Rel, Ty, Typed};
use qvtr_semantics::Binding;

/// Whether the variable has a place and no value.
pub(crate) fn is_vacant(binding: &Binding, variable: u32) -> bool
    ensures { result ≡ is_vacant (slice_get binding.now.values variable) }
{
    match binding.values.as_slice().get(variable as usize) {
        Some(value) => value.is_none(),
        None => false,
    }
}

/// Whether one of the variables has a place and no value.
pub(crate) fn is_any_vacant(binding: &Binding, variables: &[u32]) -> bool
    ensures { result ≡ list_any (λ v. is_vacant (slice_get binding.now.values v)) variables.now }
{
    for variable in variables {
        if is_vacant(binding, *variable) {
            return true;
        }
    }
    false
}

/// Whether the variable is sought and has no value yet.
pub(crate) fn is_open(prepared: &Prepared<'_, '_, '_>, binding: &Binding, variable: u32) -> bool
    requires prepared { IsPrepared prepared.now binding.now.values }
    ensures { result ≡ is_open (problem_in prepared.now) binding.now.values variable }
{
    let is_sought = is_marked(prepared.sought, variable);
    let is_vacant = is_vacant(binding, variable);
    is_sought & is_vacant
}

/// Whether a variable that is sought has no value yet.
pub(crate) fn is_any_open(prepared: &Prepared<'_, '_, '_>, binding: &Binding) -> bool
    requires prepared { IsPrepared prepared.now binding.now.values }
    ensures { result ≡ is_any_open (problem_in prepared.now) binding.now.values }
{
    for variable in prepared.task.variables {
        if is_open(prepared, binding, *variable) {
            return true;
        }
    }
    false
}

/// Whether the variable of `v = e` is open and the value of `e` settled.
fn is_usable_saying(
    prepared: &Prepared<'_, '_, '_>,
    binding: &Binding,
    said: Option<(u32, &Typed)>,
) -> bool
    requires prepared { IsPrepared prepared.now binding.now.values }
    ensures { result ≡ usable_saying (problem_in prepared.now) binding.now.values (option_map (λ s. (s.0, s.1.now)) said.entry) }
{
    match said {
        Some((variable, e)) => is_open(prepared, binding, variable) && is_ready(binding, e),
        None => false,
    }
}

/// Whether the conjunct says what an open variable is.
pub(crate) fn is_usable_conjunct(
    prepared: &Prepared<'_, '_, '_>,
    binding: &Binding,
    conjunct: &Conj,
) -> bool
    requires prepared { IsPrepared prepared.now binding.now.values }
    ensures { result ≡ usable_conjunct (problem_in prepared.now) binding.now.values conjunct.now }
{
    is_usable_saying(prepared, binding, saying(conjunct))
}

/// The first conjunct that says what an open variable is.
pub(crate) fn usable_conjunct<'a>(
    prepared: &Prepared<'_, 'a, '_>,
    binding: &Binding,
) -> Option<&'a Conj>
    requires prepared { IsPrepared prepared.now binding.now.values }
    ensures { option_copied result ≡ find (usable_conjunct (problem_in prepared.now) binding.now.values) (conjuncts_in (problem_in prepared.now)) }
{
    for conjunct in clause_of(prepared.task.side, prepared.task.rel) {
        if is_usable_conjunct(prepared, binding, conjunct) {
            return Some(conjunct);
        }
    }
    None
}

/// The model and the class of a type for objects.
fn extent_by(ty: &Ty, model: Option<u32>) -> Option<(u32, ClassId)>
    ensures { result ≡ extent_by ty.now model }
{
    match ty {
        Ty::Class(_, class) => match model {
            Some(model) => Some((model, *class)),
            None => None,
        },
        _ => None,
    }
}

/// The model and the class of a variable for objects.
pub(crate) fn extent_for(rel: &Rel, variable: u32) -> Option<(u32, ClassId)>
    ensures { result ≡ extent_for (slice_get rel.now.vars variable) }
{
    match rel.vars.as_slice().get(variable as usize) {
        Some(var) => extent_by(&var.ty, var.model),
        None => None,
    }
}

/// Whether the variable is open and one for objects.
pub(crate) fn is_usable_variable(
    prepared: &Prepared<'_, '_, '_>,
    binding: &Binding,
    variable: u32,
) -> bool
    requires prepared { IsPrepared prepared.now binding.now.values }
    ensures { result ≡ usable_variable (problem_in prepared.now) binding.now.values variable }
{
    is_open(prepared, binding, variable) && extent_for(prepared.task.rel, variable).is_some()
}

/// The first open variable for objects.
pub(crate) fn usable_variable(prepared: &Prepared<'_, '_, '_>, binding: &Binding) -> Option<u32>
    requires prepared { IsPrepared prepared.now binding.now.values }
    ensures { result ≡ find (usable_variable (problem_in prepared.now) binding.now.values) (sought (problem_in prepared.now)) }
{
    for variable in prepared.task.variables {
        if is_usable_variable(prepared, binding, *variable) {
            return Some(*variable);
        }
    }
    None
}
