ghost use Rattle.std.specs.Prelude.{◌≡◌};
ghost use Rattle.qvtr_semantics.specs.Bindings.{is_model, is_target_domain};
ghost use Rattle.template_match.specs.Sides.{clause_of, is_of_side};

use crate::side::Side;
use qv_syntax::{Conj, Dom, Program, Rel};

/// The clause that is asked.
pub(crate) fn clause_of(side: Side, rel: &Rel) -> &[Conj]
    ensures { result.now ≡ clause_of side rel.now }
{
    match side {
        Side::Source => rel.whens.as_slice(),
        Side::Target => rel.wheres.as_slice(),
    }
}

/// Whether the number is that of the model.
pub(crate) fn is_model(model: Option<u32>, number: u32) -> bool
    ensures { result ≡ is_model model number }
{
    match model {
        Some(n) => n == number,
        None => false,
    }
}

/// Whether the domain is one of the target model.
pub(crate) fn is_target_domain(program: &Program, dom: &Dom) -> bool
    ensures { result ≡ is_target_domain program.now dom.now }
{
    is_model(dom.model, program.target)
}

/// Whether the domain's template is asked on this side.
pub(crate) fn is_of_side(side: Side, program: &Program, dom: &Dom) -> bool
    ensures { result ≡ is_of_side side program.now dom.now }
{
    let is_target = is_target_domain(program, dom);
    match side {
        Side::Source => !is_target,
        Side::Target => is_target,
    }
}
