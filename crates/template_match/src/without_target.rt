ghost use Rattle.std.specs.Prelude.{◌≡◌, IfOk};
ghost use Rattle.template_match.specs.Sources.{is_target_variable, source_variables};

use crate::sides::is_model;
use mof_metamodel::{NoMemory, Seq};
use qv_syntax::{Program, Rel};
use std::alloc::Global;

/// Whether the variable of the number is one for objects of the target model.
fn is_target_variable(program: &Program, rel: &Rel, variable: u32) -> bool
    ensures { result ≡ is_target_variable program.now rel.now variable }
{
    match rel.vars.as_slice().get(variable as usize) {
        Some(var) => is_model(var.model, program.target),
        None => false,
    }
}

/// The universal variables but for these.
pub(crate) fn source_variables(
    alloc: Global,
    program: &Program,
    rel: &Rel,
) -> Result<Seq<u32>, NoMemory>
    ensures { IfOk result (λ variables. variables ≡ source_variables program.now rel.now) }
{
    let mut variables = Seq::new(alloc);
    for variable in rel.universal.as_slice() {
        if !is_target_variable(program, rel, *variable) {
            variables.push(*variable)?;
        }
    }
    Ok(variables)
}
