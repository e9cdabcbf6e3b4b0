//! What of a program belongs to its target.
ghost use Rattle.std.specs.Prelude.{◌≡◌, ◌<◌, length};
ghost use Rattle.enforcement_rules.specs.TargetParts.{target_meta};
ghost use Rattle.enforcement_rules.specs.TargetTests.{is_of_target, is_target_variable, has_class, is_object_variable, is_data_variable};

use ocl_environments::class_of;
use qv_syntax::{Program, Rel, Ty};

/// Whether the model is the target.
pub(crate) fn is_of_target(program: &Program, model: Option<u32>) -> bool
    ensures { result ≡ is_of_target program.now model }
{
    match model {
        Some(m) => m == program.target,
        None => false,
    }
}

/// Whether the variable is one for objects of the target.
pub(crate) fn is_target_variable(program: &Program, rel: &Rel, v: u32) -> bool
    ensures { result ≡ is_target_variable program.now rel.now v }
{
    match rel.vars.as_slice().get(v as usize) {
        Some(var) => is_of_target(program, var.model),
        None => false,
    }
}

/// Whether values of the type are objects.
pub(crate) fn has_class(ty: &Ty) -> bool
    ensures { result ≡ has_class ty.now }
{
    class_of(ty).is_some()
}

/// Whether the variable is one for objects.
pub(crate) fn is_object_variable(rel: &Rel, v: u32) -> bool
    ensures { result ≡ is_object_variable rel.now v }
{
    match rel.vars.as_slice().get(v as usize) {
        Some(var) => has_class(&var.ty),
        None => false,
    }
}

/// Whether the variable is one for data.
pub(crate) fn is_data_variable(rel: &Rel, v: u32) -> bool
    ensures { result ≡ is_data_variable rel.now v }
{
    match rel.vars.as_slice().get(v as usize) {
        Some(var) => !has_class(&var.ty),
        None => false,
    }
}

/// The number of the target's metamodel.
pub(crate) fn target_meta(program: &Program) -> u32
    requires { program.now.target < length program.now.models }
    ensures { result ≡ target_meta program.now }
{
    program.models.as_slice()[program.target as usize].meta
}
