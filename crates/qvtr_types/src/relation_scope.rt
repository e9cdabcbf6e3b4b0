ghost use Rattle.std.specs.Prelude.{◌≡◌, [], ℕ, List, All, length, map, IsTrue, OnOk, OnErr, IfOk, false};
ghost use Rattle.ocl_environments.specs.Environments.{is_bound as bound, is_variable, with_variable, without_variables};
ghost use Rattle.script_scopes.specs.Declarations.{IsRepeated};
ghost use Rattle.script_scopes.specs.Environments.{named_variables};

use mof_metamodel::{NoMemory, Text};
use ocl_environments::Env;
use qv_syntax::Var;
use std::alloc::Global;

/// Brings a variable into reach under a name.
fn bind_variable(alloc: Global, env: &mut Env<'_>, name: &Text, var: &Var) -> Result<(), NoMemory>
    requires unbound { bound env.old name.now ≡ false }
    requires typed { IsTrue (is_variable env.old (name.now, record { ty = var.now.ty; model = var.now.model })) }
    ensures ok { OnOk result (env.new ≡ with_variable env.old name.now (record { ty = var.now.ty; model = var.now.model })) }
    ensures kept { without_variables env.new ≡ without_variables env.old }
{
    let text = name.duplicate(alloc)?;
    let ty = var.ty.duplicate(alloc)?;
    match var.model {
        Some(model) => env.bind_object(text, ty, model),
        None => env.bind(text, ty),
    }
}

/// Brings the variables of a relation into reach under their names, in the order of their numbers, where none is so far.
///
/// # Errors
///
/// `NoMemory`. Some of them may then be in reach.
pub fn bind_variables(
    alloc: Global,
    env: &mut Env<'_>,
    names: &[Text],
    vars: &[Var],
) -> Result<(), NoMemory>
    requires none { env.old.variables ≡ [] }
    requires apart { (name : List ℕ) → ¬ IsRepeated names.now name }
    requires count { length vars.now ≡ length names.now }
    requires typed { All (λ v. IsTrue (is_variable env.old ([], record { ty = v.ty; model = v.model }))) vars.now }
    ensures bound { OnOk result (env.new ≡ record env.old { variables = named_variables names.now vars.now }) }
    ensures kept { without_variables env.new ≡ without_variables env.old }
{
    for (place, name) in names.iter().enumerate() {
        bind_variable(alloc, env, name, &vars[place])?;
    }
    Ok(())
}
