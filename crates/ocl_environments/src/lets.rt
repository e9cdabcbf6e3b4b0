ghost use Rattle.std.specs.Prelude.{◌≡◌, false, OnOk};
ghost use Rattle.mof_metamodel.specs.Giving.{Gives};
ghost use Rattle.ocl_environments.specs.Environments.{is_bound as bound};
ghost use Rattle.ocl_environments.specs.Scopes.{in_reach};
ghost use Rattle.ocl_environments.specs.Lets.{free_name as free, let_variable as variable_of_let};
ghost use Rattle.ocl_environments.specs.Written.{fault_in};

use crate::agreement::fits;
use crate::fault::TypeError;
use crate::outcomes::{duplicate_name, wrong_type};
use crate::part::TypedPart;
use crate::scope::Scope;
use crate::variable::Variable;
use mof_metamodel::{MetaModel, Text};
use qv_syntax::Ty;
use std::alloc::Global;

/// Whether a name is free: variables hide nothing.
pub fn free_name(alloc: Global, scope: &Scope<'_>, name: &Text) -> Result<(), TypeError>
    ensures given { Gives fault_in (λ x. x) result (free (in_reach scope.now) name.now) }
    ensures unbound { OnOk result (bound (in_reach scope.now) name.now ≡ false) }
{
    if scope.is_bound(name) {
        return Err(TypeError::Fault(duplicate_name(alloc, name.as_str())?));
    }
    Ok(())
}

/// The variable of a `let`: the value's type conforms to the written one, and its model is the value's.
#[tactic(auto, unfolding(crate::specs::Lets::let_variable))]
pub fn let_variable(
    alloc: Global,
    metas: &[MetaModel],
    ty: Ty,
    value: &TypedPart,
) -> Result<Variable, TypeError>
    ensures { Gives fault_in (λ x. x) result (variable_of_let metas.now ty value.now) }
{
    if !fits(metas, &value.ty, &ty) {
        return Err(TypeError::Fault(wrong_type(alloc, metas, &ty, &value.ty)?));
    }
    Ok(Variable {
        ty,
        model: value.model,
    })
}
