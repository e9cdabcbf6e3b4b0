ghost use Rattle.std.specs.Prelude.{◌≡◌, chars, IfOk};
ghost use Rattle.ocl_environments.specs.declared.fault.TypeFault.TheVariants as faults;
ghost use Rattle.ocl_environments.specs.Naming.{path_text as text_of_path};
ghost use Rattle.ocl_environments.specs.Outcomes.{wrong_type as wrong};
ghost use Rattle.ocl_environments.specs.Agreement.{exactly as just};
ghost use Rattle.mof_metamodel.specs.Giving.{Gives};
ghost use Rattle.ocl_environments.specs.Written.{fault_in};

use crate::agreement::same_type;
use crate::fault::{TypeError, TypeFault};
use crate::naming::{path_text, text_of};
use mof_metamodel::{MetaModel, NoMemory, Text};
use qv_syntax::{Path, Ty};
use std::alloc::Global;

/// A type in the place of another.
pub fn wrong_type(
    alloc: Global,
    metas: &[MetaModel],
    wanted: &Ty,
    found: &Ty,
) -> Result<TypeFault, NoMemory>
    ensures { IfOk result (λ f. f ≡ wrong metas.now wanted.now found.now) }
{
    let wanted = text_of(alloc, metas, wanted)?;
    let found = text_of(alloc, metas, found)?;
    Ok(TypeFault::WrongType { wanted, found })
}

/// A name that names nothing.
pub fn unknown_name(alloc: Global, name: &str) -> Result<TypeFault, NoMemory>
    ensures { IfOk result (λ f. f ≡ faults.UnknownName (chars name.now)) }
{
    Ok(TypeFault::UnknownName(Text::new(alloc, name)?))
}

/// A path that names nothing.
pub fn unknown_path(alloc: Global, path: &Path) -> Result<TypeFault, NoMemory>
    ensures { IfOk result (λ f. f ≡ faults.UnknownName (text_of_path path.now)) }
{
    Ok(TypeFault::UnknownName(path_text(alloc, path)?))
}

/// A name that is there already.
pub fn duplicate_name(alloc: Global, name: &str) -> Result<TypeFault, NoMemory>
    ensures { IfOk result (λ f. f ≡ faults.DuplicateName (chars name.now)) }
{
    Ok(TypeFault::DuplicateName(Text::new(alloc, name)?))
}

/// A call with a wrong number of arguments.
pub fn wrong_count(alloc: Global, name: &str) -> Result<TypeFault, NoMemory>
    ensures { IfOk result (λ f. f ≡ faults.WrongCount (chars name.now)) }
{
    Ok(TypeFault::WrongCount(Text::new(alloc, name)?))
}

/// Objects of two models.
pub fn model_mix(alloc: Global, name: &str) -> Result<TypeFault, NoMemory>
    ensures { IfOk result (λ f. f ≡ faults.ModelMix (chars name.now)) }
{
    Ok(TypeFault::ModelMix(Text::new(alloc, name)?))
}

/// Whether this very type is found.
pub fn exactly(alloc: Global, metas: &[MetaModel], wanted: &Ty, found: &Ty) -> Result<(), TypeError>
    ensures { Gives fault_in (λ x. x) result (just metas.now wanted.now found.now) }
{
    if same_type(found, wanted) {
        return Ok(());
    }
    Err(TypeError::Fault(wrong_type(alloc, metas, wanted, found)?))
}
