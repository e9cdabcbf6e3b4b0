ghost use Rattle.ocl_environments.specs.Naming.{names_of};
ghost use Rattle.ocl_environments.specs.Classifiers.{named_type};
ghost use Rattle.mof_metamodel.specs.Giving.{Gives};
ghost use Rattle.ocl_environments.specs.Written.{fault_in, found_type, written};

use crate::env::Env;
use crate::fault::{TypeError, TypeFault};
use crate::naming::path_text;
use mof_metamodel::Boxed;
use qv_syntax::{Path, Ty, TypeTree};
use std::alloc::Global;

/// The type that a path names.
fn path_type(alloc: Global, env: &Env<'_>, path: &Path) -> Result<Ty, TypeError>
    ensures { Gives fault_in (λ x. x) result (found_type (names_of path.now) (named_type env.now (names_of path.now))) }
{
    match env.named_type(path) {
        Some(ty) => Ok(ty),
        None => Err(TypeError::Fault(TypeFault::UnknownName(path_text(alloc, path)?))),
    }
}

/// The type that is written (OCL 2.4, section 9.4.15).
///
/// # Errors
///
/// `UnknownName` with the path, where one doesn't name one class or enumeration alone, and `NoMemory`.
pub fn written_type(alloc: Global, env: &Env<'_>, tree: &TypeTree) -> Result<Ty, TypeError>
    ensures { Gives fault_in (λ x. x) result (written env.now tree.now) }
{
    match tree {
        TypeTree::Str { .. } => Ok(Ty::Str),
        TypeTree::Int { .. } => Ok(Ty::Int),
        TypeTree::Bool { .. } => Ok(Ty::Bool),
        TypeTree::Named { path } => path_type(alloc, env, path),
        TypeTree::Coll { kind, of, .. } => {
            let inner = written_type(alloc, env, of.get())?;
            Ok(Ty::Coll(*kind, Boxed::new(alloc, inner)?))
        }
    }
}
