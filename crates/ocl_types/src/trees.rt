ghost use Rattle.std.specs.Prelude.{◌≡◌, IfOk};
ghost use Rattle.ocl_environments.specs.Parts.{tree_of};

use mof_metamodel::{Boxed, NoMemory};
use ocl_environments::TypedPart;
use qv_syntax::Typed;
use std::alloc::Global;

/// The tree of a part, as a part of another.
pub(crate) fn boxed_tree(alloc: Global, part: TypedPart) -> Result<Boxed<Typed>, NoMemory>
    ensures { IfOk result (λ tree. tree ≡ tree_of part) }
{
    let TypedPart { ty, node, .. } = part;
    Boxed::new(alloc, Typed { ty, node })
}
