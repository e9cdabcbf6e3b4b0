ghost use Rattle.std.specs.Prelude.{IfOk, MatchOption};
ghost use Rattle.ocl_environments.specs.Conformance.{IsUpper, AreUnrelated};

use crate::agreement::fits;
use mof_metamodel::{MetaModel, NoMemory};
use qv_syntax::Ty;
use std::alloc::Global;

/// That of two types to which both conform, if there is one.
pub(crate) fn upper_type(
    alloc: Global,
    metas: &[MetaModel],
    a: &Ty,
    b: &Ty,
) -> Result<Option<Ty>, NoMemory>
    ensures { IfOk result (λ t. MatchOption t (AreUnrelated metas.now a.now b.now) (IsUpper metas.now a.now b.now)) }
{
    if fits(metas, a, b) {
        Ok(Some(b.duplicate(alloc)?))
    } else if fits(metas, b, a) {
        Ok(Some(a.duplicate(alloc)?))
    } else {
        Ok(None)
    }
}
