//! Circles of superclasses.
ghost use Rattle.std.specs.Prelude.{◌≡◌, ◌<◌, ℕ, IfOk, MatchOption, IsTrue, ◌↔◌};
ghost use Rattle.mof_metamodel.specs.Metamodels.{class_count, IsCircular};
ghost use Rattle.mof_metamodel.specs.MetaFaults.{IsAcyclic};
ghost use Rattle.mof_metamodel.specs.Tables.{IsFirstCircle};

use crate::hierarchy::Hierarchy;
use crate::memory::NoMemory;
use crate::reached::reached;
use std::alloc::Global;

/// Whether a class reaches itself by superclasses: whether one of its superclasses is the class, or reaches it.
fn is_circular(alloc: Global, hierarchy: &Hierarchy, c: u32) -> Result<bool, NoMemory>
    requires { c < class_count hierarchy.now }
    ensures { IfOk result (λ circular. IsTrue circular ↔ IsCircular hierarchy.now c) }
{
    let marks = reached(alloc, hierarchy, hierarchy.supers(c))?;
    Ok(marks[c as usize])
}

/// The first class that reaches itself by superclasses.
pub(crate) fn first_circle(alloc: Global, hierarchy: &Hierarchy) -> Result<Option<u32>, NoMemory>
    ensures { IfOk result (λ o. MatchOption o (IsAcyclic hierarchy.now) (IsFirstCircle hierarchy.now)) }
{
    for c in 0..hierarchy.named().class_count() {
        let circular = is_circular(alloc, hierarchy, c)?;
        if circular {
            return Ok(Some(c));
        }
    }
    Ok(None)
}
