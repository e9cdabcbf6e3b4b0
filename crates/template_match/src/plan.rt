ghost use Rattle.std.specs.Prelude.{◌≡◌, ◌<◌, length, slice_get, Some, IfOk};
ghost use Rattle.qv_syntax.specs.declared.program.Rel.{Rel};
ghost use Rattle.template_match.specs.Plans.{IsPlanOf};

use crate::link::Link;
use crate::linking::side_links;
use crate::side::Side;
use mof_metamodel::{NoMemory, Seq};
use qv_syntax::Program;
use std::alloc::Global;

/// How the bindings of a relation are looked for: from which slots of which variables' objects other variables can take their values,
/// in the source and in the target (QVT 1.3, section 7.11.2).
#[derive(Drop)]
pub struct Plan {
    pub rel: u32,
    pub source: Seq<Link>,
    pub target: Seq<Link>,
}

/// The plan of a relation.
pub fn plan_of(alloc: Global, program: &Program, rel: u32) -> Result<Plan, NoMemory>
    requires { rel < length program.now.rels }
    ensures { IfOk result (λ p. (found : Rel) → slice_get program.now.rels rel ≡ Some found → IsPlanOf program.now rel found p) }
{
    let found = &program.rels.as_slice()[rel as usize];
    let source = side_links(alloc, Side::Source, program, found)?;
    let target = side_links(alloc, Side::Target, program, found)?;
    Ok(Plan {
        rel,
        source,
        target,
    })
}
