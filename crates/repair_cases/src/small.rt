//! Whether a program is no larger than what can be enforced.
ghost use Rattle.std.specs.Prelude.{◌<◌, ◌^◌, List, length, IsTrue, All};
ghost use Rattle.mof_metamodel.specs.declared.desc.MetaDesc.{MetaDesc};
ghost use Rattle.enforcement_rules.specs.Rules.{IsEnforceable};
ghost use Rattle.evaluation_laws.specs.Evaluable.{IsEvaluable};
ghost use Rattle.entry_finding.specs.Premises.{CanBeEnforced};
ghost use Rattle.repair_cases.specs.Small.{IsSmall};

use ocl_eval::Models;
use qv_syntax::{Program, Rel};

/// Whether the relation has no more variables and conjuncts than numbers of 32 bits count.
fn is_small_relation(rel: &Rel) -> bool
    ensures { IsTrue result → IsSmall rel.now }
{
    (rel.vars.len() <= u32::MAX as usize) & (rel.wheres.len() < u32::MAX as usize)
}

/// Whether each relation has.
fn is_small(rels: &[Rel]) -> bool
    ensures { IsTrue result → All IsSmall rels.now }
{
    for rel in rels {
        if !is_small_relation(rel) {
            return false;
        }
    }
    true
}

/// Whether a program that can be enforced can be enforced over these models: its relations are small, and the target is one of the models.
pub fn is_enforced_over(program: &Program, models: &Models<'_>) -> bool
    ensures { (metas : List MetaDesc) → IsEvaluable metas program.now models.now → IsEnforceable metas program.now → length program.now.rels < 2 ^ 32 → IsTrue result → CanBeEnforced metas program.now models.now }
{
    if !is_small(program.rels.as_slice()) {
        return false;
    }
    (program.target as usize) < models.len()
}
