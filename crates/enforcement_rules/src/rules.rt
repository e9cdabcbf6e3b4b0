//! Which rule a relation breaks, the least (QVT 1.3, sections 7.2, 7.9 and 7.10.2).
ghost use Rattle.std.specs.Prelude.{◌≡◌, ◌↔◌, ℕ, map, IfOk, IsTrue};
ghost use Rattle.ocl_environments.specs.Environments.{meta_at};
ghost use Rattle.enforcement_rules.specs.Keys.{HasTwoKeys};
ghost use Rattle.enforcement_rules.specs.KeyTests.{HaveVariables};
ghost use Rattle.enforcement_rules.specs.KnownTests.{IsKnownTable};
ghost use Rattle.enforcement_rules.specs.LeastRules.{AreKeptBelow, IsLeastBelow};
ghost use Rattle.enforcement_rules.specs.NumberSets.{is_among, has};
ghost use Rattle.enforcement_rules.specs.PatternTests.{AreSound};
ghost use Rattle.enforcement_rules.specs.Standings.{shown_standing, AreTargetTemplates};
ghost use Rattle.enforcement_rules.specs.Tasks.{IsTask};

use crate::calls::{has_unmatched, has_wrong_argument};
use crate::expressions::touches_target;
use crate::key_cycles::has_key_cycle;
use crate::keys::{has_many, has_unkeyed};
use crate::known::{has_undetermined, known};
use crate::number_set::NumberSet;
use crate::patterns::{has_unmade, has_unsettled, is_unmarked_relation};
use crate::standing::Standing;
use crate::task::Task;
use crate::templates::target_templates;
use mof_metamodel::NoMemory;

/// The least of the first four rules that the relation breaks, of which variables are known and the templates of the target domain.
fn first_of_patterns(
    task: &Task<'_>,
    known: &[bool],
    templates: &[Standing<'_>],
) -> Result<Option<u8>, NoMemory>
    requires task { IsTask task.now }
    requires known { IsKnownTable task.now.program.now task.now.rel.now known.now }
    requires templates { AreTargetTemplates task.now.program.now task.now.rel.now (map shown_standing templates.now) }
    requires sound { AreSound (meta_at task.now.metas.now task.now.meta) (map shown_standing templates.now) }
    ensures { IfOk result (IsLeastBelow task.now.metas.now task.now.program.now task.now.rel.now 5) }
{
    let unmarked = is_unmarked_relation(task.program, task.rel);
    if unmarked {
        return Ok(Some(1));
    }
    let touches = touches_target(task)?;
    if touches {
        return Ok(Some(2));
    }
    let unsettled = has_unsettled(task, known, templates)?;
    if unsettled {
        return Ok(Some(3));
    }
    let unmade = has_unmade(task, templates)?;
    if unmade {
        return Ok(Some(4));
    }
    Ok(None)
}

/// The least of those on keys.
fn first_of_keys(
    task: &Task<'_>,
    has_two_keys: bool,
    existential: &NumberSet,
    templates: &[Standing<'_>],
) -> Result<Option<u8>, NoMemory>
    requires task { IsTask task.now }
    requires two { IsTrue has_two_keys ↔ HasTwoKeys task.now.metas.now task.now.program.now }
    requires existential { (q : ℕ) → has existential.now q ≡ is_among task.now.rel.now.existential q }
    requires templates { AreTargetTemplates task.now.program.now task.now.rel.now (map shown_standing templates.now) }
    requires sound { AreSound (meta_at task.now.metas.now task.now.meta) (map shown_standing templates.now) }
    requires variables { HaveVariables task.now.rel.now (map shown_standing templates.now) }
    requires kept { AreKeptBelow task.now.metas.now task.now.program.now task.now.rel.now 5 }
    ensures { IfOk result (IsLeastBelow task.now.metas.now task.now.program.now task.now.rel.now 9) }
{
    let unkeyed = has_unkeyed(task, existential, templates)?;
    if unkeyed {
        return Ok(Some(5));
    }
    let many = has_many(task, existential, templates);
    if many {
        return Ok(Some(6));
    }
    if has_two_keys {
        return Ok(Some(7));
    }
    let cyclic = has_key_cycle(task, existential, templates)?;
    if cyclic {
        return Ok(Some(8));
    }
    Ok(None)
}

/// The least of the last three.
fn first_of_calls(task: &Task<'_>, known: &[bool]) -> Result<Option<u8>, NoMemory>
    requires task { IsTask task.now }
    requires known { IsKnownTable task.now.program.now task.now.rel.now known.now }
    requires kept { AreKeptBelow task.now.metas.now task.now.program.now task.now.rel.now 9 }
    ensures { IfOk result (IsLeastBelow task.now.metas.now task.now.program.now task.now.rel.now 12) }
{
    let unmatched = has_unmatched(task)?;
    if unmatched {
        return Ok(Some(9));
    }
    let wrong = has_wrong_argument(task)?;
    if wrong {
        return Ok(Some(10));
    }
    let undetermined = has_undetermined(task, known);
    if undetermined {
        return Ok(Some(11));
    }
    Ok(None)
}

/// The least of all.
fn first_of_all(
    task: &Task<'_>,
    has_two_keys: bool,
    known: &[bool],
    existential: &NumberSet,
    templates: &[Standing<'_>],
) -> Result<Option<u8>, NoMemory>
    requires task { IsTask task.now }
    requires two { IsTrue has_two_keys ↔ HasTwoKeys task.now.metas.now task.now.program.now }
    requires known { IsKnownTable task.now.program.now task.now.rel.now known.now }
    requires existential { (q : ℕ) → has existential.now q ≡ is_among task.now.rel.now.existential q }
    requires templates { AreTargetTemplates task.now.program.now task.now.rel.now (map shown_standing templates.now) }
    requires sound { AreSound (meta_at task.now.metas.now task.now.meta) (map shown_standing templates.now) }
    requires variables { HaveVariables task.now.rel.now (map shown_standing templates.now) }
    ensures { IfOk result (IsLeastBelow task.now.metas.now task.now.program.now task.now.rel.now 12) }
{
    let of_patterns = first_of_patterns(task, known, templates)?;
    if of_patterns.is_some() {
        return Ok(of_patterns);
    }
    let of_keys = first_of_keys(task, has_two_keys, existential, templates)?;
    if of_keys.is_some() {
        return Ok(of_keys);
    }
    first_of_calls(task, known)
}

/// The least rule that the relation breaks.
pub(crate) fn least_broken(task: &Task<'_>, has_two_keys: bool) -> Result<Option<u8>, NoMemory>
    requires task { IsTask task.now }
    requires two { IsTrue has_two_keys ↔ HasTwoKeys task.now.metas.now task.now.program.now }
    ensures { IfOk result (IsLeastBelow task.now.metas.now task.now.program.now task.now.rel.now 12) }
{
    let known = known(task)?;
    let existential = NumberSet::of(task.alloc, task.rel.existential.as_slice())?;
    let templates = target_templates(task.alloc, task.program, task.rel)?;
    first_of_all(
        task,
        has_two_keys,
        known.as_slice(),
        &existential,
        templates.as_slice(),
    )
}
