ghost use Rattle.std.specs.Prelude.{◌≡◌, ◌<◌, ◌^◌, ℕ, List, true, length, slice_get, Some, IfOk};
ghost use Rattle.mof_metamodel.specs.declared.desc.MetaDesc.{MetaDesc};
ghost use Rattle.qv_syntax.specs.declared.program.Rel.{Rel};
ghost use Rattle.repair_semantics.specs.TargetItems.{target_metamodel};
ghost use Rattle.entry_making.specs.Orderable.{IsOrderable};
ghost use Rattle.entry_finding.specs.Premises.{CanBeEnforced};
ghost use Rattle.entry_finding.specs.Prepared.{IsPrepared, ArePrepared, ArePreparations};

use crate::preparation::Preparation;
use entry_making::recipe_of;
use mof_metamodel::{MetaModel, NoMemory, Seq};
use ocl_eval::Models;
use qv_syntax::{Program, Rel};
use std::alloc::Global;
use template_match::plan_of;

/// The metamodel of the target.
fn target_metamodel<'m>(program: &Program, models: &Models<'m>) -> &'m MetaModel
    requires { program.now.target < length models.now }
    ensures { result.now ≡ target_metamodel program.now models.now }
{
    match models.get(program.target as usize) {
        Some(model) => model.meta(),
        None => unreachable!(),
    }
}

/// What is found once for a relation.
fn preparation<'p>(
    alloc: Global,
    program: &'p Program,
    meta: &MetaModel,
    number: u32,
    rel: &'p Rel,
) -> Result<Option<Preparation<'p>>, NoMemory>
    requires found { slice_get program.now.rels number ≡ Some rel.now }
    requires orderable { rel.now.in_direction ≡ true → IsOrderable program.now meta.now rel.now }
    ensures { IfOk result (IsPrepared program.now meta.now number rel.now) }
{
    if !rel.in_direction {
        return Ok(None);
    }
    let plan = plan_of(alloc, program, number)?;
    let recipe = recipe_of(alloc, program, meta, rel)?;
    Ok(Some(Preparation { plan, recipe }))
}

/// The same for each relation.
fn all_prepared<'p>(
    alloc: Global,
    program: &'p Program,
    meta: &MetaModel,
) -> Result<Seq<Option<Preparation<'p>>>, NoMemory>
    requires few { length program.now.rels < 2 ^ 32 }
    requires orderable { (number : ℕ) (rel : Rel) → slice_get program.now.rels number ≡ Some rel → rel.in_direction ≡ true → IsOrderable program.now meta.now rel }
    ensures { IfOk result (ArePrepared program.now meta.now) }
{
    let rels = program.rels.as_slice();
    let mut all = Seq::new(alloc);
    for i in 0..rels.len() {
        all.push(preparation(alloc, program, meta, i as u32, &rels[i])?)?;
    }
    Ok(all)
}

/// What is found once for the relations of a program: nothing for one outside of the direction.
///
/// # Errors
///
/// `NoMemory` where memory runs out.
pub fn preparations<'p>(
    alloc: Global,
    program: &'p Program,
    models: &Models<'_>,
) -> Result<Seq<Option<Preparation<'p>>>, NoMemory>
    requires { (metas : List MetaDesc) × CanBeEnforced metas program.now models.now }
    ensures { IfOk result (ArePreparations program.now models.now) }
{
    all_prepared(alloc, program, target_metamodel(program, models))
}
