ghost use Rattle.std.specs.Prelude.{◌≡◌, ◌<◌, ◌≤◌, ◌==◌, ℕ, if◌then◌else◌, length, map, replicate, IfOk};
ghost use Rattle.ocl_environments.specs.Environments.{most, models_of, only_models as models_alone};
ghost use Rattle.ocl_environments.specs.declared.extents.Met.TheVariants.{Nothing};
ghost use Rattle.ocl_environments.specs.Extents.{next_met, met_all, alone_of, met_at};

use mof_metamodel::{NoMemory, Seq};
use qv_syntax::ModelSlot;
use std::alloc::Global;

/// Which models of a metamodel were met.
#[derive(Clone, Copy)]
pub(crate) enum Met {
    Nothing,
    One(u32),
    Several,
}

impl Met {
    /// What was met with one more.
    fn next(self, i: u32) -> Met
        ensures { result ≡ next_met self i }
    {
        match self {
            Met::Nothing => Met::One(i),
            Met::One(_) => Met::Several,
            Met::Several => Met::Several,
        }
    }

    /// The model that was met alone.
    fn alone(self) -> Option<u32>
        ensures { result ≡ alone_of self }
    {
        match self {
            Met::One(i) => Some(i),
            _ => None,
        }
    }
}

/// No model of any of so many metamodels.
fn no_models(alloc: Global, count: u32) -> Result<Vec<Met>, NoMemory>
    ensures { IfOk result (λ table. table.items ≡ replicate count Nothing) }
{
    let mut table = Vec::new(alloc);
    for _i in 0..count {
        table.push(Met::Nothing)?;
    }
    Ok(table)
}

/// Meets a model at its metamodel.
fn meet(table: &mut [Met], slot: &ModelSlot, i: u32)
    ensures long { length table.new ≡ length table.old }
    ensures met { (meta : ℕ) → meta < length table.old → met_at table.new meta ≡ (if slot.now.meta == meta then next_met (met_at table.old meta) i else met_at table.old meta) }
{
    let at = slot.meta as usize;
    if at < table.len() {
        table[at] = table[at].next(i);
    }
}

/// Meets the models one after the other.
fn meet_all(table: &mut [Met], models: &[ModelSlot])
    requires { length models.now ≤ most }
    ensures long { length table.new ≡ length table.old }
    ensures met { (meta : ℕ) → meta < length table.old → met_at table.new meta ≡ met_all (met_at table.old meta) (models_of meta 0 models.now) }
{
    for (i, slot) in models.iter().enumerate() {
        meet(table, slot, i as u32);
    }
}

/// The model of each metamodel that was met alone.
fn each_alone(alloc: Global, table: &[Met]) -> Result<Seq<Option<u32>>, NoMemory>
    ensures { IfOk result (λ out. out ≡ map alone_of table.now) }
{
    let mut out = Seq::new(alloc);
    for met in table {
        out.push(met.alone())?;
    }
    Ok(out)
}

/// The one model of each metamodel, by a table in which nothing was met yet.
fn alone_models(
    alloc: Global,
    table: &mut [Met],
    models: &[ModelSlot],
) -> Result<Seq<Option<u32>>, NoMemory>
    requires { length models.now ≤ most }
    ensures { (count : ℕ) → table.old ≡ replicate count Nothing → IfOk result (λ out. out ≡ models_alone models.now count) }
{
    meet_all(table, models);
    each_alone(alloc, table)
}

/// The one model of each of so many metamodels. In time linear in both.
pub(crate) fn only_models(
    alloc: Global,
    models: &[ModelSlot],
    count: u32,
) -> Result<Seq<Option<u32>>, NoMemory>
    requires { length models.now ≤ most }
    ensures { IfOk result (λ table. table ≡ models_alone models.now count) }
{
    let mut table = no_models(alloc, count)?;
    alone_models(alloc, table.as_mut_slice(), models)
}
