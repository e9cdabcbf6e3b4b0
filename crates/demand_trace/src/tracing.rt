//! The trace of a set of demands.
ghost use Rattle.std.specs.Prelude.{◌≡◌, ◌<◌, All, IfOk, chars, length};
ghost use Rattle.mof_metamodel.specs.Tables.{IsPropOf};
ghost use Rattle.entry_finding.specs.Premises.{CanBeEnforced};
ghost use Rattle.repair_semantics.specs.declared.demand.Demand.{Demand};
ghost use Rattle.repair_semantics.specs.TargetItems.{target_metamodel};
ghost use Rattle.demand_set.specs.DemandSets.{IsDemandSet};
ghost use Rattle.demand_trace.specs.Traces as spec;
ghost use Rattle.demand_trace.specs.Naming.{world, FindsNames};
ghost use Rattle.demand_trace.specs.Cuts.{AreFrom};

use crate::key_places::key_places;
use crate::names::Names;
use demand_set::DemandSet;
use mof_metamodel::{MetaModel, NoMemory, Seq, Text, or_drop};
use ocl_environments::Metas;
use ocl_eval::Models;
use qv_syntax::Program;
use std::alloc::Global;
use trace_log::{Trace, TraceEntry};

/// The metamodel of the target.
fn target_meta<'m>(program: &Program, models: &Models<'m>) -> &'m MetaModel
    requires { program.now.target < length models.now }
    ensures { result.now ≡ target_metamodel program.now models.now }
{
    match models.get(program.target as usize) {
        Some(model) => model.meta(),
        None => unreachable!(),
    }
}

/// A trace with these entries.
fn titled(
    alloc: Global,
    transformation: &Text,
    target: &str,
    entries: Seq<TraceEntry>,
) -> Result<Trace, NoMemory>
    ensures { IfOk result (λ t. t ≡ record { transformation = transformation.now; target = chars target.now; entries = entries }) }
{
    let transformation = or_drop!(transformation.duplicate(alloc); entries);
    let target = or_drop!(Text::new(alloc, target); entries, transformation);
    Ok(Trace {
        transformation,
        target,
        entries,
    })
}

impl Names<'_, '_> {
    /// The entries of a set of demands.
    fn all_entries(&self, alloc: Global, demands: &DemandSet) -> Result<Seq<TraceEntry>, NoMemory>
        requires names { FindsNames self.now }
        requires props { All (λ (d : Demand). IsPropOf self.now.target.now d.prop) demands.now.list }
        requires order { AreFrom 0 demands.now.list }
        ensures { IfOk result (λ es. es ≡ spec.entries_trace (world self.now) demands.now.list 0 demands.now.entries) }
    {
        let entries = demands.entries(alloc)?;
        let list = or_drop!(demands.list(alloc); entries);
        let traced = self.entries(alloc, entries.as_slice(), list.as_slice());
        drop(list);
        drop(entries);
        traced
    }

    /// The trace of a set of demands.
    fn trace(&self, alloc: Global, demands: &DemandSet) -> Result<Trace, NoMemory>
        requires names { FindsNames self.now }
        requires props { All (λ (d : Demand). IsPropOf self.now.target.now d.prop) demands.now.list }
        requires order { AreFrom 0 demands.now.list }
        ensures { IfOk result (λ t. t ≡ spec.trace_in (world self.now) demands.now) }
    {
        let entries = self.all_entries(alloc, demands)?;
        let target = self.model_name(self.program.target);
        titled(alloc, &self.program.name, target, entries)
    }
}

/// The trace of a set of demands: the transformation and the model that is its target; the entries in their order, each with its relation, whether it is
/// called, the values of its universal variables and, where it is called, of the root of its target domain, those of all other variables as what it makes,
/// and what it demands in the order of the text. All goes by name: an object of a source model by its model and its identifier, one of the target by its
/// class and the values of its key. It takes memory by the length of the trace's text; terms that are shared are written out at each place.
///
/// # Errors
///
/// `NoMemory` where memory runs out.
pub fn trace_of(
    alloc: Global,
    program: &Program,
    metas: &Metas,
    models: &Models<'_>,
    demands: &DemandSet,
) -> Result<Trace, NoMemory>
    requires premises { CanBeEnforced metas.now program.now models.now }
    requires set { IsDemandSet program.now models.now demands.now }
    ensures { IfOk result (λ t. t ≡ spec.trace_of program.now metas.now models.now demands.now) }
{
    let target = target_meta(program, models);
    let keys = key_places(alloc, program, target)?;
    let names = Names {
        program,
        metas,
        models,
        target,
        keys: keys.as_slice(),
    };
    let trace = names.trace(alloc, demands);
    drop(keys);
    trace
}
