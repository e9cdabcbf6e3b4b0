//! Entries, with the values of their variables, what they make and what they demand.
ghost use Rattle.std.specs.Prelude.{◌≡◌, ◌++◌, All, IfOk, OnOk, map, option_to_list};
ghost use Rattle.repair_semantics.specs.declared.demand.Demand.{Demand};
ghost use Rattle.mof_metamodel.specs.Tables.{IsPropOf};
ghost use Rattle.demand_trace.specs.Traces as spec;
ghost use Rattle.demand_trace.specs.Naming.{world, FindsNames};
ghost use Rattle.demand_trace.specs.Cuts.{own_count, entries_cut};

use crate::names::Names;
use crate::terms::named;
use mof_metamodel::{NoMemory, Seq, Text, or_drop};
use qv_syntax::Var;
use repair_semantics::{Demand, Entry, TermValue};
use std::alloc::Global;
use trace_log::{TraceDemand, TraceEntry, TracePair};

/// How many demands, from the first on, are those of the entry of this number.
fn own_count(number: usize, demands: &[Demand]) -> usize
    ensures { result ≡ own_count number demands.now }
{
    for (place, demand) in demands.iter().enumerate() {
        if demand.entry != number {
            return place;
        }
    }
    demands.len()
}

impl Names<'_, '_> {
    /// Puts a variable with its value behind others, if it has one.
    fn add_binding(
        &self,
        alloc: Global,
        var: &Var,
        value: &Option<TermValue>,
        pairs: &mut Seq<TracePair>,
    ) -> Result<(), NoMemory>
        requires { FindsNames self.now }
        ensures { OnOk result (pairs.new ≡ pairs.old ++ option_to_list (spec.binding_trace (world self.now) (var.now, value.now))) }
    {
        match value {
            Some(value) => {
                let value = self.value(alloc, value)?;
                pairs.push(named(alloc, var.name.as_str(), value)?)
            }
            None => Ok(()),
        }
    }

    /// The variables that have a value, each with it, in the order of the variables.
    fn bindings(
        &self,
        alloc: Global,
        vars: &[Var],
        values: &[Option<TermValue>],
    ) -> Result<Seq<TracePair>, NoMemory>
        requires { FindsNames self.now }
        ensures { IfOk result (λ ps. ps ≡ spec.bindings_trace (world self.now) vars.now values.now) }
    {
        let mut pairs = Seq::new(alloc);
        for (place, value) in values.iter().enumerate() {
            let Some(var) = vars.get(place) else {
                return Ok(pairs);
            };
            self.add_binding(alloc, var, value, &mut pairs)?;
        }
        Ok(pairs)
    }

    /// What is demanded.
    fn demand(&self, alloc: Global, demand: &Demand) -> Result<TraceDemand, NoMemory>
        requires names { FindsNames self.now }
        requires prop { IsPropOf self.now.target.now demand.now.prop }
        ensures { IfOk result (λ d. d ≡ spec.demand_trace (world self.now) demand.now) }
    {
        let item = Text::new(alloc, self.prop_name(demand.prop))?;
        let place = or_drop!(self.term(alloc, &demand.owner); item);
        let value = or_drop!(self.value(alloc, &demand.value); item, place);
        Ok(TraceDemand { item, place, value })
    }

    /// All that is demanded, in this order.
    fn demands(&self, alloc: Global, demands: &[Demand]) -> Result<Seq<TraceDemand>, NoMemory>
        requires names { FindsNames self.now }
        requires props { All (λ (d : Demand). IsPropOf self.now.target.now d.prop) demands.now }
        ensures { IfOk result (λ ds. ds ≡ map (spec.demand_trace (world self.now)) demands.now) }
    {
        let mut traced = Seq::new(alloc);
        for demand in demands {
            traced.push(self.demand(alloc, demand)?)?;
        }
        Ok(traced)
    }

    /// An entry with what it demands.
    fn entry(
        &self,
        alloc: Global,
        entry: &Entry,
        demands: &[Demand],
    ) -> Result<TraceEntry, NoMemory>
        requires names { FindsNames self.now }
        requires props { All (λ (d : Demand). IsPropOf self.now.target.now d.prop) demands.now }
        ensures { IfOk result (λ e. e ≡ spec.entry_trace (world self.now) entry.now demands.now) }
    {
        let vars = self.variables(entry.rel);
        let relation = Text::new(alloc, self.relation_name(entry.rel))?;
        let values = or_drop!(self.bindings(alloc, vars, entry.values.as_slice()); relation);
        let made = or_drop!(self.bindings(alloc, vars, entry.made.as_slice()); relation, values);
        let demands = or_drop!(self.demands(alloc, demands); relation, values, made);
        Ok(TraceEntry {
            relation,
            called: entry.called,
            values,
            made,
            demands,
        })
    }

    /// Entries in their order, each with the demands that are its own. These stand in the order of the entries.
    pub(crate) fn entries(
        &self,
        alloc: Global,
        entries: &[Entry],
        demands: &[Demand],
    ) -> Result<Seq<TraceEntry>, NoMemory>
        requires names { FindsNames self.now }
        requires props { All (λ (d : Demand). IsPropOf self.now.target.now d.prop) demands.now }
        ensures { IfOk result (λ es. es ≡ entries_cut (world self.now) demands.now 0 entries.now) }
    {
        let mut traced = Seq::new(alloc);
        let mut left = demands;
        for (number, entry) in entries.iter().enumerate() {
            let (own, behind) = left.split_at(own_count(number, left));
            traced.push(self.entry(alloc, entry, own)?)?;
            left = behind;
        }
        Ok(traced)
    }
}
