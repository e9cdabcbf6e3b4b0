//! Values and objects of the target, by the names of their classes and of the properties of their keys. The recursion goes as deep as a term is high.
ghost use Rattle.std.specs.Prelude.{◌≡◌, All, IfOk, map, chars};
ghost use Rattle.mof_metamodel.specs.Tables.{IsPropOf};
ghost use Rattle.trace_log.specs.TraceValues.{pair, term};
ghost use Rattle.demand_trace.specs.Traces as spec;
ghost use Rattle.demand_trace.specs.Naming.{world, FindsNames};

use crate::names::Names;
use mof_metamodel::{NoMemory, PropId, Seq, Text, or_drop};
use repair_semantics::{Term, TermValue};
use std::alloc::Global;
use trace_log::{TracePair, TraceTerm, TraceValue};

/// A value with a name.
pub(crate) fn named(alloc: Global, name: &str, value: TraceValue) -> Result<TracePair, NoMemory>
    ensures { IfOk result (λ p. p ≡ pair (chars name.now) value) }
{
    let name = or_drop!(Text::new(alloc, name); value);
    Ok(TracePair { name, value })
}

/// An object of a class with this name.
fn keyed(alloc: Global, class: &str, keys: Seq<TracePair>) -> Result<TraceTerm, NoMemory>
    ensures { IfOk result (λ t. t ≡ term (chars class.now) keys) }
{
    let class = or_drop!(Text::new(alloc, class); keys);
    Ok(TraceTerm { class, keys })
}

impl Names<'_, '_> {
    /// The value of a variable or of a property.
    #[cycle(terms)]
    pub(crate) fn value(&self, alloc: Global, value: &TermValue) -> Result<TraceValue, NoMemory>
        requires { FindsNames self.now }
        ensures { IfOk result (λ v. v ≡ spec.value_trace (world self.now) value.now) }
    {
        match value {
            TermValue::Val(datum) => self.datum(alloc, datum),
            TermValue::Term(term) => Ok(TraceValue::Term(self.term(alloc, term)?)),
        }
    }

    /// An object of the target.
    #[cycle(terms)]
    pub(crate) fn term(&self, alloc: Global, term: &Term) -> Result<TraceTerm, NoMemory>
        requires { FindsNames self.now }
        ensures { IfOk result (λ t. t ≡ spec.term_trace (world self.now) term.now) }
    {
        let props = self.key_props(term.class);
        let keys = self.key_pairs(alloc, props, term.keys.as_slice())?;
        keyed(alloc, self.class_name(term.class), keys)
    }

    /// The properties of a key with their values.
    #[cycle(terms)]
    fn key_pairs(
        &self,
        alloc: Global,
        props: &[PropId],
        values: &[TermValue],
    ) -> Result<Seq<TracePair>, NoMemory>
        requires names { FindsNames self.now }
        requires props { All (IsPropOf self.now.target.now) props.now }
        ensures { IfOk result (λ ps. ps ≡ spec.key_pairs (world self.now) props.now (map (spec.value_trace (world self.now)) values.now)) }
    {
        let mut pairs = Seq::new(alloc);
        for (place, value) in values.iter().enumerate() {
            let Some(prop) = props.get(place) else {
                return Ok(pairs);
            };
            pairs.push(self.key_pair(alloc, *prop, value)?)?;
        }
        Ok(pairs)
    }

    /// A property of a key with its value.
    #[cycle(terms)]
    fn key_pair(
        &self,
        alloc: Global,
        prop: PropId,
        value: &TermValue,
    ) -> Result<TracePair, NoMemory>
        requires names { FindsNames self.now }
        requires prop { IsPropOf self.now.target.now prop }
        ensures { IfOk result (λ p. p ≡ pair (spec.prop_name (world self.now) prop) (spec.value_trace (world self.now) value.now)) }
    {
        let value = self.value(alloc, value)?;
        named(alloc, self.prop_name(prop), value)
    }
}
