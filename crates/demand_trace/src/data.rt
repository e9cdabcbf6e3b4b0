//! Data and source objects, by name.
ghost use Rattle.std.specs.Prelude.{◌≡◌, ◌++◌, chars, codes, IfOk, OnOk};
ghost use Rattle.mof_metamodel.specs.Metamodels.{literal_at};
ghost use Rattle.ocl_environments.specs.Environments.{meta_at};
ghost use Rattle.trace_log.specs.declared.trace.TraceValue.TheVariants as traces;
ghost use Rattle.demand_trace.specs.Traces as spec;
ghost use Rattle.demand_trace.specs.Naming.{world};

use crate::names::{Names, enum_name, literal_name};
use mof_metamodel::{EnumId, MetaModel, NoMemory, Text, or_drop};
use object_tables::{ObjId, Value};
use qvtr_semantics::Datum;
use std::alloc::Global;
use trace_log::TraceValue;

/// Puts `::lit` behind a text, of a literal of the metamodel.
fn add_literal(text: &mut Text, meta: &MetaModel, of: EnumId, place: u32) -> Result<(), NoMemory>
    ensures { OnOk result (text.new ≡ text.old ++ (codes "::" ++ literal_at meta.now of.0 place)) }
{
    text.push_str("::")?;
    text.push_str(literal_name(meta, of, place))
}

/// `Enum::lit`, of a literal of the metamodel.
fn literal_in(alloc: Global, meta: &MetaModel, of: EnumId, place: u32) -> Result<Text, NoMemory>
    ensures { IfOk result (λ text. text ≡ spec.literal_name meta.now of.0 place) }
{
    let mut text = Text::new(alloc, enum_name(meta, of))?;
    or_drop!(add_literal(&mut text, meta, of, place); text);
    Ok(text)
}

/// An object by the name of its model and its identifier.
fn object_named(alloc: Global, model: &str, id: &str) -> Result<TraceValue, NoMemory>
    ensures { IfOk result (λ v. v ≡ traces.Obj (chars model.now) (chars id.now)) }
{
    let model = Text::new(alloc, model)?;
    let id = or_drop!(Text::new(alloc, id); model);
    Ok(TraceValue::Obj(model, id))
}

impl Names<'_, '_> {
    /// `Enum::lit`, of a literal of the metamodel of this number.
    #[tactic(auto, using(crate::proofs::NameLaws::two_colons, crate::proofs::NameLaws::no_metamodel))]
    fn literal(&self, alloc: Global, meta: u32, of: EnumId, place: u32) -> Result<Text, NoMemory>
        ensures { IfOk result (λ text. text ≡ spec.literal_name (meta_at (world self.now).metas meta) of.0 place) }
    {
        if meta < self.metas.len() {
            literal_in(alloc, self.metas.get(meta), of, place)
        } else {
            Text::new(alloc, "::")
        }
    }

    /// A value of a data type; a literal is one of the metamodel of this number.
    fn plain(&self, alloc: Global, meta: u32, value: &Value) -> Result<TraceValue, NoMemory>
        ensures { IfOk result (λ v. v ≡ spec.plain_trace (meta_at (world self.now).metas meta) value.now) }
    {
        match value {
            Value::Str(text) => Ok(TraceValue::Str(text.duplicate(alloc)?)),
            Value::Int(number) => Ok(TraceValue::Int(*number)),
            Value::Bool(flag) => Ok(TraceValue::Bool(*flag)),
            Value::Lit(of, place) => {
                Ok(TraceValue::Lit(self.literal(alloc, meta, *of, *place)?))
            }
        }
    }

    /// An object of a source model.
    fn object(&self, alloc: Global, model: u32, object: ObjId) -> Result<TraceValue, NoMemory>
        ensures { IfOk result (λ v. v ≡ spec.object_trace (world self.now) model object.0) }
    {
        object_named(
            alloc,
            self.model_name(model),
            self.identifier(model, object),
        )
    }

    /// An object of a source model, or a value of a data type.
    pub(crate) fn datum(&self, alloc: Global, datum: &Datum) -> Result<TraceValue, NoMemory>
        ensures { IfOk result (λ v. v ≡ spec.datum_trace (world self.now) datum.now) }
    {
        match datum {
            Datum::Obj(model, object) => self.object(alloc, *model, *object),
            Datum::Val(meta, value) => self.plain(alloc, *meta, value),
        }
    }
}
