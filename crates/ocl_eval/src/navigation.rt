ghost use Rattle.std.specs.Prelude.{◌≡◌, map, IfOk};
ghost use Rattle.object_tables.specs.Models.{IsReferenceOf, partners_at};
ghost use Rattle.std.specs.List.{fold};
ghost use Rattle.qvtr_semantics.specs.Iterators.{collect};
ghost use Rattle.qvtr_semantics.specs.Objects.{object_datum, value_datum, held_by, held_at, single, navigated, property, meta_of};
ghost use Rattle.qvtr_semantics.specs.Expressions.{setting, with_datum, with_collection};
ghost use Rattle.ocl_eval.specs.Progress.{advanced};
ghost use Rattle.ocl_eval.specs.Worlds.{setting_of};

use crate::models::Models;
use crate::ordering::in_order;
use crate::progress::{Progress, iterator_result};
use crate::world::World;
use mof_metamodel::{NoMemory, PropId, Seq};
use object_tables::{Model, ObjId, Value};
use qv_syntax::{IteratorKind, Kind, Program, Values};
use qvtr_semantics::{Datum, Out};
use std::alloc::Global;

/// The number of a model's metamodel.
fn meta_of(world: &World<'_, '_>, model: u32) -> u32
    ensures { result ≡ meta_of (setting_of world.now) model }
{
    match world.program.models.as_slice().get(model as usize) {
        Some(slot) => slot.meta,
        None => 0,
    }
}

/// A value of a data type as a datum: a literal goes with the number of its metamodel.
fn value_datum(alloc: Global, meta: u32, value: &Value) -> Result<Datum, NoMemory>
    ensures { IfOk result (λ d. d ≡ value_datum meta value.now) }
{
    let of = match value {
        Value::Lit(..) => meta,
        _ => 0,
    };
    Ok(Datum::Val(of, value.duplicate(alloc)?))
}

/// The values of an attribute.
fn value_data(alloc: Global, meta: u32, values: &[Value]) -> Result<Seq<Datum>, NoMemory>
    ensures { IfOk result (λ found. found ≡ map (value_datum meta) values.now) }
{
    let mut found = Seq::new(alloc);
    for value in values {
        found.push(value_datum(alloc, meta, value)?)?;
    }
    Ok(found)
}

/// The partners of an object at a reference.
#[tactic(auto, using(crate::proofs::NavigationLaws::all_found))]
fn partner_data(
    alloc: Global,
    number: u32,
    model: &Model<'_>,
    object: ObjId,
    prop: PropId,
) -> Result<Seq<Datum>, NoMemory>
    requires { IsReferenceOf model.now object.0 prop.0 }
    ensures { IfOk result (λ found. found ≡ map (object_datum number) (partners_at model.now object.0 prop.0)) }
{
    let mut found = Seq::new(alloc);
    for partner in model.partners(object, prop) {
        found.push(Datum::Obj(number, partner))?;
    }
    Ok(found)
}

/// What stands at a property of an object: nothing, if the object isn't live or its class doesn't have the property.
#[tactic(auto, using(crate::proofs::NavigationLaws::held_partners, crate::proofs::NavigationLaws::held_values, crate::proofs::NavigationLaws::nothing_held))]
fn held_by(
    world: &World<'_, '_>,
    number: u32,
    object: ObjId,
    prop: PropId,
) -> Result<Option<Seq<Datum>>, NoMemory>
    ensures { IfOk result (λ found. found ≡ held_by (setting_of world.now) number object.0 prop.0) }
{
    match world.models.get(number as usize) {
        Some(model) => {
            if model.has_reference(object, prop) {
                Ok(Some(partner_data(world.alloc, number, model, object, prop)?))
            } else if model.has_attribute(object, prop) {
                let meta = meta_of(world, number);
                Ok(Some(value_data(world.alloc, meta, model.attr(object, prop))?))
            } else {
                Ok(None)
            }
        }
        None => Ok(None),
    }
}

/// What stands at a property of an object (OCL 2.4, section 7.5.3): nothing, if the datum is no live object whose class has the property.
pub fn held_at(
    alloc: Global,
    program: &Program,
    models: &Models<'_>,
    datum: &Datum,
    prop: PropId,
) -> Result<Option<Seq<Datum>>, NoMemory>
    ensures { IfOk result (λ found. found ≡ held_at (setting program.now models.now) datum.now prop.0) }
{
    let world = World {
        alloc,
        program,
        models,
        calls: 0,
    };
    match datum {
        Datum::Obj(number, object) => held_by(&world, *number, *object, prop),
        Datum::Val(..) => Ok(None),
    }
}

/// The value of a single property, or null.
fn single(found: Seq<Datum>) -> Out
    ensures { result ≡ single found }
{
    let mut items = found.into_vec().into_iter();
    match items.next() {
        Some(datum) => Out::One(datum),
        None => Out::Null,
    }
}

/// What navigation to a property gives (OCL 2.4, section 7.5.3).
fn navigated(values: Values, found: Seq<Datum>) -> Out
    ensures { result ≡ navigated values found }
{
    match values {
        Values::Single => single(found),
        Values::Set => Out::Many(Kind::Set, in_order(found)),
        Values::OrderedSet => Out::Many(Kind::OrderedSet, found),
    }
}

/// The value of a property of a datum, which is invalid where it is no object that has the property.
pub(crate) fn property(
    world: &World<'_, '_>,
    prop: PropId,
    values: Values,
    datum: &Datum,
) -> Result<Out, NoMemory>
    ensures { IfOk result (λ out. out ≡ property (setting_of world.now) prop.0 values datum.now) }
{
    match datum {
        Datum::Obj(number, object) => match held_by(world, *number, *object, prop)? {
            Some(found) => Ok(navigated(values, found)),
            None => Ok(Out::Invalid),
        },
        Datum::Val(..) => Ok(Out::Invalid),
    }
}

/// `x.property`
pub(crate) fn property_of(
    world: &World<'_, '_>,
    prop: PropId,
    values: Values,
    x: &Out,
) -> Result<Out, NoMemory>
    ensures { IfOk result (λ out. out ≡ with_datum x.now (property (setting_of world.now) prop.0 values)) }
{
    match x {
        Out::One(datum) => property(world, prop, values, datum),
        _ => Ok(Out::Invalid),
    }
}

/// What the property gives for each of the data comes to so far.
fn each_property(
    world: &World<'_, '_>,
    prop: PropId,
    values: Values,
    elements: &[Datum],
    begun: Progress,
) -> Result<Progress, NoMemory>
    ensures { IfOk result (λ p. p ≡ fold advanced begun (map (property (setting_of world.now) prop.0 values) elements.now)) }
{
    let mut progress = begun;
    for element in elements {
        let out = property(world, prop, values, element)?;
        progress = progress.advanced(out)?;
    }
    Ok(progress)
}

/// `x.property` of each element of a collection: what `collect` gives.
#[tactic(auto, using(crate::proofs::CollectLaws::collected))]
pub(crate) fn collect_property(
    world: &World<'_, '_>,
    prop: PropId,
    values: Values,
    x: Out,
) -> Result<Out, NoMemory>
    ensures { IfOk result (λ out. out ≡ with_collection x (λ c. collect c (map (property (setting_of world.now) prop.0 values) c.elements))) }
{
    match x {
        Out::Many(kind, elements) => {
            let begun = Progress::new(world.alloc, IteratorKind::Collect);
            let progress = each_property(world, prop, values, elements.as_slice(), begun)?;
            iterator_result(world.alloc, IteratorKind::Collect, kind, elements, progress)
        }
        _ => Ok(Out::Invalid),
    }
}
