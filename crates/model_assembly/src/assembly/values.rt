ghost use Rattle.std.specs.Prelude.{◌≡◌, ◌<◌, ℕ, length, drop, IfOk, OnOk};
ghost use Rattle.model_assembly.specs.AssemblyValues as written;
ghost use Rattle.model_assembly.specs.Source.{is_at};
ghost use Rattle.model_assembly.specs.Values.{same_value, without_repeats};

use super::met::Met;
use crate::filed::WrittenValue;
use mof_metamodel::{NoMemory, PropId, Seq, or_drop};
use object_tables::{HashKey, Model, ObjId, Value};
use std::alloc::{AllocError, Global};
use std::hash::{Hash, Hasher};

/// Whether two values are one.
fn same_value(a: &Value, b: &Value) -> bool
    ensures { result ≡ same_value a.now b.now }
{
    match (a, b) {
        (Value::Str(s), Value::Str(t)) => s == t,
        (Value::Int(i), Value::Int(j)) => i == j,
        (Value::Bool(b), Value::Bool(c)) => b == c,
        (Value::Lit(e, n), Value::Lit(f, k)) => e.0 == f.0 && n == k,
        _ => false,
    }
}

/// A value as a key.
#[derive(Drop)]
pub(super) struct Known<'a> {
    value: &'a Value,
}

impl<'a> std::marker::Model for Known<'a> {
    ghost use Rattle.object_tables.specs.declared.value.Value.{Value as OneValue};

    ghost Value = { OneValue };

    ghost view = { λ k. k.value.now };
}

impl<'a> PartialEq for Known<'a> {
    ghost use Rattle.std.specs.Cmp.{partial_equiv_from_equiv};
    ghost use Rattle.model_assembly.specs.Values.{same_value};
    ghost use Rattle.model_assembly.specs.AssemblyValueLaws.{values_equiv};

    ghost eq = { same_value };

    ghost laws = { partial_equiv_from_equiv values_equiv };

    fn eq(&self, other: &Self) -> bool {
        same_value(self.value, other.value)
    }
}

impl<'a> Eq for Known<'a> {
    ghost use Rattle.model_assembly.specs.AssemblyValueLaws.{values_equiv};

    ghost laws = { values_equiv };
}

impl<'a> Hash for Known<'a> {
    ghost use Rattle.model_assembly.specs.AssemblyValueLaws.{value_input, hashed_alike};

    ghost hash_input = { value_input };

    ghost respects_eq = { hashed_alike };

    fn hash<H: Hasher>(&self, state: &mut H) {
        match self.value {
            Value::Str(text) => text.hash(state),
            Value::Int(number) => number.hash(state),
            Value::Bool(bool) => bool.hash(state),
            Value::Lit(_, place) => place.hash(state),
        }
    }
}

/// Whether a value stands at an attribute of an object.
fn is_at(written: &WrittenValue, object: u32, property: PropId) -> bool
    ensures { result ≡ is_at object property.0 written.now.object written.now.property.0 }
{
    written.object == object && written.property.0 == property.0
}

/// A key with what a value is besides.
fn with_value(key: HashKey, value: &Value) -> HashKey {
    match value {
        Value::Str(text) => key.after_text(text.as_str()),
        Value::Int(number) => key.after(&number.to_le_bytes()),
        Value::Bool(_) => key,
        Value::Lit(_, place) => key.after(&place.to_le_bytes()),
    }
}

/// What the values of a file are hashed after: all of them, so that none can be made that collide.
fn key_of(values: &[WrittenValue]) -> HashKey {
    let mut key = HashKey::none();
    for value in values {
        key = with_value(key, &value.value);
    }
    key
}

/// The values at an attribute with which a list begins, each once and at its first place.
fn distinct_run(
    alloc: Global,
    after: HashKey,
    object: u32,
    property: PropId,
    values: &[WrittenValue],
) -> Result<Seq<Value>, NoMemory>
    ensures { IfOk result (λ slot. slot ≡ without_repeats (written.run object property.0 values.now)) }
{
    let mut met = Met::new(alloc, after);
    let mut slot = Seq::new(alloc);
    for value in values {
        if !is_at(value, object, property) {
            drop(met);
            return Ok(slot);
        }
        let known = Known {
            value: &value.value,
        };
        if or_drop!(met.meet(known); met, slot) {
            let copy = or_drop!(value.value.duplicate(alloc); met, slot);
            or_drop!(slot.push(copy); met, slot);
        }
    }
    drop(met);
    Ok(slot)
}

/// Whether a value is the first of those at its attribute that stand together.
fn is_begin(values: &[WrittenValue], i: usize) -> bool
    requires { i < length values.now }
    ensures { result ≡ written.is_begin values.now i }
{
    if i == 0 {
        return true;
    }
    let before = &values[i - 1];
    !is_at(&values[i], before.object, before.property)
}

/// Puts the values that stand together at a place into the model.
fn set_at(
    alloc: Global,
    after: HashKey,
    model: &mut Model<'_>,
    values: &[WrittenValue],
    i: usize,
) -> Result<(), NoMemory>
    requires within { i < length values.now }
    requires may { written.MayStand model.old values.now i }
    ensures { OnOk result (model.new ≡ written.valued_at model.old values.now i) }
{
    if is_begin(values, i) {
        let value = &values[i];
        let slot = distinct_run(alloc, after, value.object, value.property, &values[i..])?;
        model.set_attr(ObjId(value.object), value.property, slot);
    }
    Ok(())
}

/// Puts the values of a list into the model, where those of one attribute stand together.
fn set_all(
    alloc: Global,
    after: HashKey,
    model: &mut Model<'_>,
    values: &[WrittenValue],
) -> Result<(), NoMemory>
    requires { (i : ℕ) → i < length values.now → written.MayStand (written.valued model.old values.now i) values.now i }
    ensures { OnOk result (model.new ≡ written.valued model.old values.now (length values.now)) }
{
    for i in 0..values.len() {
        set_at(alloc, after, model, values, i)?;
    }
    Ok(())
}

/// Puts values in an order in which those of one attribute stand together, as they are written.
fn sort(values: &mut Vec<WrittenValue>) -> Result<(), AllocError>
    ensures { OnOk result (written.IsSortedValues values.old.items values.new.items) }
{
    values.sort_by_key(|v| v.property.0)?;
    values.sort_by_key(|v| v.object)?;
    Ok(())
}

/// Puts all values of a file into the model, each once.
pub(super) fn put_values(
    alloc: Global,
    model: &mut Model<'_>,
    values: Seq<WrittenValue>,
) -> Result<(), NoMemory>
    requires { written.AreValuesOf model.old values }
    ensures { OnOk result (written.HasValues model.old values model.new) }
{
    // What every model keeps is known here.
    let _ = model.end();
    let mut values = values.into_vec();
    sort(&mut values)?;
    let all = values.as_slice();
    set_all(alloc, key_of(all), model, all)
}
