ghost use Rattle.std.specs.Prelude.{◌≡◌, ◌≢◌, ◌↔◌, ◌<◌, All, AllPairs, IfOk, IsPermutation, IsTrue, Some, length, map, nat_lt};
ghost use Rattle.std.specs.List.Sorted.{IsNonDecreasing};
ghost use Rattle.mof_metamodel.specs.declared.desc.MetaDesc.{MetaDesc};
ghost use Rattle.mof_metamodel.specs.Metamodels.{enum_at, enum_count, IsTypeOf};
ghost use Rattle.object_tables.specs.Ids.{object_ids};
ghost use Rattle.object_tables.specs.Models.{IsAttributeOf, IsReferenceOf, IsSlotOf, is_value_of, partners_at};

use crate::model::Model;
use crate::value::{ObjId, Value};
use mof_metamodel::{EnumId, MetaModel, NoMemory, PropId, PropType, is_storable};
use std::alloc::{AllocError, Global};

/// The tests of what the edits ask of the values and the orders that they are given.
impl<'m> Model<'m> {
    /// Whether values may stand at an attribute: each is of its type, and no two are equal. It compares each with each.
    pub fn may_hold(&self, o: ObjId, p: PropId, values: &[Value]) -> bool
        requires { IsAttributeOf self.now o.0 p.0 }
        ensures { IsTrue result ↔ IsSlotOf self.now.meta p.0 values.now }
    {
        if !are_of_type(self.meta(), self.type_at(o, p), values) {
            return false;
        }
        are_distinct(values)
    }

    /// Whether a list has each partner of an object at a reference once, and no other object. It sorts both.
    pub fn is_order(&self, p: PropId, a: ObjId, order: &[ObjId]) -> Result<bool, NoMemory>
        requires { IsReferenceOf self.now a.0 p.0 }
        ensures { IfOk result (λ r. IsTrue r ↔ IsPermutation (map (λ b. b.0) order.now) (partners_at self.now a.0 p.0)) }
    {
        let partners = self.listed(p, a)?;
        let rearranged = are_rearranged(self.alloc, order, partners.as_slice())?;
        Ok(rearranged)
    }

    /// The partners of an object at a reference, in their order.
    fn listed(&self, p: PropId, a: ObjId) -> Result<Vec<ObjId>, AllocError>
        requires { IsReferenceOf self.now a.0 p.0 }
        ensures { IfOk result (λ found. found.items ≡ object_ids (partners_at self.now a.0 p.0)) }
    {
        self.partners(a, p).collect(self.alloc)
    }
}

/// Whether a value is of a type.
fn is_of_type(meta: &MetaModel, ty: PropType, value: &Value) -> bool
    requires { IsTypeOf meta.now ty }
    ensures { result ≡ is_value_of meta.now (Some ty) value.now }
{
    match ty {
        PropType::Str => is_storable_text(value),
        PropType::Int => is_integer(value),
        PropType::Bool => is_boolean(value),
        PropType::Enum(e) => is_literal_of(meta, e, value),
        PropType::Class(_) => false,
    }
}

/// Whether a value is a text of storable characters.
fn is_storable_text(value: &Value) -> bool
    ensures { (meta : MetaDesc) → result ≡ is_value_of meta (Some PropType.Str) value.now }
{
    match value {
        Value::Str(text) => is_storable(text.as_str()),
        _ => false,
    }
}

/// Whether a value is an integer.
fn is_integer(value: &Value) -> bool
    ensures { (meta : MetaDesc) → result ≡ is_value_of meta (Some PropType.Int) value.now }
{
    match value {
        Value::Int(_) => true,
        _ => false,
    }
}

/// Whether a value is a truth value.
fn is_boolean(value: &Value) -> bool
    ensures { (meta : MetaDesc) → result ≡ is_value_of meta (Some PropType.Bool) value.now }
{
    match value {
        Value::Bool(_) => true,
        _ => false,
    }
}

/// Whether a value is a literal of an enumeration.
fn is_literal_of(meta: &MetaModel, e: EnumId, value: &Value) -> bool
    requires { e.0 < enum_count meta.now }
    ensures { result ≡ is_value_of meta.now (Some (PropType.Enum e)) value.now }
{
    match value {
        Value::Lit(f, n) => e.0 == f.0 && is_literal(meta, e, *n),
        _ => false,
    }
}

/// Whether an enumeration has a literal of a number.
fn is_literal(meta: &MetaModel, e: EnumId, n: u32) -> bool
    requires { e.0 < enum_count meta.now }
    ensures { result ≡ nat_lt n (length (enum_at meta.now e.0).literals) }
{
    (n as usize) < meta.literals(e).len()
}

/// Whether each value is of a type.
fn are_of_type(meta: &MetaModel, ty: PropType, values: &[Value]) -> bool
    requires { IsTypeOf meta.now ty }
    ensures { IsTrue result ↔ All (λ v. IsTrue (is_value_of meta.now (Some ty) v)) values.now }
{
    for value in values {
        if !is_of_type(meta, ty, value) {
            return false;
        }
    }
    true
}

/// Whether no value of the list is this one.
fn is_absent(values: &[Value], value: &Value) -> bool
    ensures { IsTrue result ↔ All (λ v. v ≢ value.now) values.now }
{
    values.iter().all(|other| other != value)
}

/// Whether no value stands twice in the list.
fn are_distinct(values: &[Value]) -> bool
    ensures { IsTrue result ↔ AllPairs (λ x y. x ≢ y) values.now }
{
    for (i, value) in values.iter().enumerate() {
        if !is_absent(&values[i + 1..], value) {
            return false;
        }
    }
    true
}

/// The numbers of objects in ascending order.
fn sorted_numbers(alloc: Global, objects: &[ObjId]) -> Result<Vec<u32>, AllocError>
    ensures permutation { IfOk result (λ sorted. IsPermutation (map (λ o. o.0) objects.now) sorted.items) }
    ensures sorted { IfOk result (λ sorted. IsNonDecreasing sorted.items) }
{
    let mut numbers: Vec<u32> = objects.iter().map(|o| o.0).collect(alloc)?;
    numbers.sort_unstable();
    Ok(numbers)
}

/// Whether each object stands in both lists equally often.
fn are_rearranged(alloc: Global, xs: &[ObjId], ys: &[ObjId]) -> Result<bool, AllocError>
    ensures { IfOk result (λ r. IsTrue r ↔ IsPermutation (map (λ o. o.0) xs.now) (map (λ o. o.0) ys.now)) }
{
    let xs = sorted_numbers(alloc, xs)?;
    let ys = sorted_numbers(alloc, ys)?;
    Ok(xs == ys)
}
