ghost use Rattle.std.specs.Prelude.{◌≡◌, ◌<◌, ◌↔◌, nat_eq, IsTrue};
ghost use Rattle.std.specs.List.{list_any};
ghost use Rattle.std.specs.Option.{option_map};
ghost use Rattle.mof_metamodel.specs.Metamodels.{class_count, lineage_of, Conforms};
ghost use Rattle.ocl_environments.specs.Conformance.{ClassConforms, TypeConforms};
ghost use Rattle.ocl_environments.specs.Agreement.{same_kind as one_kind, same_type as one_type, is_null as null, collection_parts as parts_of_collection, has_objects as objects, model_for as model_of, class_fits as class_fitting, fits as fitting, are_related as related, higher as higher_of, joined_models as joined, upper as upper_of, comparable_elements as elements_comparable, are_comparable as comparable, branches as branches_of};
ghost use Rattle.mof_metamodel.specs.Giving.{Gives};
ghost use Rattle.ocl_environments.specs.Written.{fault_in};

use crate::fault::TypeError;
use crate::of_types::class_of;
use crate::outcomes::wrong_type;
use mof_metamodel::{ClassId, MetaModel};
use qv_syntax::{Kind, Ty};
use std::alloc::Global;

/// Whether two kinds are one.
pub fn same_kind(a: Kind, b: Kind) -> bool
    ensures test { result ≡ one_kind a b }
    ensures same { IsTrue result ↔ (a ≡ b) }
{
    match (a, b) {
        (Kind::Set, Kind::Set) => true,
        (Kind::Bag, Kind::Bag) => true,
        (Kind::Sequence, Kind::Sequence) => true,
        (Kind::OrderedSet, Kind::OrderedSet) => true,
        _ => false,
    }
}

/// Whether two types are one.
pub fn same_type(a: &Ty, b: &Ty) -> bool
    ensures test { result ≡ one_type a.now b.now }
    ensures same { IsTrue result ↔ (a.now ≡ b.now) }
{
    match (a, b) {
        (Ty::Str, Ty::Str) => true,
        (Ty::Int, Ty::Int) => true,
        (Ty::Bool, Ty::Bool) => true,
        (Ty::Enum(m, e), Ty::Enum(n, f)) => *m == *n && e.0 == f.0,
        (Ty::Class(m, c), Ty::Class(n, d)) => *m == *n && c.0 == d.0,
        (Ty::Coll(k, x), Ty::Coll(l, y)) => same_kind(*k, *l) && same_type(x.get(), y.get()),
        (Ty::Null, Ty::Null) => true,
        _ => false,
    }
}

/// Whether the type is that of null.
pub fn is_null(ty: &Ty) -> bool
    ensures { result ≡ null ty.now }
{
    match ty {
        Ty::Null => true,
        _ => false,
    }
}

/// The kind of a collection, and the type of its elements.
pub fn collection_parts(ty: &Ty) -> Option<(Kind, &Ty)>
    ensures { option_map (λ p. (p.0, p.1.now)) result ≡ parts_of_collection ty.now }
{
    match ty {
        Ty::Coll(kind, of) => Some((*kind, of.get())),
        _ => None,
    }
}

/// Whether the values of a type are objects.
pub(crate) fn has_objects(ty: &Ty) -> bool
    ensures { result ≡ objects ty.now }
{
    match ty {
        Ty::Class(_, _) => true,
        Ty::Coll(_, of) => has_objects(of.get()),
        _ => false,
    }
}

/// The model, if values of the type have one.
pub fn model_for(ty: &Ty, model: Option<u32>) -> Option<u32>
    ensures { result ≡ model_of ty.now model }
{
    if has_objects(ty) { model } else { None }
}

/// Whether a class of a metamodel is another, or inherits from it.
fn inherits(meta: &MetaModel, c: ClassId, d: ClassId) -> bool
    requires { c.0 < class_count meta.now }
    ensures test { result ≡ list_any (nat_eq d.0) (lineage_of meta.now c.0) }
    ensures conforms { IsTrue result ↔ Conforms meta.now c.0 d.0 }
{
    let _count = meta.class_count();
    meta.conforms(c, d)
}

/// Whether a class of the metamodel of number `m` is another, or inherits from it.
fn class_fits(metas: &[MetaModel], m: u32, c: ClassId, d: ClassId) -> bool
    ensures test { result ≡ class_fitting metas.now m c d }
    ensures conforms { IsTrue result ↔ ClassConforms metas.now m c d }
{
    let m = m as usize;
    m < metas.len() && c.0 < metas[m].class_count() && inherits(&metas[m], c, d)
}

/// Whether a type conforms to another: they are one, or classes of one metamodel of which the first inherits from the second.
pub fn fits(metas: &[MetaModel], a: &Ty, b: &Ty) -> bool
    ensures test { result ≡ fitting metas.now a.now b.now }
    ensures conforms { IsTrue result ↔ TypeConforms metas.now a.now b.now }
{
    match (class_of(a), class_of(b)) {
        (Some((m, c)), Some((n, d))) => m == n && class_fits(metas, m, c, d),
        (Some(_), None) => same_type(a, b),
        (None, _) => same_type(a, b),
    }
}

/// Whether one of two types conforms to the other (OCL 2.4, section 8.2.1).
pub fn are_related(metas: &[MetaModel], a: &Ty, b: &Ty) -> bool
    ensures { result ≡ related metas.now a.now b.now }
{
    fits(metas, a, b) || fits(metas, b, a)
}

/// The higher of two types, if the first conforms to the second, and else the first.
pub fn higher<'t>(metas: &[MetaModel], a: &'t Ty, b: &'t Ty) -> &'t Ty
    ensures { result.now ≡ higher_of metas.now a.now b.now }
{
    if fits(metas, a, b) { b } else { a }
}

/// One of two types, to which both conform.
pub fn upper(alloc: Global, metas: &[MetaModel], a: &Ty, b: &Ty) -> Result<Ty, TypeError>
    ensures { Gives fault_in (λ x. x) result (upper_of metas.now a.now b.now) }
{
    let top = higher(metas, a, b);
    if !fits(metas, a, top) {
        return Err(TypeError::Fault(wrong_type(alloc, metas, top, a)?));
    }
    if !fits(metas, b, top) {
        return Err(TypeError::Fault(wrong_type(alloc, metas, top, b)?));
    }
    Ok(top.duplicate(alloc)?)
}

/// Whether two types are collections of one kind whose elements may stand in one collection.
fn comparable_elements(metas: &[MetaModel], a: &Ty, b: &Ty) -> bool
    ensures { result ≡ elements_comparable metas.now (parts_of_collection a.now) (parts_of_collection b.now) }
{
    match (collection_parts(a), collection_parts(b)) {
        (Some((kind, x)), Some((other, y))) => same_kind(kind, other) && are_related(metas, x, y),
        _ => false,
    }
}

/// Whether values of two types may be compared (OCL 2.4, section 8.2.1).
pub fn are_comparable(metas: &[MetaModel], a: &Ty, b: &Ty) -> bool
    ensures { result ≡ comparable metas.now a.now b.now }
{
    is_null(a) || is_null(b) || are_related(metas, a, b) || comparable_elements(metas, a, b)
}

/// The type of two branches of an `if`.
pub fn branches(alloc: Global, metas: &[MetaModel], one: &Ty, other: &Ty) -> Result<Ty, TypeError>
    ensures { Gives fault_in (λ x. x) result (branches_of metas.now one.now other.now) }
{
    if is_null(one) {
        Ok(other.duplicate(alloc)?)
    } else if is_null(other) {
        Ok(one.duplicate(alloc)?)
    } else {
        upper(alloc, metas, one, other)
    }
}

/// The model of objects from two places, if there are not two of them.
pub fn joined_models(a: Option<u32>, b: Option<u32>) -> Option<Option<u32>>
    ensures { result ≡ joined a b }
{
    match (a, b) {
        (None, _) => Some(b),
        (Some(_), None) => Some(a),
        (Some(m), Some(n)) => if m == n { Some(a) } else { None },
    }
}
