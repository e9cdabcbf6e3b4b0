//! Types and opposites by name: those that name nothing, and the properties with their names resolved.
ghost use Rattle.std.specs.Prelude.{◌≡◌, ◌<◌, None, Some, IfOk, IfSome, IsSome, is_some};
ghost use Rattle.std.specs.List.{list_all, range_with_len};
ghost use Rattle.mof_metamodel.specs.Metamodels.{class_count, class_number, prop_count, opposite_number as opposite_of_desc, prop_at, owner_of, type_of, opposite_of, IsProp};
ghost use Rattle.mof_metamodel.specs.MetaFaults.{first_of, unless, qualified as qualified_text};
ghost use Rattle.mof_metamodel.specs.MetaFaults as faults;
ghost use Rattle.mof_metamodel.specs.Tables.{ArePropsOf};

use crate::desc::{ClassDesc, ClassId, OppDesc, Prop, PropDesc, PropId, PropType};
use crate::memory::NoMemory;
use crate::named::Named;
use crate::names::{is_number, qualified};
use crate::seq::Seq;
use crate::text::Text;
use std::alloc::Global;

/// The number of an opposite.
pub(crate) fn opposite_number(named: &Named, opposite: &Option<OppDesc>) -> Option<u32>
    ensures number { result ≡ opposite_of_desc named.now opposite.now }
    ensures within { IfSome result (λ p. p < prop_count named.now) }
{
    match opposite {
        Some(opposite) => {
            let class = named.class_number(opposite.class.as_str())?;
            named.own_number(class, opposite.prop.as_str())
        }
        None => None,
    }
}

/// Whether the type of a property and its opposite name something.
fn is_known_prop(named: &Named, prop: &PropDesc) -> bool
    ensures { result ≡ faults.is_known_prop named.now prop.now }
{
    named.type_named(prop.type_name.as_str()).is_some()
        && (prop.opposite.is_none() || opposite_number(named, &prop.opposite).is_some())
}

/// Whether each name is that of a class.
fn are_classes(named: &Named, names: &[Text]) -> bool
    ensures { result ≡ list_all (λ s. is_some (class_number named.now s)) names.now }
{
    names
        .iter()
        .all(|name| named.class_number(name.as_str()).is_some())
}

/// The first property of a class whose type or opposite names nothing.
fn unknown_prop(
    alloc: Global,
    named: &Named,
    outer: &Text,
    props: &[PropDesc],
) -> Result<Option<Text>, NoMemory>
    ensures { IfOk result (λ o. o ≡ first_of (λ p. unless (faults.is_known_prop named.now p) (qualified_text outer.now p.name)) props.now) }
{
    for prop in props {
        if !is_known_prop(named, prop) {
            return Ok(Some(qualified(alloc, outer, &prop.name)?));
        }
    }
    Ok(None)
}

/// The first name in a class that names nothing.
fn unknown_in_class(
    alloc: Global,
    named: &Named,
    class: &ClassDesc,
) -> Result<Option<Text>, NoMemory>
    ensures { IfOk result (λ o. o ≡ faults.unknown_in_class named.now class.now) }
{
    if !are_classes(named, class.supers.as_slice()) {
        return Ok(Some(class.name.duplicate(alloc)?));
    }
    unknown_prop(alloc, named, &class.name, class.props.as_slice())
}

/// The first place of a description at which a name names nothing.
pub(crate) fn first_unknown(alloc: Global, named: &Named) -> Result<Option<Text>, NoMemory>
    ensures { IfOk result (λ o. o ≡ faults.first_unknown named.now) }
{
    for class in named.desc().classes.as_slice() {
        let found = unknown_in_class(alloc, named, class)?;
        if found.is_some() {
            return Ok(found);
        }
    }
    Ok(None)
}

/// A property with its names resolved.
fn resolved_prop(alloc: Global, named: &Named, p: u32) -> Result<Prop, NoMemory>
    requires within { p < prop_count named.now }
    requires known { IsSome (type_of named.now p) }
    ensures { IfOk result (λ prop. IsProp named.now p prop) }
{
    let prop = named.prop(p);
    let ty = named.type_named(prop.type_name.as_str()).unwrap();
    let opposite = opposite_number(named, &prop.opposite).map(PropId);
    Ok(Prop {
        name: prop.name.duplicate(alloc)?,
        owner: ClassId(named.owner(p)),
        ty,
        lower: prop.lower,
        upper: prop.upper,
        composite: prop.composite,
        ordered: prop.ordered,
        opposite,
    })
}

/// The properties with their names resolved.
pub(crate) fn resolved_props(alloc: Global, named: &Named) -> Result<Seq<Prop>, NoMemory>
    requires { faults.first_unknown named.now ≡ None }
    ensures { IfOk result (λ props. ArePropsOf named.now props) }
{
    let mut props = Seq::new(alloc);
    for p in 0..named.prop_count() {
        let prop = resolved_prop(alloc, named, p)?;
        props.push(prop)?;
    }
    Ok(props)
}

/// Whether a type is a class.
fn is_class(ty: Option<PropType>, c: u32) -> bool
    ensures { result ≡ faults.is_class ty c }
{
    match ty {
        Some(PropType::Class(d)) => d.0 == c,
        _ => false,
    }
}

/// The type of a property.
fn type_of_prop(named: &Named, p: u32) -> Option<PropType>
    requires { p < prop_count named.now }
    ensures { result ≡ type_of named.now p }
{
    named.type_named(named.prop(p).type_name.as_str())
}

/// The opposite of a property.
fn opposite_of_prop(named: &Named, p: u32) -> Option<u32>
    requires { p < prop_count named.now }
    ensures number { result ≡ opposite_of named.now p }
    ensures within { IfSome result (λ q. q < prop_count named.now) }
{
    opposite_number(named, &named.prop(p).opposite)
}

/// Whether two properties are opposites: of each other, of two ends, of the two classes, and single where the other is composite.
fn are_opposites(named: &Named, p: u32, q: u32) -> bool
    requires here { p < prop_count named.now }
    requires there { q < prop_count named.now }
    ensures { result ≡ faults.agree named.now p (Some q) }
{
    is_number(opposite_of_prop(named, q), p)
        && q != p
        && is_class(type_of_prop(named, p), named.owner(q))
        && is_class(type_of_prop(named, q), named.owner(p))
        && (!named.prop(q).composite || is_number(named.prop(p).upper, 1))
}

/// Whether a property agrees with its opposite, if it has one.
fn has_good_opposite(named: &Named, p: u32) -> bool
    requires { p < prop_count named.now }
    ensures { result ≡ faults.agree named.now p (opposite_of named.now p) }
{
    match opposite_of_prop(named, p) {
        Some(q) => are_opposites(named, p, q),
        None => true,
    }
}

/// Whether not both a property and its opposite are composite.
fn has_one_container(named: &Named, p: u32) -> bool
    requires { p < prop_count named.now }
    ensures { result ≡ faults.has_one_container named.now p (opposite_of named.now p) }
{
    match opposite_of_prop(named, p) {
        Some(q) => !(named.prop(p).composite && named.prop(q).composite),
        None => true,
    }
}

/// The name of a property behind that of its class.
fn prop_name(alloc: Global, named: &Named, p: u32) -> Result<Text, NoMemory>
    requires { p < prop_count named.now }
    ensures { IfOk result (λ name. name ≡ faults.prop_name named.now p) }
{
    qualified(
        alloc,
        &named.class(named.owner(p)).name,
        &named.prop(p).name,
    )
}

/// The name of a property that doesn't agree with its opposite.
fn bad_opposite_at(alloc: Global, named: &Named, p: u32) -> Result<Option<Text>, NoMemory>
    requires { p < prop_count named.now }
    ensures { IfOk result (λ o. o ≡ unless (faults.agree named.now p (opposite_of named.now p)) (faults.prop_name named.now p)) }
{
    if has_good_opposite(named, p) {
        return Ok(None);
    }
    Ok(Some(prop_name(alloc, named, p)?))
}

/// The first property that doesn't agree with its opposite.
pub(crate) fn first_bad_opposite(alloc: Global, named: &Named) -> Result<Option<Text>, NoMemory>
    ensures { IfOk result (λ o. o ≡ faults.first_bad_opposite named.now) }
{
    for p in 0..named.prop_count() {
        let found = bad_opposite_at(alloc, named, p)?;
        if found.is_some() {
            return Ok(found);
        }
    }
    Ok(None)
}

/// The name of a property that is composite at both ends.
fn two_containers_at(alloc: Global, named: &Named, p: u32) -> Result<Option<Text>, NoMemory>
    requires { p < prop_count named.now }
    ensures { IfOk result (λ o. o ≡ unless (faults.has_one_container named.now p (opposite_of named.now p)) (faults.prop_name named.now p)) }
{
    if has_one_container(named, p) {
        return Ok(None);
    }
    Ok(Some(prop_name(alloc, named, p)?))
}

/// The first property that is composite at both ends.
pub(crate) fn first_two_containers(alloc: Global, named: &Named) -> Result<Option<Text>, NoMemory>
    ensures { IfOk result (λ o. o ≡ faults.first_two_containers named.now) }
{
    for p in 0..named.prop_count() {
        let found = two_containers_at(alloc, named, p)?;
        if found.is_some() {
            return Ok(found);
        }
    }
    Ok(None)
}
