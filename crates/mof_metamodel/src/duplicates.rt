//! Names that stand twice.
ghost use Rattle.std.specs.Prelude.{◌≡◌, ◌<◌, [], map, All, IfOk, is_some};
ghost use Rattle.std.specs.List.{range_with_len};
ghost use Rattle.mof_metamodel.specs.Metamodels.{class_count, enum_count, prop_count, prop_at};
ghost use Rattle.mof_metamodel.specs.Tables.{prop_numbers, number_in, name_number, table, IsPropOf};
ghost use Rattle.mof_metamodel.specs.MetaFaults.{first_repeat as repeat_in};
ghost use Rattle.mof_metamodel.specs.MetaFaults as faults;

use crate::desc::PropId;
use crate::memory::NoMemory;
use crate::name_table::NameTable;
use crate::named::Named;
use crate::names::{is_number, is_primitive, qualified};
use crate::or_drop;
use crate::ordered::Ordered;
use crate::prop_names::{all_names, name_numbers};
use crate::text::Text;
use std::alloc::Global;

/// Whether a name was met.
fn is_met(met: &NameTable<u32>, name: &Text) -> bool
    ensures { result ≡ is_some (number_in met.now name.now) }
{
    met.number(name.as_str()).is_some()
}

/// The first name that stands before it in the list.
fn first_repeat(alloc: Global, names: &[&Text]) -> Result<Option<Text>, NoMemory>
    ensures { IfOk result (λ o. o ≡ repeat_in [] (map (λ n. n.now) names.now)) }
{
    let mut met = NameTable::new(alloc);
    for name in names {
        if is_met(&met, name) {
            drop(met);
            return Ok(Some(name.duplicate(alloc)?));
        }
        or_drop!(met.add(alloc, name, 0); met);
    }
    drop(met);
    Ok(None)
}

/// The first name that a property shares with one before it in the list.
fn first_shared(
    alloc: Global,
    named: &Named,
    numbers: &[u32],
    order: &[PropId],
) -> Result<Option<Text>, NoMemory>
    requires numbers { numbers.now ≡ table (name_number named.now) (prop_count named.now) }
    requires within { All (IsPropOf named.now) order.now }
    ensures { IfOk result (λ o. o ≡ repeat_in [] (map (λ p. (prop_at named.now p).name) (prop_numbers order.now))) }
{
    let mut met = Vec::new(alloc);
    met.resize(numbers.len(), false)?;
    let marks = met.as_mut_slice();
    for p in order {
        let number = numbers[p.0 as usize] as usize;
        if marks[number] {
            return Ok(Some(named.prop(p.0).name.duplicate(alloc)?));
        }
        marks[number] = true;
    }
    Ok(None)
}

/// The literals of an enumeration.
fn literals_of<'a>(alloc: Global, literals: &'a [Text]) -> Result<Vec<&'a Text>, NoMemory>
    ensures { IfOk result (λ names. map (λ n. n.now) names.items ≡ literals.now) }
{
    let mut names = Vec::new(alloc);
    for literal in literals {
        names.push(literal)?;
    }
    Ok(names)
}

/// A name behind its outer name, if there is one.
fn in_outer(alloc: Global, outer: &Text, inner: Option<Text>) -> Result<Option<Text>, NoMemory>
    ensures { IfOk result (λ o. o ≡ faults.in_outer outer.now inner) }
{
    match inner {
        Some(inner) => Ok(Some(qualified(alloc, outer, &inner)?)),
        None => Ok(None),
    }
}

/// Whether no primitive and no earlier class has the name of the class.
fn is_new_class(named: &Named, c: u32) -> bool
    requires { c < class_count named.now }
    ensures { result ≡ faults.is_new_class named.now c }
{
    let name = named.class(c).name.as_str();
    !is_primitive(name) && is_number(named.class_number(name), c)
}

/// Whether no primitive, no class and no earlier enumeration has the name of the enumeration.
fn is_new_enum(named: &Named, e: u32) -> bool
    requires { e < enum_count named.now }
    ensures { result ≡ faults.is_new_enum named.now e }
{
    let name = named.enumeration(e).name.as_str();
    !is_primitive(name)
        && named.class_number(name).is_none()
        && is_number(named.enum_number(name), e)
}

/// The first name that stands twice at a class.
fn duplicate_in_class(
    alloc: Global,
    ordered: &Ordered,
    numbers: &[u32],
    c: u32,
) -> Result<Option<Text>, NoMemory>
    requires class { c < class_count ordered.now }
    requires numbers { numbers.now ≡ table (name_number ordered.now) (prop_count ordered.now) }
    ensures { IfOk result (λ o. o ≡ faults.duplicate_in_class ordered.now c) }
{
    let named = ordered.named();
    let outer = &named.class(c).name;
    if !is_new_class(named, c) {
        return Ok(Some(outer.duplicate(alloc)?));
    }
    let inner = first_shared(alloc, named, numbers, ordered.props(c))?;
    in_outer(alloc, outer, inner)
}

/// The first name that stands twice at an enumeration.
fn duplicate_in_enum(alloc: Global, named: &Named, e: u32) -> Result<Option<Text>, NoMemory>
    requires { e < enum_count named.now }
    ensures { IfOk result (λ o. o ≡ faults.duplicate_in_enum named.now e) }
{
    let one = named.enumeration(e);
    if !is_new_enum(named, e) {
        return Ok(Some(one.name.duplicate(alloc)?));
    }
    let names = literals_of(alloc, one.literals.as_slice())?;
    let inner = first_repeat(alloc, names.as_slice());
    drop(names);
    let inner = inner?;
    in_outer(alloc, &one.name, inner)
}

/// The first name that stands twice among the classes.
fn duplicate_in_classes(alloc: Global, ordered: &Ordered) -> Result<Option<Text>, NoMemory>
    ensures { IfOk result (λ o. o ≡ faults.first_of (faults.duplicate_in_class ordered.now) (range_with_len 0 (class_count ordered.now))) }
{
    let names = all_names(alloc, ordered.named())?;
    let numbers = name_numbers(alloc, ordered.named(), &names)?;
    for c in 0..ordered.named().class_count() {
        let found = duplicate_in_class(alloc, ordered, numbers.as_slice(), c)?;
        if found.is_some() {
            return Ok(found);
        }
    }
    Ok(None)
}

/// The first name that stands twice among the enumerations.
fn duplicate_in_enums(alloc: Global, named: &Named) -> Result<Option<Text>, NoMemory>
    ensures { IfOk result (λ o. o ≡ faults.first_of (faults.duplicate_in_enum named.now) (range_with_len 0 (enum_count named.now))) }
{
    for e in 0..named.enum_count() {
        let found = duplicate_in_enum(alloc, named, e)?;
        if found.is_some() {
            return Ok(found);
        }
    }
    Ok(None)
}

/// The first name of a description that stands twice.
pub(crate) fn first_duplicate(alloc: Global, ordered: &Ordered) -> Result<Option<Text>, NoMemory>
    ensures { IfOk result (λ o. o ≡ faults.first_duplicate ordered.now) }
{
    let found = duplicate_in_classes(alloc, ordered)?;
    if found.is_some() {
        return Ok(found);
    }
    duplicate_in_enums(alloc, ordered.named())
}
