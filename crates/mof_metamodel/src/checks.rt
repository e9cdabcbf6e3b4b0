//! The faults that a description shows by itself: its size, its names and its bounds.
ghost use Rattle.std.specs.Prelude.{◌≡◌, nat_le, length, sum_by, IfOk};
ghost use Rattle.mof_metamodel.specs.MetaFaults.{first_of, unless, qualified as qualified_text};
ghost use Rattle.mof_metamodel.specs.WellMeta.{is_name as name_text, is_prop_name as prop_name_text};
ghost use Rattle.mof_metamodel.specs.MetaFaults as faults;

use crate::desc::{ClassDesc, EnumDesc, MetaDesc, PropDesc};
use crate::limits::{MAX_CLASSES, MAX_ENUMS, MAX_LITERALS, MAX_PROPS};
use crate::memory::NoMemory;
use crate::names::{is_name, is_prop_name, qualified};
use crate::text::Text;
use std::alloc::Global;

/// Whether the classes have at most `MAX_PROPS` properties together.
fn has_few_props(classes: &[ClassDesc]) -> bool
    ensures { result ≡ nat_le (sum_by (λ c. length c.props) classes.now) MAX_PROPS }
{
    let mut count = 0usize;
    for class in classes {
        let more = class.props.len();
        if more > MAX_PROPS - count {
            return false;
        }
        count += more;
    }
    true
}

/// Whether the enumerations have at most `MAX_LITERALS` literals together.
fn has_few_literals(enums: &[EnumDesc]) -> bool
    ensures { result ≡ nat_le (sum_by (λ e. length e.literals) enums.now) MAX_LITERALS }
{
    let mut count = 0usize;
    for one in enums {
        let more = one.literals.len();
        if more > MAX_LITERALS - count {
            return false;
        }
        count += more;
    }
    true
}

/// Whether a description has no more classes, enumerations, properties and literals than a metamodel may have.
pub(crate) fn is_within_limits(desc: &MetaDesc) -> bool
    ensures { result ≡ faults.is_within_limits desc.now }
{
    desc.classes.len() <= MAX_CLASSES
        && desc.enums.len() <= MAX_ENUMS
        && has_few_props(desc.classes.as_slice())
        && has_few_literals(desc.enums.as_slice())
}

/// The first property of a class whose name is wrong.
fn bad_prop_name(alloc: Global, outer: &Text, props: &[PropDesc]) -> Result<Option<Text>, NoMemory>
    ensures { IfOk result (λ o. o ≡ first_of (λ p. unless (prop_name_text p.name) (qualified_text outer.now p.name)) props.now) }
{
    for prop in props {
        if !is_prop_name(&prop.name) {
            return Ok(Some(qualified(alloc, outer, &prop.name)?));
        }
    }
    Ok(None)
}

/// The first literal of an enumeration that is wrong.
fn bad_literal(alloc: Global, outer: &Text, literals: &[Text]) -> Result<Option<Text>, NoMemory>
    ensures { IfOk result (λ o. o ≡ first_of (λ l. unless (name_text l) (qualified_text outer.now l)) literals.now) }
{
    for literal in literals {
        if !is_name(literal) {
            return Ok(Some(qualified(alloc, outer, literal)?));
        }
    }
    Ok(None)
}

/// The first wrong name of a class.
fn bad_name_in_class(alloc: Global, class: &ClassDesc) -> Result<Option<Text>, NoMemory>
    ensures { IfOk result (λ o. o ≡ faults.bad_name_in_class class.now) }
{
    if !is_name(&class.name) {
        return Ok(Some(class.name.duplicate(alloc)?));
    }
    bad_prop_name(alloc, &class.name, class.props.as_slice())
}

/// The first wrong name of an enumeration.
fn bad_name_in_enum(alloc: Global, one: &EnumDesc) -> Result<Option<Text>, NoMemory>
    ensures { IfOk result (λ o. o ≡ faults.bad_name_in_enum one.now) }
{
    if !is_name(&one.name) {
        return Ok(Some(one.name.duplicate(alloc)?));
    }
    bad_literal(alloc, &one.name, one.literals.as_slice())
}

/// The first wrong name of the classes.
fn bad_name_in_classes(alloc: Global, classes: &[ClassDesc]) -> Result<Option<Text>, NoMemory>
    ensures { IfOk result (λ o. o ≡ first_of faults.bad_name_in_class classes.now) }
{
    for class in classes {
        let found = bad_name_in_class(alloc, class)?;
        if found.is_some() {
            return Ok(found);
        }
    }
    Ok(None)
}

/// The first wrong name of the enumerations.
fn bad_name_in_enums(alloc: Global, enums: &[EnumDesc]) -> Result<Option<Text>, NoMemory>
    ensures { IfOk result (λ o. o ≡ first_of faults.bad_name_in_enum enums.now) }
{
    for one in enums {
        let found = bad_name_in_enum(alloc, one)?;
        if found.is_some() {
            return Ok(found);
        }
    }
    Ok(None)
}

/// The first wrong name of a description.
pub(crate) fn first_bad_name(alloc: Global, desc: &MetaDesc) -> Result<Option<Text>, NoMemory>
    ensures { IfOk result (λ o. o ≡ faults.first_bad_name desc.now) }
{
    if !is_name(&desc.name) {
        return Ok(Some(desc.name.duplicate(alloc)?));
    }
    let found = bad_name_in_classes(alloc, desc.classes.as_slice())?;
    if found.is_some() {
        return Ok(found);
    }
    bad_name_in_enums(alloc, desc.enums.as_slice())
}

/// Whether the lower bound is at most the upper, and the upper isn't 0.
fn has_bounds(lower: u32, upper: Option<u32>) -> bool
    ensures { result ≡ faults.has_bounds lower upper }
{
    match upper {
        None => true,
        Some(upper) => lower <= upper && upper != 0,
    }
}

/// The first property of a class whose bounds are wrong.
fn bad_bounds_in_class(alloc: Global, class: &ClassDesc) -> Result<Option<Text>, NoMemory>
    ensures { IfOk result (λ o. o ≡ faults.bad_bounds_in_class class.now) }
{
    for prop in class.props.as_slice() {
        if !has_bounds(prop.lower, prop.upper) {
            return Ok(Some(qualified(alloc, &class.name, &prop.name)?));
        }
    }
    Ok(None)
}

/// The first property of a description whose bounds are wrong.
pub(crate) fn first_bad_bounds(
    alloc: Global,
    classes: &[ClassDesc],
) -> Result<Option<Text>, NoMemory>
    ensures { IfOk result (λ o. o ≡ first_of faults.bad_bounds_in_class classes.now) }
{
    for class in classes {
        let found = bad_bounds_in_class(alloc, class)?;
        if found.is_some() {
            return Ok(found);
        }
    }
    Ok(None)
}
