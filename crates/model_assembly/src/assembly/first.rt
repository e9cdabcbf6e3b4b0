ghost use Rattle.std.specs.Prelude.{◌≡◌, ◌≢◌, ◌<◌, ◌↔◌, length, not, All, HoldsAt, IfOk, IsTrue, MatchOption, None, Some, slice_get, take, true, false};
ghost use Rattle.std.specs.List.{list_any};
ghost use Rattle.mof_metamodel.specs.declared.desc.PropType.TheVariants as types;
ghost use Rattle.mof_metamodel.specs.Metamodels.{class_count, prop_count, prop_at, type_of};
ghost use Rattle.model_assembly.specs.AssemblyFirsts as firsts;
ghost use Rattle.model_assembly.specs.AssemblyFirsts.{conforms_to};
ghost use Rattle.model_assembly.specs.AssemblyNamings.{IsFirstPlace, IsSecondWhole, part_of};

use super::entry::Entry;
use super::met::Met;
use super::naming::{Naming, Saying, key_of, with_sayings};
use mof_metamodel::{ClassId, MetaModel, NoMemory, PropId, PropType};
use std::alloc::Global;

/// Whether a class conforms to another.
pub fn conforms_to(meta: &MetaModel, class: ClassId, d: ClassId) -> bool
    requires { class.0 < class_count meta.now }
    ensures { result ≡ conforms_to meta.now class.0 (Some (types.Class d)) }
{
    meta.conforms(class, d)
}

/// Whether a class conforms to the type of a property.
fn is_of_type(meta: &MetaModel, class: ClassId, property: PropId) -> bool
    requires class { class.0 < class_count meta.now }
    requires within { property.0 < prop_count meta.now }
    ensures { result ≡ conforms_to meta.now class.0 (type_of meta.now property.0) }
{
    match meta.prop(property).ty {
        PropType::Class(d) => conforms_to(meta, class, d),
        _ => false,
    }
}

/// Whether what is named isn't an object of the property's type.
fn is_dangling(meta: &MetaModel, classes: &[ClassId], entry: Entry) -> bool
    requires known { All (λ c. c.0 < class_count meta.now) classes.now }
    requires within { entry.property.0 < prop_count meta.now }
    ensures { result ≡ firsts.is_dangling meta.now classes.now entry }
{
    match entry.target {
        Some(target) => match classes.get(target as usize) {
            Some(class) => !is_of_type(meta, *class, entry.property),
            None => true,
        },
        None => true,
    }
}

/// The first entry that names no object of the property's type.
pub(super) fn first_dangling(
    meta: &MetaModel,
    classes: &[ClassId],
    entries: &[Entry],
) -> Option<usize>
    requires known { All (λ c. c.0 < class_count meta.now) classes.now }
    requires within { All (λ e. e.property.0 < prop_count meta.now) entries.now }
    ensures { firsts.IsFirstDangling meta.now classes.now entries.now result }
{
    for (i, entry) in entries.iter().enumerate() {
        if is_dangling(meta, classes, *entry) {
            return Some(i);
        }
    }
    None
}

/// That an object is a part of another one, by a composite property.
#[derive(Clone, Copy, PartialEq, Eq)]
pub(super) struct Part {
    pub(super) part: u32,
    pub(super) whole: u32,
    pub(super) property: u32,
}

fn is_composite(meta: &MetaModel, p: u32) -> bool
    requires { p < prop_count meta.now }
    ensures { result ≡ (prop_at meta.now p).composite }
{
    meta.prop(PropId(p)).composite
}

/// What a naming makes a part of what.
pub(super) fn part_of(meta: &MetaModel, naming: Naming) -> Option<Part>
    requires { naming.property < prop_count meta.now }
    ensures { result ≡ part_of meta.now naming }
{
    if is_composite(meta, naming.property) {
        return Some(Part {
            part: naming.target,
            whole: naming.object,
            property: naming.property,
        });
    }
    match meta.opposite(PropId(naming.property)) {
        Some(q) if is_composite(meta, q.0) => Some(Part {
            part: naming.object,
            whole: naming.target,
            property: q.0,
        }),
        _ => None,
    }
}

/// Puts down what makes an object a part, and says whether it contradicts what was put down.
fn contradicts(parts: &mut [Option<Part>], part: Part) -> bool
    requires { part.part < length parts.old }
    ensures result { result ≡ firsts.is_contradicted parts.old part }
    ensures parts { parts.new ≡ firsts.with_part parts.old part }
{
    match parts[part.part as usize] {
        Some(other) => other != part,
        None => {
            parts[part.part as usize] = Some(part);
            false
        }
    }
}

/// The same of a naming, if it makes an object a part.
fn contradicts_by(meta: &MetaModel, parts: &mut [Option<Part>], naming: Naming) -> bool
    requires within { naming.property < prop_count meta.now }
    requires object { naming.object < length parts.old }
    requires target { naming.target < length parts.old }
    ensures result { result ≡ firsts.is_contradicted_by meta.now parts.old naming }
    ensures parts { parts.new ≡ firsts.with_naming meta.now parts.old naming }
{
    match part_of(meta, naming) {
        Some(part) => contradicts(parts, part),
        None => false,
    }
}

/// The first naming that makes an object a part of another one, or by another property, than an earlier one.
pub(super) fn first_second_whole(
    alloc: Global,
    meta: &MetaModel,
    count: usize,
    namings: &[Naming],
) -> Result<Option<usize>, NoMemory>
    requires within { All (λ n. n.property < prop_count meta.now) namings.now }
    requires object { All (λ n. n.object < count) namings.now }
    requires target { All (λ n. n.target < count) namings.now }
    ensures { IfOk result (IsFirstPlace (IsSecondWhole meta.now namings.now) (length namings.now)) }
{
    let mut all = Vec::new(alloc);
    all.resize(count, None)?;
    let parts = all.as_mut_slice();
    for (i, naming) in namings.iter().enumerate() {
        if contradicts_by(meta, parts, *naming) {
            return Ok(Some(i));
        }
    }
    Ok(None)
}

/// Which objects name which, and where they speak.
#[derive(Drop)]
pub(super) struct Ends {
    namings: Met<Naming>,
    sayings: Met<Saying>,
}

/// Whether the object that is named speaks at the opposite, and doesn't name the one that names it.
fn is_unanswered(meta: &MetaModel, ends: &Ends, naming: Naming) -> bool
    requires { naming.property < prop_count meta.now }
    ensures { result ≡ firsts.is_unanswered meta.now ends.now.namings.set.keys ends.now.sayings.set.keys naming }
{
    match meta.opposite(PropId(naming.property)) {
        Some(q) => {
            let back = Naming {
                object: naming.target,
                property: q.0,
                target: naming.object,
            };
            let said = Saying {
                object: naming.target,
                property: q.0,
            };
            ends.sayings.has(&said) && !ends.namings.has(&back)
        }
        None => false,
    }
}

/// The first naming that is unanswered. `sayings` are all places at which objects speak.
pub(super) fn first_unanswered(
    alloc: Global,
    meta: &MetaModel,
    namings: &[Naming],
    sayings: &[Saying],
) -> Result<Option<usize>, NoMemory>
    requires within { All (λ n. n.property < prop_count meta.now) namings.now }
    ensures { IfOk result (λ i. firsts.IsFirstUnanswered meta.now namings.now sayings.now i) }
{
    let after = with_sayings(key_of(namings), sayings);
    let ends = Ends {
        namings: Met::all_of(alloc, after, namings)?,
        sayings: Met::all_of(alloc, after, sayings)?,
    };
    for (i, naming) in namings.iter().enumerate() {
        if is_unanswered(meta, &ends, *naming) {
            return Ok(Some(i));
        }
    }
    Ok(None)
}
