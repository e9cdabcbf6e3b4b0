//! What stands against the repaired model.
use crate::contents::Made;
use crate::slots::{Slot, Slots};
use mof_metamodel::PropId;
use object_tables::{BreachKind, LimitKind, MAX_DEPTH, MAX_OBJECTS};

/// A limit that is passed, or a rule that an object breaks, with the property of a bound.
#[derive(Clone, Copy)]
pub enum Against {
    Limit(LimitKind),
    Invalid(BreachKind, u32, Option<PropId>),
}

/// What is wrong with the number of elements of a slot.
fn bound_broken(made: &Made, slot: &Slot) -> Option<BreachKind> {
    let facts = made.facts.get(slot.prop)?;
    if slot.held.len() < facts.lower as usize {
        return Some(BreachKind::Lower);
    }
    match facts.upper {
        Some(upper) if slot.held.len() > upper as usize => Some(BreachKind::Upper),
        _ => None,
    }
}

/// The first broken bound of an object.
fn broken_bound_of(made: &Made, slots: &Slots, object: u32) -> Option<Against> {
    for slot in slots.of(object) {
        if let Some(kind) = bound_broken(made, slot) {
            return Some(Against::Invalid(kind, object, Some(slot.prop)));
        }
    }
    None
}

fn broken_bound(made: &Made, slots: &Slots) -> Option<Against> {
    for object in 0..made.count {
        if let Some(against) = broken_bound_of(made, slots, object) {
            return Some(against);
        }
    }
    None
}

/// Whether an object lies on a cycle of containers.
fn is_on_cycle(made: &Made, slots: &Slots, object: u32) -> bool {
    let mut at = slots.container(object);
    for _ in 0..made.count {
        match at {
            Some(here) if here == object => return true,
            Some(here) => at = slots.container(here),
            None => return false,
        }
    }
    false
}

fn cycle(made: &Made, slots: &Slots) -> Option<Against> {
    for object in 0..made.count {
        if is_on_cycle(made, slots, object) {
            return Some(Against::Invalid(BreachKind::ContainmentCycle, object, None));
        }
    }
    None
}

/// Whether there are as many containers above an object as an object may have depth.
fn is_too_deep(slots: &Slots, object: u32) -> bool {
    let mut at = object;
    for _ in 0..MAX_DEPTH {
        match slots.container(at) {
            Some(container) => at = container,
            None => return false,
        }
    }
    true
}

fn has_too_deep(made: &Made, slots: &Slots) -> bool {
    for object in 0..made.count {
        if is_too_deep(slots, object) {
            return true;
        }
    }
    false
}

fn has_too_many(made: &Made) -> bool {
    let mut count = 0u32;
    for object in 0..made.count {
        if made.class_of(object).is_some() {
            count = count.saturating_add(1);
        }
    }
    count > MAX_OBJECTS
}

/// The first of what stands against the model: too many objects, a broken bound, a cycle of containers, an object that is too deep.
pub fn first_against(made: &Made, slots: &Slots) -> Option<Against> {
    if has_too_many(made) {
        return Some(Against::Limit(LimitKind::Objects));
    }
    match broken_bound(made, slots) {
        Some(against) => Some(against),
        None => match cycle(made, slots) {
            Some(against) => Some(against),
            None if has_too_deep(made, slots) => Some(Against::Limit(LimitKind::Depth)),
            None => None,
        },
    }
}
