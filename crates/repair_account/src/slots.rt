//! What all objects of the repaired model hold, found once, and their containers.
use crate::contents::{Made, contents};
use crate::told::Told;
use mof_metamodel::{ClassId, MetaModel, NoMemory, PropId};
use qvtr_semantics::Datum;

/// What an object holds at a property.
#[derive(Drop)]
pub struct Slot {
    pub prop: PropId,
    pub held: Vec<Datum>,
}

/// The slots of each object by its number, none of one that is gone, and its container.
#[derive(Drop)]
pub struct Slots {
    slots: Vec<Vec<Slot>>,
    containers: Vec<Option<u32>>,
}

/// The properties of a class.
fn props_of(meta: &MetaModel, class: ClassId) -> &[PropId] {
    if class.0 < meta.class_count() {
        meta.props(class)
    } else {
        &[]
    }
}

fn slots_of(
    told: &Told<'_, '_>,
    meta: &MetaModel,
    made: &Made,
    object: u32,
) -> Result<Vec<Slot>, NoMemory> {
    let mut slots = Vec::new(told.alloc);
    if let Some(class) = made.class_of(object) {
        for prop in props_of(meta, class) {
            let held = contents(told, made, object, *prop)?;
            slots.push(Slot { prop: *prop, held })?;
        }
    }
    Ok(slots)
}

fn all_slots(
    told: &Told<'_, '_>,
    meta: &MetaModel,
    made: &Made,
) -> Result<Vec<Vec<Slot>>, NoMemory> {
    let mut all = Vec::new(told.alloc);
    for object in 0..made.count {
        all.push(slots_of(told, meta, made, object)?)?;
    }
    Ok(all)
}

/// Puts down that the whole contains what it holds.
fn put_parts(target: u32, whole: u32, held: &[Datum], containers: &mut [Option<u32>]) {
    for datum in held {
        if let Datum::Obj(model, part) = datum {
            if *model == target {
                if let Some(place) = containers.get_mut(part.0 as usize) {
                    *place = Some(whole);
                }
            }
        }
    }
}

impl Slots {
    /// The slots of the repaired model.
    pub fn new(told: &Told<'_, '_>, meta: &MetaModel, made: &Made) -> Result<Slots, NoMemory> {
        let slots = all_slots(told, meta, made)?;
        let containers = Vec::from_elem(told.alloc, None, made.count as usize)?;
        let mut slots = Slots { slots, containers };
        for whole in 0..made.count {
            slots.contain(told, made, whole);
        }
        Ok(slots)
    }

    /// Puts down the parts of an object.
    fn contain(&mut self, told: &Told<'_, '_>, made: &Made, whole: u32) {
        if let Some(own) = self.slots.get(whole as usize) {
            for slot in own {
                if made.facts.is_composite(slot.prop) {
                    put_parts(
                        told.program.target,
                        whole,
                        slot.held.as_slice(),
                        self.containers.as_mut_slice(),
                    );
                }
            }
        }
    }

    /// The slots of an object, in the order of the properties of its class.
    pub fn of(&self, object: u32) -> &[Slot] {
        match self.slots.get(object as usize) {
            Some(own) => own.as_slice(),
            None => &[],
        }
    }

    /// The container of an object.
    pub fn container(&self, object: u32) -> Option<u32> {
        match self.containers.get(object as usize) {
            Some(container) => *container,
            None => None,
        }
    }
}
