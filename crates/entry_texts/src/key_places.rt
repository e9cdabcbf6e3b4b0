//! The keys of the target's classes, to be looked up.
ghost use Rattle.std.specs.Prelude.{◌≡◌, IfOk, OnOk};
ghost use Rattle.repair_semantics.specs.TargetItems.{is_key_of, target_meta_number};
ghost use Rattle.entry_texts.specs.Naming.{PutsPlace, PutsKey, ArePlaces};

use mof_metamodel::NoMemory;
use qv_syntax::{Key, Program};
use std::alloc::Global;
use std::collections::BTreeMap;

/// The number of the metamodel of the target model.
fn target_number(program: &Program) -> u32
    ensures { result ≡ target_meta_number program.now }
{
    match program.models.as_slice().get(program.target as usize) {
        Some(slot) => slot.meta,
        None => 0,
    }
}

/// Puts a place behind a class that has none yet.
fn put_place(places: &mut BTreeMap<u32, usize>, class: u32, place: usize) -> Result<(), NoMemory>
    ensures { OnOk result (PutsPlace class place places.old places.new) }
{
    if places.contains_key(&class) {
        return Ok(());
    }
    places.insert(class, place)?;
    Ok(())
}

/// Puts the place of a key behind its class, if the key is one of the metamodel of this number and the class has none yet.
fn put_key(
    places: &mut BTreeMap<u32, usize>,
    number: u32,
    key: &Key,
    place: usize,
) -> Result<(), NoMemory>
    ensures { OnOk result (PutsKey number key.now place places.old places.new) }
{
    if key.meta == number {
        put_place(places, key.class.0, place)
    } else {
        Ok(())
    }
}

/// For each class of the target the place of its key among the keys of the program.
pub(crate) fn key_places(alloc: Global, program: &Program) -> Result<BTreeMap<u32, usize>, NoMemory>
    ensures { IfOk result (ArePlaces program.now program.now.keys) }
{
    let number = target_number(program);
    let mut places = BTreeMap::new(alloc);
    for (place, key) in program.keys.as_slice().iter().enumerate() {
        put_key(&mut places, number, key, place)?;
    }
    Ok(places)
}
