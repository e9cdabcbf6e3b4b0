//! The keys of the target's classes, to be looked up.
ghost use Rattle.std.specs.Prelude.{◌≡◌, ◌<◌, List, None, length, replicate, Contains, IfOk};
ghost use Rattle.mof_metamodel.specs.Metamodels.{class_count};
ghost use Rattle.qv_syntax.specs.declared.program.Key.{Key};
ghost use Rattle.repair_semantics.specs.TargetItems.{target_meta_number};
ghost use Rattle.demand_trace.specs.Naming.{with_first, with_key, with_keys, HasPlace, AreKeyPlaces};

use mof_metamodel::{MetaModel, NoMemory};
use qv_syntax::{Key, Program};
use std::alloc::Global;

/// Gives the class a place, if it has none yet.
fn put_first(class: u32, place: usize, table: &mut [Option<usize>])
    requires { class < length table.old }
    ensures { table.new ≡ with_first class place table.old }
{
    if table[class as usize].is_some() {
        return;
    }
    table[class as usize] = Some(place);
}

/// Gives the class of a key its place, if the key is one of the metamodel of this number.
fn put_key(number: u32, place: usize, key: &Key, table: &mut [Option<usize>])
    requires { HasPlace number (length table.old) key.now }
    ensures { table.new ≡ with_key number place key.now table.old }
{
    if key.meta == number {
        put_first(key.class.0, place, table);
    }
}

/// The same of all keys.
fn put_keys(number: u32, keys: &[Key], table: &mut [Option<usize>])
    requires { (key : Key) → Contains keys.now key → HasPlace number (length table.old) key }
    ensures { table.new ≡ with_keys number 0 keys.now table.old }
{
    for place in 0..keys.len() {
        put_key(number, place, &keys[place], table);
    }
}

/// No place, for each of so many classes.
fn no_places(alloc: Global, count: u32) -> Result<Vec<Option<usize>>, NoMemory>
    ensures { IfOk result (λ table. table.items ≡ replicate count None) }
{
    let mut table = Vec::new(alloc);
    for _i in 0..count {
        table.push(None)?;
    }
    Ok(table)
}

/// The number of the metamodel of the target model.
fn target_number(program: &Program) -> u32
    ensures { result ≡ target_meta_number program.now }
{
    match program.models.as_slice().get(program.target as usize) {
        Some(slot) => slot.meta,
        None => 0,
    }
}

/// For each class of the target's metamodel the place of its key among the keys of the program.
pub(crate) fn key_places(
    alloc: Global,
    program: &Program,
    target: &MetaModel,
) -> Result<Vec<Option<usize>>, NoMemory>
    requires { (key : Key) → Contains program.now.keys key → HasPlace (target_meta_number program.now) (class_count target.now) key }
    ensures { IfOk result (λ table. AreKeyPlaces program.now table.items) }
{
    let mut table = no_places(alloc, target.class_count())?;
    put_keys(
        target_number(program),
        program.keys.as_slice(),
        table.as_mut_slice(),
    );
    Ok(table)
}
