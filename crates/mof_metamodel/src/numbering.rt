//! The tables of a description's names and of the places of its properties.
ghost use Rattle.std.specs.Prelude.{◌≡◌, ◌<◌, ◌^◌, ◌++◌, length, map, All, IsTrue, IfOk, OnOk};
ghost use Rattle.std.specs.List.{range_with_len};
ghost use Rattle.mof_metamodel.specs.Metamodels.{class_count, first_own, declared_props};
ghost use Rattle.mof_metamodel.specs.MetaFaults.{is_within_limits};
ghost use Rattle.mof_metamodel.specs.Tables.{Numbers, OwnNames, LiteralNames, IsPlace, table, placed, place_in};

use crate::desc::{ClassDesc, EnumDesc, MetaDesc, PropDesc};
use crate::memory::NoMemory;
use crate::name_table::NameTable;
use crate::named::Place;
use crate::text::Text;
use std::alloc::Global;

/// The names of classes.
pub(crate) fn class_names(alloc: Global, classes: &[ClassDesc]) -> Result<NameTable<u32>, NoMemory>
    requires { length classes.now < 2 ^ 32 }
    ensures { IfOk result (Numbers (λ c. c.name) classes.now) }
{
    let mut names = NameTable::new(alloc);
    for (i, class) in classes.iter().enumerate() {
        names.add(alloc, &class.name, i as u32)?;
    }
    Ok(names)
}

/// The names of enumerations.
pub(crate) fn enum_names(alloc: Global, enums: &[EnumDesc]) -> Result<NameTable<u32>, NoMemory>
    requires { length enums.now < 2 ^ 32 }
    ensures { IfOk result (Numbers (λ e. e.name) enums.now) }
{
    let mut names = NameTable::new(alloc);
    for (i, one) in enums.iter().enumerate() {
        names.add(alloc, &one.name, i as u32)?;
    }
    Ok(names)
}

/// The names of the properties that a class owns.
fn prop_names(alloc: Global, props: &[PropDesc]) -> Result<NameTable<u32>, NoMemory>
    requires { length props.now < 2 ^ 32 }
    ensures { IfOk result (Numbers (λ p. p.name) props.now) }
{
    let mut names = NameTable::new(alloc);
    for (i, prop) in props.iter().enumerate() {
        names.add(alloc, &prop.name, i as u32)?;
    }
    Ok(names)
}

/// For each class the names of the properties that it owns.
pub(crate) fn own_names(alloc: Global, desc: &MetaDesc) -> Result<Vec<NameTable<u32>>, NoMemory>
    requires { IsTrue (is_within_limits desc.now) }
    ensures { IfOk result (λ own. OwnNames desc.now own.items) }
{
    let mut own = Vec::new(alloc);
    for class in desc.classes.as_slice() {
        let names = prop_names(alloc, class.props.as_slice())?;
        own.push(names)?;
    }
    Ok(own)
}

/// The names of an enumeration's literals.
fn names_of_literals(alloc: Global, literals: &[Text]) -> Result<NameTable<u32>, NoMemory>
    requires { length literals.now < 2 ^ 32 }
    ensures { IfOk result (Numbers (λ l. l) literals.now) }
{
    let mut names = NameTable::new(alloc);
    for (i, literal) in literals.iter().enumerate() {
        names.add(alloc, literal, i as u32)?;
    }
    Ok(names)
}

/// For each enumeration the names of its literals.
pub(crate) fn literal_names(alloc: Global, desc: &MetaDesc) -> Result<Vec<NameTable<u32>>, NoMemory>
    requires { IsTrue (is_within_limits desc.now) }
    ensures { IfOk result (λ literals. LiteralNames desc.now literals.items) }
{
    let mut literals = Vec::new(alloc);
    for one in desc.enums.as_slice() {
        let names = names_of_literals(alloc, one.literals.as_slice())?;
        literals.push(names)?;
    }
    Ok(literals)
}

/// For each class the number of the first property that it owns.
pub(crate) fn first_numbers(alloc: Global, desc: &MetaDesc) -> Result<Vec<u32>, NoMemory>
    requires { IsTrue (is_within_limits desc.now) }
    ensures { IfOk result (λ firsts. firsts.items ≡ table (first_own desc.now) (class_count desc.now)) }
{
    let mut firsts = Vec::new(alloc);
    let mut next = 0u32;
    for class in desc.classes.as_slice() {
        firsts.push(next)?;
        next += class.props.len() as u32;
    }
    Ok(firsts)
}

/// The places of the properties that a class owns, behind those of the classes before it.
fn add_places(places: &mut Vec<Place>, class: u32, count: u32) -> Result<(), NoMemory>
    ensures { OnOk result (places.new.items ≡ places.old.items ++ map (place_in class) (range_with_len 0 count)) }
{
    for index in 0..count {
        places.push(Place { class, index })?;
    }
    Ok(())
}

/// The places of all properties.
pub(crate) fn prop_places(alloc: Global, desc: &MetaDesc) -> Result<Vec<Place>, NoMemory>
    requires { IsTrue (is_within_limits desc.now) }
    ensures placed { IfOk result (λ places. map (placed desc.now) places.items ≡ declared_props desc.now) }
    ensures within { IfOk result (λ places. All (IsPlace desc.now) places.items) }
{
    let mut places = Vec::new(alloc);
    for (c, class) in desc.classes.as_slice().iter().enumerate() {
        add_places(&mut places, c as u32, class.props.len() as u32)?;
    }
    Ok(places)
}
