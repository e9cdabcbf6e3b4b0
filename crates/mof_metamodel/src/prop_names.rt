//! The properties of classes by their names: for each name the classes that have a property of this name, and which.
ghost use Rattle.std.specs.Prelude.{◌≡◌, ◌<◌, length, map, IfOk, OnOk};
ghost use Rattle.mof_metamodel.specs.Metamodels.{class_count, prop_count, props_of, declared_props};
ghost use Rattle.mof_metamodel.specs.Tables.{name_number, table, Numbers, AddsEntries, AreHolders};

use crate::entries::{Entry, no_entries};
use crate::memory::NoMemory;
use crate::name_table::NameTable;
use crate::named::Named;
use crate::ordered::Ordered;
use crate::seq::Seq;
use std::alloc::Global;

/// The names of all properties.
pub(crate) fn all_names(alloc: Global, named: &Named) -> Result<NameTable<u32>, NoMemory>
    ensures { IfOk result (Numbers (λ d. d.1.name) (declared_props named.now)) }
{
    let mut names = NameTable::new(alloc);
    for p in 0..named.prop_count() {
        names.add(alloc, &named.prop(p).name, p)?;
    }
    Ok(names)
}

/// The number of the first property that has the name of a property.
fn number_of(names: &NameTable<u32>, named: &Named, p: u32) -> u32
    requires prop { p < prop_count named.now }
    requires names { Numbers (λ d. d.1.name) (declared_props named.now) names.now }
    ensures { result ≡ name_number named.now p }
{
    names.number(named.prop(p).name.as_str()).unwrap_or(p)
}

/// The same of each property: two of them have one name exactly where they have one number here.
pub(crate) fn name_numbers(
    alloc: Global,
    named: &Named,
    names: &NameTable<u32>,
) -> Result<Vec<u32>, NoMemory>
    requires { Numbers (λ d. d.1.name) (declared_props named.now) names.now }
    ensures { IfOk result (λ numbers. numbers.items ≡ table (name_number named.now) (prop_count named.now)) }
{
    let mut numbers = Vec::new(alloc);
    for p in 0..named.prop_count() {
        numbers.push(number_of(names, named, p))?;
    }
    Ok(numbers)
}

/// Adds the properties of a class, each to the list of its name.
fn add_props(
    holders: &mut [Seq<Entry>],
    ordered: &Ordered,
    numbers: &[u32],
    c: u32,
) -> Result<(), NoMemory>
    requires class { c < class_count ordered.now }
    requires numbers { numbers.now ≡ table (name_number ordered.now) (prop_count ordered.now) }
    requires rows { length holders.old ≡ prop_count ordered.now }
    ensures { OnOk result (AddsEntries holders.old holders.new (map (name_number ordered.now) (props_of ordered.now c)) (props_of ordered.now c) (length (props_of ordered.now c)) c) }
{
    for p in ordered.props(c) {
        let number = numbers[p.0 as usize] as usize;
        let entry = Entry {
            class: c,
            value: p.0,
        };
        holders[number].push(entry)?;
    }
    Ok(())
}

/// For the number of each name the classes that have a property of this name, ascending, each with the property.
pub(crate) fn all_holders(
    alloc: Global,
    ordered: &Ordered,
    names: &NameTable<u32>,
) -> Result<Vec<Seq<Entry>>, NoMemory>
    requires { Numbers (λ d. d.1.name) (declared_props ordered.now) names.now }
    ensures { IfOk result (λ holders. AreHolders ordered.now (class_count ordered.now) holders.items) }
{
    let named = ordered.named();
    let numbers = name_numbers(alloc, named, names)?;
    let mut holders = no_entries(alloc, named.prop_count())?;
    for c in 0..named.class_count() {
        add_props(holders.as_mut_slice(), ordered, numbers.as_slice(), c)?;
    }
    Ok(holders)
}
