ghost use Rattle.std.specs.Prelude.{◌≡◌, ◌++◌, map, All, IfOk, IsSome, OnOk};
ghost use Rattle.model_assembly.specs.AssemblyNamings as words;

use super::entry::Entry;
use crate::filed::Mention;
use mof_metamodel::NoMemory;
use object_tables::HashKey;
use std::alloc::Global;

/// An object that names another one at a reference, by the numbers of the three.
#[derive(Clone, Copy, PartialEq, Eq, Hash)]
pub(super) struct Naming {
    pub(super) object: u32,
    pub(super) property: u32,
    pub(super) target: u32,
}

/// A reference at which an object speaks.
#[derive(Clone, Copy, PartialEq, Eq, Hash)]
pub(super) struct Saying {
    pub(super) object: u32,
    pub(super) property: u32,
}

/// What the pairs of a file are hashed after: all of them, so that none can be made that collide.
pub(super) fn key_of(namings: &[Naming]) -> HashKey {
    let mut key = HashKey::none();
    for naming in namings {
        key = key
            .after(&naming.object.to_le_bytes())
            .after(&naming.property.to_le_bytes())
            .after(&naming.target.to_le_bytes());
    }
    key
}

/// The same with where objects speak.
pub(super) fn with_sayings(key: HashKey, sayings: &[Saying]) -> HashKey {
    let mut key = key;
    for saying in sayings {
        key = key
            .after(&saying.object.to_le_bytes())
            .after(&saying.property.to_le_bytes());
    }
    key
}

/// What an entry names.
fn naming_of(entry: Entry) -> Naming
    requires { IsSome entry.target }
    ensures { result ≡ words.naming_of entry }
{
    match entry.target {
        Some(target) => Naming {
            object: entry.object,
            property: entry.property.0,
            target,
        },
        None => unreachable!(),
    }
}

/// What each entry names.
pub(super) fn namings_of(alloc: Global, entries: &[Entry]) -> Result<Vec<Naming>, NoMemory>
    requires { All (λ e. IsSome e.target) entries.now }
    ensures { IfOk result (λ v. v.items ≡ map words.naming_of entries.now) }
{
    let mut namings = Vec::new(alloc);
    for entry in entries {
        namings.push(naming_of(*entry))?;
    }
    Ok(namings)
}

/// Where each naming stands.
fn said(alloc: Global, namings: &[Naming]) -> Result<Vec<Saying>, NoMemory>
    ensures { IfOk result (λ v. v.items ≡ map words.saying_of namings.now) }
{
    let mut sayings = Vec::new(alloc);
    for naming in namings {
        sayings.push(Saying {
            object: naming.object,
            property: naming.property,
        })?;
    }
    Ok(sayings)
}

/// Adds where objects are mentioned.
fn add_mentions(sayings: &mut Vec<Saying>, mentions: &[Mention]) -> Result<(), NoMemory>
    ensures { OnOk result (sayings.new.items ≡ sayings.old.items ++ map words.saying_of_mention mentions.now) }
{
    for mention in mentions {
        sayings.push(Saying {
            object: mention.object,
            property: mention.property.0,
        })?;
    }
    Ok(())
}

/// The references at which objects speak.
pub(super) fn sayings_of(
    alloc: Global,
    namings: &[Naming],
    mentions: &[Mention],
) -> Result<Vec<Saying>, NoMemory>
    ensures { IfOk result (λ v. v.items ≡ words.sayings_of namings.now mentions.now) }
{
    let mut sayings = said(alloc, namings)?;
    add_mentions(&mut sayings, mentions)?;
    Ok(sayings)
}
