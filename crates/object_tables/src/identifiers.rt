ghost use Rattle.std.specs.Prelude.{◌≡◌, ◌↔◌, ℕ, IsTrue, IfSome, IfNone, IfOk, OnOk, Some, All, List, chars, nat_eq};
ghost use Rattle.std.specs.HashMap.{get};
ghost use Rattle.object_tables.specs.Identifiers.{HasIdentifier, Finds, IsTaken, KeepsFinding};
ghost use Rattle.object_tables.specs.Keys.{hash_after};

use crate::keys::HashKey;
use crate::tables::Tables;
use mof_metamodel::{NoMemory, or_drop};
use std::alloc::{AllocError, Global};
use std::collections::HashMap;

/// Which objects to look at for an identifier, by its hash; the identifiers themselves stand in the tables of
/// the objects. Each hash has one object, its first. Those that came while the first of their hash was a live
/// object are looked at for every identifier that its own first doesn't have: there are none but by two
/// hashes of 64 bits that are equal, or by an object that wasn't added for want of memory. The number of an
/// object that is gone stays until another object has its hash.
#[derive(Drop)]
pub(crate) struct Identifiers {
    key: HashKey,
    first: HashMap<u64, u32>,
    others: Vec<u32>,
}

impl Identifiers {
    /// Of no object. It takes no memory.
    pub(crate) fn new(alloc: Global, key: HashKey) -> Identifiers {
        Identifiers {
            key,
            first: HashMap::new(alloc),
            others: Vec::new(alloc),
        }
    }

    /// The object of the tables that has the identifier.
    pub(crate) fn find(&self, tables: &Tables, id: &str) -> Option<u32>
        ensures found { IfSome result (λ o. HasIdentifier tables.now o (chars id.now)) }
        ensures none { IfNone result ((o : ℕ) → Finds self.now id.now o → ¬ HasIdentifier tables.now o (chars id.now)) }
    {
        match self.find_first(tables, id) {
            Some(o) => Some(o),
            None => find_among(tables, self.others.as_slice(), id),
        }
    }

    /// The first object of the identifier's hash, if it has the identifier.
    fn find_first(&self, tables: &Tables, id: &str) -> Option<u32>
        ensures found { IfSome result (λ o. HasIdentifier tables.now o (chars id.now)) }
        ensures none { IfNone result ((o : ℕ) → get nat_eq self.now.first (hash_after self.now.key id.now) ≡ Some o → ¬ HasIdentifier tables.now o (chars id.now)) }
    {
        match self.first.get(&self.key.hash_of(id)) {
            Some(o) => if has_identifier(tables, *o, id) {
                Some(*o)
            } else {
                None
            },
            None => None,
        }
    }

    /// Whether a live object is the first of a hash.
    fn is_taken(&self, tables: &Tables, hash: u64) -> bool
        ensures { IsTrue result ↔ IsTaken self.now tables.now hash }
    {
        match self.first.get(&hash) {
            Some(o) => tables.named(*o).is_some(),
            None => false,
        }
    }

    /// Enters an object by its identifier. Without memory the live objects are found as before.
    pub(crate) fn enter(&mut self, tables: &Tables, id: &str, o: u32) -> Result<(), AllocError>
        ensures found { OnOk result (Finds self.new id.now o) }
        ensures kept { KeepsFinding tables.now self.old self.new }
    {
        let hash = self.key.hash_of(id);
        if self.is_taken(tables, hash) {
            self.others.push(o)?;
        } else {
            self.first.insert(hash, o)?;
        }
        Ok(())
    }

    /// A copy. In time linear in the objects that were entered.
    pub(crate) fn duplicate(&self, alloc: Global) -> Result<Identifiers, NoMemory>
        ensures { IfOk result (λ copy. (bytes : List ℕ) (o : ℕ) → Finds self.now bytes o → Finds copy bytes o) }
    {
        let first = self.first.clone()?;
        let others = or_drop!(Vec::from_slice(alloc, self.others.as_slice()); first);
        Ok(Identifiers {
            key: self.key,
            first,
            others,
        })
    }
}

/// Whether a number has an object with the identifier.
fn has_identifier(tables: &Tables, o: u32, id: &str) -> bool
    ensures { IsTrue result ↔ HasIdentifier tables.now o (chars id.now) }
{
    match tables.named(o) {
        Some(named) => named.id.is(id),
        None => false,
    }
}

/// The first of these numbers that has an object with the identifier.
fn find_among(tables: &Tables, numbers: &[u32], id: &str) -> Option<u32>
    ensures found { IfSome result (λ o. HasIdentifier tables.now o (chars id.now)) }
    ensures none { IfNone result (All (λ o. ¬ HasIdentifier tables.now o (chars id.now)) numbers.now) }
{
    for o in numbers {
        if has_identifier(tables, *o, id) {
            return Some(*o);
        }
    }
    None
}
