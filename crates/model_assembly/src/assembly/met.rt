ghost use Rattle.std.specs.Prelude.{◌≡◌, [], not, true, IfOk, OnOk, if◌then◌else◌};
ghost use Rattle.std.specs.Bool.{OnFalse};
ghost use Rattle.std.specs.List.{list_any};

use mof_metamodel::NoMemory;
use object_tables::HashKey;
use std::alloc::Global;
use std::collections::HashSet;
use std::hash::Hash;

/// What was met. It is found by hashing after a key that all makes that may be met, so that nothing that
/// collides can be made.
#[derive(Drop)]
pub(super) struct Met<K: Eq + Hash> {
    set: HashSet<K, HashKey>,
}

impl<K: Eq + Hash + Drop> Met<K> {
    /// Nothing.
    pub(super) fn new(alloc: Global, after: HashKey) -> Met<K>
        ensures { result.set.keys ≡ [] }
    {
        Met {
            set: HashSet::with_hasher(alloc, after),
        }
    }

    /// Whether something was met.
    pub(super) fn has(&self, key: &K) -> bool
        ensures { result ≡ list_any (K.eq key.now) self.now.set.keys }
    {
        self.set.contains(key)
    }

    /// Meets something, and says whether it is new.
    pub(super) fn meet(&mut self, key: K) -> Result<bool, NoMemory>
        ensures is_new { IfOk result (λ is_new. is_new ≡ not (list_any (K.eq key) self.old.set.keys)) }
        ensures known { IfOk result (λ is_new. OnFalse is_new (self.new.set.keys ≡ self.old.set.keys)) }
        ensures met { OnOk result ((other : K) → list_any (K.eq other) self.new.set.keys ≡ (if K.eq key other then true else list_any (K.eq other) self.old.set.keys)) }
    {
        let is_new = self.set.insert(key)?;
        Ok(is_new)
    }
}

impl<K: Eq + Hash + Copy> Met<K> {
    /// All of a list.
    pub(super) fn all_of(alloc: Global, after: HashKey, keys: &[K]) -> Result<Met<K>, NoMemory>
        ensures { IfOk result (λ met. (other : K) → list_any (K.eq other) met.set.keys ≡ list_any (K.eq other) keys.now) }
    {
        let mut met = Met::new(alloc, after);
        for key in keys {
            met.meet(*key)?;
        }
        Ok(met)
    }
}
