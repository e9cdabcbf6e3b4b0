ghost use Rattle.std.specs.Prelude.{◌≡◌, ℕ, ◌||◌, not, false, IfOk, OnOk};
ghost use Rattle.qvtr_types.specs.ClassSets.{one_class, has_class};

use mof_metamodel::NoMemory;
use std::alloc::Global;
use std::collections::HashSet;
use std::hash::{BuildHasherDefault, DefaultHasher};

/// Classes, each by the number of its metamodel and its own.
#[derive(Drop)]
pub(crate) struct MetClasses {
    classes: HashSet<(u32, u32), BuildHasherDefault<DefaultHasher>>,
}

impl MetClasses {
    /// None.
    pub(crate) fn new(alloc: Global) -> MetClasses
        ensures { (q : ℕ × ℕ) → has_class result.classes q ≡ false }
    {
        MetClasses {
            classes: HashSet::with_hasher(alloc, BuildHasherDefault::default()),
        }
    }

    /// Adds a class, and says whether it is new.
    pub(crate) fn meet(&mut self, class: (u32, u32)) -> Result<bool, NoMemory>
        ensures is_new { IfOk result (λ is_new. is_new ≡ not (has_class self.old.classes class)) }
        ensures met { OnOk result ((q : ℕ × ℕ) → has_class self.new.classes q ≡ (one_class class q || has_class self.old.classes q)) }
    {
        Ok(self.classes.insert(class)?)
    }
}
