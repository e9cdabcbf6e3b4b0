ghost use Rattle.std.specs.Prelude.{◌≡◌, ◌||◌, ℕ, nat_eq, false, IfOk, OnOk};
ghost use Rattle.enforcement_rules.specs.NumberSets.{is_among, has};

use mof_metamodel::NoMemory;
use std::alloc::Global;
use std::collections::BTreeSet;

/// Numbers that are found by search.
#[derive(Drop)]
pub(crate) struct NumberSet {
    numbers: BTreeSet<u32>,
}

impl NumberSet {
    /// None.
    pub(crate) fn new(alloc: Global) -> NumberSet
        ensures { (n : ℕ) → has result n ≡ false }
    {
        NumberSet {
            numbers: BTreeSet::new(alloc),
        }
    }

    /// Whether the number is one of them.
    pub(crate) fn contains(&self, n: u32) -> bool
        ensures { result ≡ has self.now n }
    {
        self.numbers.contains(&n)
    }

    /// Adds a number, if it isn't one of them.
    pub(crate) fn put(&mut self, n: u32) -> Result<(), NoMemory>
        ensures { OnOk result ((q : ℕ) → has self.new q ≡ (nat_eq q n || has self.old q)) }
    {
        let _is_new = self.numbers.insert(n)?;
        Ok(())
    }

    /// Adds numbers.
    pub(crate) fn put_all(&mut self, numbers: &[u32]) -> Result<(), NoMemory>
        ensures { OnOk result ((q : ℕ) → has self.new q ≡ (has self.old q || is_among numbers.now q)) }
    {
        for n in numbers {
            self.put(*n)?;
        }
        Ok(())
    }

    /// The numbers of a list.
    pub(crate) fn of(alloc: Global, numbers: &[u32]) -> Result<NumberSet, NoMemory>
        ensures { IfOk result (λ set. (q : ℕ) → has set q ≡ is_among numbers.now q) }
    {
        let mut set = NumberSet::new(alloc);
        set.put_all(numbers)?;
        Ok(set)
    }
}
