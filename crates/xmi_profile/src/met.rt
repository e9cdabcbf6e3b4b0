ghost use Rattle.std.specs.Prelude.{◌≡◌, ◌++◌, ◌∷◌, [], OnOk, option_map};
ghost use Rattle.mof_metamodel.specs.declared.desc.PropId.{PropId};
ghost use Rattle.xmi_profile.specs.Filing.{is_met, met_with};

use mof_metamodel::{NoMemory, PropId};
use std::alloc::Global;
use std::collections::BTreeSet;
use std::marker::Model;

/// The properties that were met, in their order, and in an ordered set too, so that a search takes logarithmic time.
#[derive(Drop)]
pub(crate) struct Met {
    numbers: Vec<u32>,
    known: BTreeSet<u32>,
}

impl Model for Met {
    ghost use Rattle.std.specs.Prelude.{List, ℕ, ◌≡◌};
    ghost use Rattle.std.specs.Ordering.{nat_cmp};
    ghost use Rattle.std.specs.BTreeSet.{contains};
    ghost use Rattle.xmi_profile.specs.Filing.{is_met};

    ghost Value = { List ℕ };

    ghost view = { λ m. m.numbers.items };

    ghost invariant = { λ m. (q : ℕ) → contains nat_cmp m.known q ≡ is_met m.numbers.items q };
}

impl Met {
    /// None.
    pub(crate) fn new(alloc: Global) -> Met
        ensures { result ≡ [] }
    {
        Met {
            numbers: Vec::new(alloc),
            known: BTreeSet::new(alloc),
        }
    }

    /// Whether the property was met.
    pub(crate) fn has(&self, p: u32) -> bool
        ensures { result ≡ is_met self.now p }
    {
        self.known.contains(&p)
    }

    /// Adds a property that wasn't met.
    fn add(&mut self, p: u32) -> Result<(), NoMemory>
        ensures { OnOk result (self.new ≡ self.old ++ p ∷ []) }
    {
        self.numbers.push(p)?;
        match self.known.insert(p) {
            Ok(_) => Ok(()),
            Err(_) => {
                self.numbers.pop();
                Err(NoMemory)
            }
        }
    }

    /// Meets a property, if there is one.
    pub(crate) fn meet(&mut self, p: Option<PropId>) -> Result<(), NoMemory>
        ensures { OnOk result (self.new ≡ met_with self.old (option_map (λ (q : PropId). q.0) p)) }
    {
        match p {
            Some(property) => {
                if self.has(property.0) {
                    Ok(())
                } else {
                    self.add(property.0)
                }
            }
            None => Ok(()),
        }
    }
}
