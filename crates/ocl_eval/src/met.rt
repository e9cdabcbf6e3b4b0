ghost use Rattle.std.specs.Bool.{OnFalse};
ghost use Rattle.std.specs.Prelude.{◌≡◌, List, [], ◌∷◌, not, IfOk, OnOk};
ghost use Rattle.qvtr_semantics.specs.declared.datum.Datum.{Datum};
ghost use Rattle.qvtr_semantics.specs.Data.{is_among, new_ones};

use crate::ranked::Ranked;
use mof_metamodel::NoMemory;
use qvtr_semantics::Datum;
use std::alloc::Global;
use std::collections::BTreeSet;

/// The data that were met. A search takes the logarithm of their number.
#[derive(Drop)]
pub(crate) struct Met<'a> {
    data: BTreeSet<Ranked<'a>>,
}

impl<'a> Met<'a> {
    /// None.
    pub(crate) fn new(alloc: Global) -> Met<'a>
        ensures { result.data.keys ≡ [] }
    {
        Met {
            data: BTreeSet::new(alloc),
        }
    }

    /// Whether the datum was met.
    #[tactic(auto, using(crate::proofs::MetLaws::found_among))]
    pub(crate) fn has(&self, datum: &'a Datum) -> bool
        ensures { result ≡ is_among datum.now self.now.data.keys }
    {
        self.data.contains(&Ranked { datum })
    }

    /// Meets a datum, and says whether it is new.
    #[tactic(auto, using(crate::proofs::MetLaws::found_among))]
    pub(crate) fn meet(&mut self, datum: &'a Datum) -> Result<bool, NoMemory>
        ensures is_new { IfOk result (λ is_new. is_new ≡ not (is_among datum.now self.old.data.keys)) }
        ensures known { IfOk result (λ is_new. OnFalse is_new (self.new.data.keys ≡ self.old.data.keys)) }
        ensures met { OnOk result ((other : Datum) → is_among other self.new.data.keys ≡ is_among other (datum.now ∷ self.old.data.keys)) }
        ensures new_ones { OnOk result ((rest : List Datum) → new_ones self.new.data.keys rest ≡ new_ones (datum.now ∷ self.old.data.keys) rest) }
    {
        Ok(self.data.insert(Ranked { datum })?)
    }

    /// All of the list.
    pub(crate) fn all_of(alloc: Global, elements: &'a [Datum]) -> Result<Met<'a>, NoMemory>
        ensures { IfOk result (λ met. (datum : Datum) → is_among datum met.data.keys ≡ is_among datum elements.now) }
    {
        let mut met = Met::new(alloc);
        for element in elements {
            met.meet(element)?;
        }
        Ok(met)
    }
}
