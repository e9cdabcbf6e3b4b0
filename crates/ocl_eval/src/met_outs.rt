ghost use Rattle.std.specs.Bool.{OnFalse};
ghost use Rattle.std.specs.Prelude.{◌≡◌, List, [], ◌∷◌, not, IfOk, OnOk};
ghost use Rattle.std.specs.List.{list_any};
ghost use Rattle.qvtr_semantics.specs.declared.out.Out.{Out};
ghost use Rattle.ocl_eval.specs.Order.{same_out};
ghost use Rattle.ocl_eval.specs.Progress.{all_new};

use crate::ranked_out::RankedOut;
use mof_metamodel::NoMemory;
use qvtr_semantics::Out;
use std::alloc::Global;
use std::collections::BTreeSet;

/// The values of expressions that were met. A search takes the logarithm of their number.
#[derive(Drop)]
pub(crate) struct MetOuts<'a> {
    outs: BTreeSet<RankedOut<'a>>,
}

impl<'a> MetOuts<'a> {
    /// None.
    pub(crate) fn new(alloc: Global) -> MetOuts<'a>
        ensures { result.outs.keys ≡ [] }
    {
        MetOuts {
            outs: BTreeSet::new(alloc),
        }
    }

    /// Meets a value, and says whether it is new.
    #[tactic(auto, using(crate::proofs::MetOutLaws::found_out))]
    pub(crate) fn meet(&mut self, out: &'a Out) -> Result<bool, NoMemory>
        ensures is_new { IfOk result (λ is_new. is_new ≡ not (list_any (same_out out.now) self.old.outs.keys)) }
        ensures known { IfOk result (λ is_new. OnFalse is_new (self.new.outs.keys ≡ self.old.outs.keys)) }
        ensures new_ones { OnOk result ((rest : List Out) → all_new self.new.outs.keys rest ≡ all_new (out.now ∷ self.old.outs.keys) rest) }
    {
        Ok(self.outs.insert(RankedOut { out })?)
    }
}
