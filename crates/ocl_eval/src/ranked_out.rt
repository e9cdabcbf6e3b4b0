use crate::out_order::{out_order, same_out};
use qvtr_semantics::Out;
use std::cmp::Ordering;
use std::marker::Model;

/// A value of an expression as a key: keys are equal where the values are of one rank and have the same data.
#[derive(Drop)]
pub(crate) struct RankedOut<'a> {
    pub(crate) out: &'a Out,
}

impl<'a> Model for RankedOut<'a> {
    ghost use Rattle.qvtr_semantics.specs.declared.out.Out.{Out};

    ghost Value = { Out };

    ghost view = { λ r. r.out.now };
}

impl<'a> PartialEq for RankedOut<'a> {
    ghost use Rattle.std.specs.Cmp.{partial_equiv_from_equiv};
    ghost use Rattle.ocl_eval.specs.Order.{same_out};
    ghost use Rattle.ocl_eval.specs.OutOrderLaws.{same_out_equiv};

    ghost eq = { same_out };

    ghost laws = { partial_equiv_from_equiv same_out_equiv };

    fn eq(&self, other: &Self) -> bool {
        same_out(self.out, other.out)
    }
}

impl<'a> Eq for RankedOut<'a> {
    ghost use Rattle.ocl_eval.specs.OutOrderLaws.{same_out_equiv};

    ghost laws = { same_out_equiv };
}

impl<'a> PartialOrd for RankedOut<'a> {
    ghost use Rattle.std.specs.Prelude.{Some};
    ghost use Rattle.std.specs.Cmp.{po};
    ghost use Rattle.ocl_eval.specs.Order.{out_order};
    ghost use Rattle.ocl_eval.specs.OutOrderLaws.{out_order_total, outs_tie};

    ghost partial_cmp = { λ x y. Some (out_order x y) };

    ghost laws = { po out_order_total outs_tie };

    fn partial_cmp(&self, other: &Self) -> Option<Ordering> {
        Some(self.cmp(other))
    }
}

impl<'a> Ord for RankedOut<'a> {
    ghost use Rattle.std.proofs.Common.{refl};
    ghost use Rattle.ocl_eval.specs.Order.{out_order};
    ghost use Rattle.ocl_eval.specs.OutOrderLaws.{out_order_total, outs_tie};

    ghost cmp = { out_order };

    ghost total = { out_order_total };

    ghost matches_partial_cmp = { λ x y. refl };

    ghost matches_eq = { outs_tie };

    fn cmp(&self, other: &Self) -> Ordering {
        out_order(self.out, other.out)
    }
}
