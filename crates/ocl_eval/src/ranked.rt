use crate::datum::same_datum;
use crate::order::datum_order;
use qvtr_semantics::Datum;
use std::cmp::Ordering;
use std::marker::Model;

/// A datum as a key: keys stand in the order of values, and are equal where the data are the same.
#[derive(Drop)]
pub(crate) struct Ranked<'a> {
    pub(crate) datum: &'a Datum,
}

impl<'a> Model for Ranked<'a> {
    ghost use Rattle.qvtr_semantics.specs.declared.datum.Datum.{Datum};

    ghost Value = { Datum };

    ghost view = { λ r. r.datum.now };
}

impl<'a> PartialEq for Ranked<'a> {
    ghost use Rattle.std.specs.Cmp.{partial_equiv_from_equiv};
    ghost use Rattle.qvtr_semantics.specs.Data.{same_datum};
    ghost use Rattle.ocl_eval.specs.OrderLaws.{same_equiv};

    ghost eq = { same_datum };

    ghost laws = { partial_equiv_from_equiv same_equiv };

    fn eq(&self, other: &Self) -> bool {
        same_datum(self.datum, other.datum)
    }
}

impl<'a> Eq for Ranked<'a> {
    ghost use Rattle.ocl_eval.specs.OrderLaws.{same_equiv};

    ghost laws = { same_equiv };
}

impl<'a> PartialOrd for Ranked<'a> {
    ghost use Rattle.std.specs.Prelude.{Some};
    ghost use Rattle.std.specs.Cmp.{po};
    ghost use Rattle.ocl_eval.specs.Order.{datum_order};
    ghost use Rattle.ocl_eval.specs.OrderLaws.{order_total, ties_where_same};

    ghost partial_cmp = { λ d e. Some (datum_order d e) };

    ghost laws = { po order_total ties_where_same };

    fn partial_cmp(&self, other: &Self) -> Option<Ordering> {
        Some(self.cmp(other))
    }
}

impl<'a> Ord for Ranked<'a> {
    ghost use Rattle.std.proofs.Common.{refl};
    ghost use Rattle.ocl_eval.specs.Order.{datum_order};
    ghost use Rattle.ocl_eval.specs.OrderLaws.{order_total, ties_where_same};

    ghost cmp = { datum_order };

    ghost total = { order_total };

    ghost matches_partial_cmp = { λ d e. refl };

    ghost matches_eq = { ties_where_same };

    fn cmp(&self, other: &Self) -> Ordering {
        datum_order(self.datum, other.datum)
    }
}
