use qvtr_semantics::Datum;
use std::cmp::Ordering;
use std::marker::Model;
use template_match::optional_order;

/// The value of a root as a part of a key. None comes before each value.
#[derive(Drop)]
pub(crate) struct RootKey {
    pub(crate) value: Option<Datum>,
}

impl Model for RootKey {
    ghost use Rattle.std.specs.Prelude.{Option};
    ghost use Rattle.qvtr_semantics.specs.declared.datum.Datum.{Datum};

    ghost Value = { Option Datum };

    ghost view = { λ r. r.value };
}

impl PartialEq for RootKey {
    ghost use Rattle.std.specs.Cmp.{partial_equiv_from_equiv};
    ghost use Rattle.std.specs.Ordering.{eq_by_cmp};
    ghost use Rattle.template_match.specs.Order.{optional_order};
    ghost use Rattle.relation_calls.specs.CallOrder.{same_root_equiv};

    ghost eq = { eq_by_cmp optional_order };

    ghost laws = { partial_equiv_from_equiv same_root_equiv };

    fn eq(&self, other: &Self) -> bool {
        optional_order(self.value.as_ref(), other.value.as_ref()).is_eq()
    }
}

impl Eq for RootKey {
    ghost use Rattle.relation_calls.specs.CallOrder.{same_root_equiv};

    ghost laws = { same_root_equiv };
}

impl PartialOrd for RootKey {
    ghost use Rattle.std.specs.Prelude.{Some};
    ghost use Rattle.std.specs.Cmp.{po};
    ghost use Rattle.std.proofs.Common.{refl};
    ghost use Rattle.template_match.specs.Order.{optional_order};
    ghost use Rattle.template_match.specs.OrderLaws.{optional_total};

    ghost partial_cmp = { λ x y. Some (optional_order x y) };

    ghost laws = { po optional_total (λ x y. refl) };

    fn partial_cmp(&self, other: &Self) -> Option<Ordering> {
        Some(self.cmp(other))
    }
}

impl Ord for RootKey {
    ghost use Rattle.std.proofs.Common.{refl};
    ghost use Rattle.template_match.specs.Order.{optional_order};
    ghost use Rattle.template_match.specs.OrderLaws.{optional_total};

    ghost cmp = { optional_order };

    ghost total = { optional_total };

    ghost matches_partial_cmp = { λ x y. refl };

    ghost matches_eq = { λ x y. refl };

    fn cmp(&self, other: &Self) -> Ordering {
        optional_order(self.value.as_ref(), other.value.as_ref())
    }
}
