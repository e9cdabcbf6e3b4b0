ghost use Rattle.std.specs.Prelude.{◌≡◌};
ghost use Rattle.term_table.specs.NumberOrder.{numbered_value_order, numbered_term_order};

use mof_metamodel::{ClassId, Seq};
use ocl_eval::datum_order;
use qvtr_semantics::Datum;
use std::cmp::Ordering;

/// A value of a variable or of an item, in which a term is the number that it has in a table. The order, for look-ups, is by these numbers.
#[derive(Drop)]
pub enum NumberedValue {
    /// A value of a data type, or an object of a source model.
    Val(Datum),
    /// An object of the target.
    Term(usize),
}

/// A term whose key values have the numbers of their terms. The order, for look-ups, is by these numbers.
#[derive(Drop)]
pub struct NumberedTerm {
    pub class: ClassId,
    pub keys: Seq<NumberedValue>,
}

/// How two values stand by the numbers of their terms.
fn numbered_value_order(one: &NumberedValue, other: &NumberedValue) -> Ordering
    ensures { result ≡ numbered_value_order one.now other.now }
{
    match (one, other) {
        (NumberedValue::Val(d), NumberedValue::Val(e)) => datum_order(d, e),
        (NumberedValue::Val(_), NumberedValue::Term(_)) => Ordering::Less,
        (NumberedValue::Term(_), NumberedValue::Val(_)) => Ordering::Greater,
        (NumberedValue::Term(m), NumberedValue::Term(n)) => m.cmp(n),
    }
}

/// How two terms stand by the numbers of the terms among their key values.
fn numbered_term_order(one: &NumberedTerm, other: &NumberedTerm) -> Ordering
    ensures { result ≡ numbered_term_order one.now other.now }
{
    let keys = one.keys.as_slice().cmp(other.keys.as_slice());
    one.class.0.cmp(&other.class.0).then(keys)
}

impl PartialEq for NumberedValue {
    ghost use Rattle.std.specs.Cmp.{partial_equiv_from_equiv};
    ghost use Rattle.std.specs.Ordering.{eq_by_cmp};
    ghost use Rattle.term_table.specs.NumberOrder.{numbered_value_order, same_numbered_value_equiv};

    ghost eq = { eq_by_cmp numbered_value_order };

    ghost laws = { partial_equiv_from_equiv same_numbered_value_equiv };

    fn eq(&self, other: &Self) -> bool {
        numbered_value_order(self, other).is_eq()
    }
}

impl Eq for NumberedValue {
    ghost use Rattle.term_table.specs.NumberOrder.{same_numbered_value_equiv};

    ghost laws = { same_numbered_value_equiv };
}

impl PartialOrd for NumberedValue {
    ghost use Rattle.std.specs.Prelude.{Some};
    ghost use Rattle.std.specs.Cmp.{po};
    ghost use Rattle.std.proofs.Common.{refl};
    ghost use Rattle.term_table.specs.NumberOrder.{numbered_value_order, numbered_values_total};

    ghost partial_cmp = { λ v w. Some (numbered_value_order v w) };

    ghost laws = { po numbered_values_total (λ v w. refl) };

    fn partial_cmp(&self, other: &Self) -> Option<Ordering> {
        Some(self.cmp(other))
    }
}

impl Ord for NumberedValue {
    ghost use Rattle.std.proofs.Common.{refl};
    ghost use Rattle.term_table.specs.NumberOrder.{numbered_value_order, numbered_values_total};

    ghost cmp = { numbered_value_order };

    ghost total = { numbered_values_total };

    ghost matches_partial_cmp = { λ v w. refl };

    ghost matches_eq = { λ v w. refl };

    fn cmp(&self, other: &Self) -> Ordering {
        numbered_value_order(self, other)
    }
}

impl PartialEq for NumberedTerm {
    ghost use Rattle.std.specs.Cmp.{partial_equiv_from_equiv};
    ghost use Rattle.std.specs.Ordering.{eq_by_cmp};
    ghost use Rattle.term_table.specs.NumberOrder.{numbered_term_order, same_numbered_term_equiv};

    ghost eq = { eq_by_cmp numbered_term_order };

    ghost laws = { partial_equiv_from_equiv same_numbered_term_equiv };

    fn eq(&self, other: &Self) -> bool {
        numbered_term_order(self, other).is_eq()
    }
}

impl Eq for NumberedTerm {
    ghost use Rattle.term_table.specs.NumberOrder.{same_numbered_term_equiv};

    ghost laws = { same_numbered_term_equiv };
}

impl PartialOrd for NumberedTerm {
    ghost use Rattle.std.specs.Prelude.{Some};
    ghost use Rattle.std.specs.Cmp.{po};
    ghost use Rattle.std.proofs.Common.{refl};
    ghost use Rattle.term_table.specs.NumberOrder.{numbered_term_order, numbered_terms_total};

    ghost partial_cmp = { λ t u. Some (numbered_term_order t u) };

    ghost laws = { po numbered_terms_total (λ t u. refl) };

    fn partial_cmp(&self, other: &Self) -> Option<Ordering> {
        Some(self.cmp(other))
    }
}

impl Ord for NumberedTerm {
    ghost use Rattle.std.proofs.Common.{refl};
    ghost use Rattle.term_table.specs.NumberOrder.{numbered_term_order, numbered_terms_total};

    ghost cmp = { numbered_term_order };

    ghost total = { numbered_terms_total };

    ghost matches_partial_cmp = { λ t u. refl };

    ghost matches_eq = { λ t u. refl };

    fn cmp(&self, other: &Self) -> Ordering {
        numbered_term_order(self, other)
    }
}
