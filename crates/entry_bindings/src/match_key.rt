ghost use Rattle.std.specs.Prelude.{◌≡◌};
ghost use Rattle.std.specs.Cmp.Lexicographic.{slice_cmp};
ghost use Rattle.entry_bindings.specs.MatchKeys.{root_order, side_number, key_order};

use crate::matching::Match;
use ocl_eval::datum_order;
use std::cmp::Ordering;
use term_table::NumberedValue;

/// Where a key stands among those that differ in objects of the target alone.
#[derive(Clone, Copy)]
pub(crate) enum Side {
    Before,
    Itself,
    Behind,
}

/// A match, or a place before or behind all that differ from it in objects of the target alone.
#[derive(Drop)]
pub(crate) struct MatchKey {
    pub(crate) found: Match,
    pub(crate) side: Side,
}

/// How two values of a root stand, of which objects of the target tie.
fn root_order(one: &NumberedValue, other: &NumberedValue) -> Ordering
    ensures { result ≡ root_order one.now other.now }
{
    match (one, other) {
        (NumberedValue::Val(d), NumberedValue::Val(e)) => datum_order(d, e),
        (NumberedValue::Val(_), NumberedValue::Term(_)) => Ordering::Less,
        (NumberedValue::Term(_), NumberedValue::Val(_)) => Ordering::Greater,
        (NumberedValue::Term(_), NumberedValue::Term(_)) => Ordering::Equal,
    }
}

/// The same of the values of all roots, place by place.
#[tactic(auto, using(crate::proofs::StepLaws::cmp_ended))]
fn roots_order(ones: &[NumberedValue], others: &[NumberedValue]) -> Ordering
    ensures { result ≡ slice_cmp root_order ones.now others.now }
{
    let count = ones.len().min(others.len());
    for i in 0..count {
        let order = root_order(&ones[i], &others[i]);
        if !order.is_eq() {
            return order;
        }
    }
    ones.len().cmp(&others.len())
}

/// The place of a side.
fn side_number(side: Side) -> u8
    ensures { result ≡ side_number side }
{
    match side {
        Side::Before => 0,
        Side::Itself => 1,
        Side::Behind => 2,
    }
}

/// How two keys stand.
fn key_order(one: &MatchKey, other: &MatchKey) -> Ordering
    ensures { result ≡ key_order one.now other.now }
{
    let ones = one.found.roots.as_slice();
    let others = other.found.roots.as_slice();
    let sides = side_number(one.side).cmp(&side_number(other.side));
    let inner = sides.then(ones.cmp(others));
    one.found
        .rel
        .cmp(&other.found.rel)
        .then(roots_order(ones, others).then(inner))
}

impl PartialEq for MatchKey {
    ghost use Rattle.std.specs.Cmp.{partial_equiv_from_equiv};
    ghost use Rattle.std.specs.Ordering.{eq_by_cmp};
    ghost use Rattle.entry_bindings.specs.MatchKeys.{key_order, same_key_equiv};

    ghost eq = { eq_by_cmp key_order };

    ghost laws = { partial_equiv_from_equiv same_key_equiv };

    fn eq(&self, other: &Self) -> bool {
        key_order(self, other).is_eq()
    }
}

impl Eq for MatchKey {
    ghost use Rattle.entry_bindings.specs.MatchKeys.{same_key_equiv};

    ghost laws = { same_key_equiv };
}

impl PartialOrd for MatchKey {
    ghost use Rattle.std.specs.Prelude.{Some};
    ghost use Rattle.std.specs.Cmp.{po};
    ghost use Rattle.std.proofs.Common.{refl};
    ghost use Rattle.entry_bindings.specs.MatchKeys.{key_order, key_total};

    ghost partial_cmp = { λ k l. Some (key_order k l) };

    ghost laws = { po key_total (λ k l. refl) };

    fn partial_cmp(&self, other: &Self) -> Option<Ordering> {
        Some(self.cmp(other))
    }
}

impl Ord for MatchKey {
    ghost use Rattle.std.proofs.Common.{refl};
    ghost use Rattle.entry_bindings.specs.MatchKeys.{key_order, key_total};

    ghost cmp = { key_order };

    ghost total = { key_total };

    ghost matches_partial_cmp = { λ k l. refl };

    ghost matches_eq = { λ k l. refl };

    fn cmp(&self, other: &Self) -> Ordering {
        key_order(self, other)
    }
}
