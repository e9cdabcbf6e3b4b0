ghost use Rattle.std.specs.Prelude.{◌≡◌, ◌↔◌, IsTrue};
ghost use Rattle.entry_walk.specs.CallOrder.{call_order, key_order};

use entry_making::NumberedCall;
use std::cmp::Ordering;

/// A call as a key of a table: keys stand in an order of calls by numbers, and tie where the calls are one.
#[derive(Drop)]
pub(crate) struct CallKey {
    pub(crate) call: NumberedCall,
}

/// How two calls stand.
fn call_order(one: &NumberedCall, other: &NumberedCall) -> Ordering
    ensures { result ≡ call_order one.now other.now }
{
    let roots = one.roots.as_slice().cmp(other.roots.as_slice());
    one.rel.cmp(&other.rel).then(roots)
}

/// Whether two calls are one.
#[tactic(auto, using(crate::proofs::CallOrderLaws::calls_tie))]
pub(crate) fn is_same_call(one: &NumberedCall, other: &NumberedCall) -> bool
    ensures { IsTrue result ↔ (one.now ≡ other.now) }
{
    call_order(one, other).is_eq()
}

/// How two keys stand.
fn key_order(one: &CallKey, other: &CallKey) -> Ordering
    ensures { result ≡ key_order one.now other.now }
{
    call_order(&one.call, &other.call)
}

impl PartialEq for CallKey {
    ghost use Rattle.std.specs.Cmp.{partial_equiv_from_equiv};
    ghost use Rattle.std.specs.Ordering.{eq_by_cmp};
    ghost use Rattle.entry_walk.specs.CallOrder.{key_order, same_key_equiv};

    ghost eq = { eq_by_cmp key_order };

    ghost laws = { partial_equiv_from_equiv same_key_equiv };

    fn eq(&self, other: &Self) -> bool {
        key_order(self, other).is_eq()
    }
}

impl Eq for CallKey {
    ghost use Rattle.entry_walk.specs.CallOrder.{same_key_equiv};

    ghost laws = { same_key_equiv };
}

impl PartialOrd for CallKey {
    ghost use Rattle.std.specs.Prelude.{Some};
    ghost use Rattle.std.specs.Cmp.{po};
    ghost use Rattle.std.proofs.Common.{refl};
    ghost use Rattle.entry_walk.specs.CallOrder.{key_order, key_total};

    ghost partial_cmp = { λ k l. Some (key_order k l) };

    ghost laws = { po key_total (λ k l. refl) };

    fn partial_cmp(&self, other: &Self) -> Option<Ordering> {
        Some(self.cmp(other))
    }
}

impl Ord for CallKey {
    ghost use Rattle.std.proofs.Common.{refl};
    ghost use Rattle.entry_walk.specs.CallOrder.{key_order, key_total};

    ghost cmp = { key_order };

    ghost total = { key_total };

    ghost matches_partial_cmp = { λ k l. refl };

    ghost matches_eq = { λ k l. refl };

    fn cmp(&self, other: &Self) -> Ordering {
        key_order(self, other)
    }
}
