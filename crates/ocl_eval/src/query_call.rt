ghost use Rattle.std.specs.Prelude.{◌≡◌};
ghost use Rattle.ocl_eval.specs.QueryOrder.{call_order};

use crate::out_order::outs_order;
use mof_metamodel::Seq;
use qvtr_semantics::Out;
use std::cmp::Ordering;

/// A call of a query, as a key of a table: keys stand in an order of calls, and tie where the calls are one.
#[derive(Drop)]
pub(crate) struct QueryCall {
    pub(crate) query: u32,
    pub(crate) args: Seq<Out>,
}

/// How two calls stand.
fn call_order(one: &QueryCall, other: &QueryCall) -> Ordering
    ensures { result ≡ call_order one.now other.now }
{
    let args = outs_order(one.args.as_slice(), other.args.as_slice());
    one.query.cmp(&other.query).then(args)
}

impl PartialEq for QueryCall {
    ghost use Rattle.std.specs.Cmp.{partial_equiv_from_equiv};
    ghost use Rattle.std.specs.Ordering.{eq_by_cmp};
    ghost use Rattle.ocl_eval.specs.QueryOrder.{call_order, same_call_equiv};

    ghost eq = { eq_by_cmp call_order };

    ghost laws = { partial_equiv_from_equiv same_call_equiv };

    fn eq(&self, other: &Self) -> bool {
        call_order(self, other).is_eq()
    }
}

impl Eq for QueryCall {
    ghost use Rattle.ocl_eval.specs.QueryOrder.{same_call_equiv};

    ghost laws = { same_call_equiv };
}

impl PartialOrd for QueryCall {
    ghost use Rattle.std.specs.Prelude.{Some};
    ghost use Rattle.std.specs.Cmp.{po};
    ghost use Rattle.std.proofs.Common.{refl};
    ghost use Rattle.ocl_eval.specs.QueryOrder.{call_order, call_total};

    ghost partial_cmp = { λ c d. Some (call_order c d) };

    ghost laws = { po call_total (λ c d. refl) };

    fn partial_cmp(&self, other: &Self) -> Option<Ordering> {
        Some(self.cmp(other))
    }
}

impl Ord for QueryCall {
    ghost use Rattle.std.proofs.Common.{refl};
    ghost use Rattle.ocl_eval.specs.QueryOrder.{call_order, call_total};

    ghost cmp = { call_order };

    ghost total = { call_total };

    ghost matches_partial_cmp = { λ c d. refl };

    ghost matches_eq = { λ c d. refl };

    fn cmp(&self, other: &Self) -> Ordering {
        call_order(self, other)
    }
}
