ghost use Rattle.std.specs.Prelude.{◌≡◌};
ghost use Rattle.qvtr_semantics.specs.Data.{is_before};
ghost use Rattle.ocl_eval.specs.Order.{datum_order};

use key_index::value_order;
use qvtr_semantics::Datum;
use std::cmp::Ordering;

/// How two data stand in the order of values. They tie exactly where they are the same.
pub fn datum_order(d: &Datum, e: &Datum) -> Ordering
    ensures { result ≡ datum_order d.now e.now }
{
    match (d, e) {
        (Datum::Obj(m, o), Datum::Obj(n, p)) => m.cmp(n).then(o.0.cmp(&p.0)),
        (Datum::Obj(..), Datum::Val(..)) => Ordering::Less,
        (Datum::Val(..), Datum::Obj(..)) => Ordering::Greater,
        (Datum::Val(m, v), Datum::Val(n, w)) => m.cmp(n).then(value_order(v, w)),
    }
}

/// Whether a datum stands before another in the order of values: objects first, then Strings, Integers, Booleans and literals.
#[tactic(auto, using(crate::specs::OrderLaws::before_by_order))]
pub fn before(d: &Datum, e: &Datum) -> bool
    ensures { result ≡ is_before d.now e.now }
{
    datum_order(d, e).is_lt()
}
