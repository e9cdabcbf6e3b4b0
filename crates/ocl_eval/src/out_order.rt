ghost use Rattle.std.specs.Prelude.{◌≡◌, [], ◌∷◌};
ghost use Rattle.std.specs.Cmp.Lexicographic.{slice_cmp};
ghost use Rattle.ocl_eval.specs.Order.{datum_order, rank, data_in, out_order, same_out};

use crate::order::datum_order;
use qv_syntax::Kind;
use qvtr_semantics::{Datum, Out};
use std::cmp::Ordering;

fn rank(out: &Out) -> u8
    ensures { result ≡ rank out.now }
{
    match out {
        Out::One(_) => 0,
        Out::Many(Kind::Set, _) => 1,
        Out::Many(Kind::Bag, _) => 2,
        Out::Many(Kind::Sequence, _) => 3,
        Out::Many(Kind::OrderedSet, _) => 4,
        Out::Null => 5,
        Out::Invalid => 6,
    }
}

// the first data that differ decide, and else the lengths
#[tactic(auto, using(crate::proofs::ListOrderLaws::from_first, crate::proofs::ListOrderLaws::past_second, crate::proofs::ListOrderLaws::past_first, crate::proofs::ListOrderLaws::past_both))]
fn data_order(ds: &[Datum], es: &[Datum]) -> Ordering
    ensures { result ≡ slice_cmp datum_order ds.now es.now }
{
    for i in 0..ds.len() {
        if i >= es.len() {
            return Ordering::Greater;
        }
        let order = datum_order(&ds[i], &es[i]);
        if order != Ordering::Equal {
            return order;
        }
    }
    if ds.len() < es.len() {
        Ordering::Less
    } else {
        Ordering::Equal
    }
}

/// How two lists of values stand: the first values that differ decide, and else the lengths.
#[tactic(auto, using(crate::proofs::ListOrderLaws::from_first, crate::proofs::ListOrderLaws::past_second, crate::proofs::ListOrderLaws::past_first, crate::proofs::ListOrderLaws::past_both))]
pub(crate) fn outs_order(xs: &[Out], ys: &[Out]) -> Ordering
    ensures { result ≡ slice_cmp out_order xs.now ys.now }
{
    for i in 0..xs.len() {
        if i >= ys.len() {
            return Ordering::Greater;
        }
        let order = out_order(&xs[i], &ys[i]);
        if order != Ordering::Equal {
            return order;
        }
    }
    if xs.len() < ys.len() {
        Ordering::Less
    } else {
        Ordering::Equal
    }
}

fn order_in_rank(x: &Out, y: &Out) -> Ordering
    requires { rank x.now ≡ rank y.now }
    ensures { result ≡ slice_cmp datum_order (data_in x.now) (data_in y.now) }
{
    match (x, y) {
        (Out::One(d), Out::One(e)) => datum_order(d, e),
        (Out::Many(_, ds), Out::Many(_, es)) => data_order(ds.as_slice(), es.as_slice()),
        _ => Ordering::Equal,
    }
}

/// How two values of expressions stand as keys.
pub(crate) fn out_order(x: &Out, y: &Out) -> Ordering
    ensures { result ≡ out_order x.now y.now }
{
    match rank(x).cmp(&rank(y)) {
        Ordering::Less => Ordering::Less,
        Ordering::Equal => order_in_rank(x, y),
        Ordering::Greater => Ordering::Greater,
    }
}

/// Whether they tie.
#[tactic(auto, using(crate::specs::OutOrderLaws::outs_tie))]
pub(crate) fn same_out(x: &Out, y: &Out) -> bool
    ensures { result ≡ same_out x.now y.now }
{
    out_order(x, y).is_eq()
}
