ghost use Rattle.std.specs.Prelude.{◌≡◌};
ghost use Rattle.qvtr_semantics.specs.Outs.{given};
ghost use Rattle.qvtr_semantics.specs.Integers.{integer, sum, plus, minus, times, negated, absolute, quotient, remainder, maximum, minimum};
ghost use Rattle.ocl_eval.specs.Results.{an_integer, partial_sum};

use crate::outs::integer_of_datum;
use object_tables::Value;
use qvtr_semantics::{Datum, Out};

/// An Integer as the value of an expression.
#[tactic(auto, using(crate::proofs::IntegerLaws::integer_fits))]
pub fn integer(i: i64) -> Out
    ensures value { result ≡ an_integer i }
    ensures fits { result ≡ integer i }
{
    Out::One(Datum::Val(0, Value::Int(i)))
}

/// What a checked operation gives; a number outside 64 bits is invalid (OCL 2.4, section 11.5.2).
pub(crate) fn checked(i: Option<i64>) -> Out
    ensures { result ≡ given i an_integer }
{
    match i {
        Some(i) => integer(i),
        None => Out::Invalid,
    }
}

/// `i + j`.
#[tactic(auto, using(crate::proofs::IntegerLaws::checked_integer))]
pub fn plus(i: i64, j: i64) -> Out
    ensures { result ≡ plus i j }
{
    checked(i.checked_add(j))
}

/// `i - j`.
#[tactic(auto, using(crate::proofs::IntegerLaws::checked_integer))]
pub fn minus(i: i64, j: i64) -> Out
    ensures { result ≡ minus i j }
{
    checked(i.checked_sub(j))
}

/// `i * j`.
#[tactic(auto, using(crate::proofs::IntegerLaws::checked_integer))]
pub fn times(i: i64, j: i64) -> Out
    ensures { result ≡ times i j }
{
    checked(i.checked_mul(j))
}

/// `-i`: invalid at the least Integer.
#[tactic(auto, using(crate::proofs::IntegerLaws::checked_integer))]
pub fn negated(i: i64) -> Out
    ensures { result ≡ negated i }
{
    checked(i.checked_neg())
}

/// `i.abs()`: invalid at the least Integer.
#[tactic(auto, using(crate::proofs::IntegerLaws::checked_absolute))]
pub fn absolute(i: i64) -> Out
    ensures { result ≡ absolute i }
{
    checked(i.checked_abs())
}

/// `i.div(j)`: cut towards zero, and invalid where `j` is 0 or the quotient is above 64 bits.
#[tactic(auto, using(crate::proofs::IntegerLaws::checked_quotient))]
pub fn quotient(i: i64, j: i64) -> Out
    ensures { result ≡ quotient i j }
{
    checked(i.checked_div(j))
}

/// `i.mod(j)`: with the sign of `i`, and invalid where `j` is 0.
#[tactic(auto, using(crate::proofs::IntegerLaws::is_zero, crate::proofs::IntegerLaws::nonzero))]
pub fn remainder(i: i64, j: i64) -> Out
    ensures { result ≡ remainder i j }
{
    if j == 0 {
        return Out::Invalid;
    }
    integer(i.wrapping_rem(j))
}

/// `i.max(j)`.
pub fn maximum(i: i64, j: i64) -> Out
    ensures { result ≡ maximum i j }
{
    integer(i.max(j))
}

/// `i.min(j)`.
pub fn minimum(i: i64, j: i64) -> Out
    ensures { result ≡ minimum i j }
{
    integer(i.min(j))
}

// the sum so far with one more datum, if that is an Integer and so is the sum
#[tactic(auto, using(crate::proofs::IntegerLaws::checked_partial))]
fn added(total: i64, datum: &Datum) -> Option<i64>
    ensures { result ≡ partial_sum total datum.now }
{
    match integer_of_datum(datum) {
        Some(number) => total.checked_add(number),
        None => None,
    }
}

/// The sum of Integers from left to right: invalid where one of them is no Integer, or a partial sum is above 64 bits.
#[tactic(auto, using(crate::proofs::IntegerLaws::sum_step, crate::proofs::IntegerLaws::sum_end))]
pub fn sum(elements: &[Datum]) -> Out
    ensures { result ≡ sum elements.now }
{
    let mut total: i64 = 0;
    for datum in elements {
        match added(total, datum) {
            Some(sum) => total = sum,
            None => return Out::Invalid,
        }
    }
    integer(total)
}
