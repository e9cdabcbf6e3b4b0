ghost use Rattle.std.specs.Prelude.{◌≡◌, ◌≢◌, int_lt, int_le, IfOk};
ghost use Rattle.qv_syntax.specs.declared.operator.Operator.TheVariants.{Plus};
ghost use Rattle.qvtr_semantics.specs.Integers as integers;
ghost use Rattle.qvtr_semantics.specs.Expressions.{on_integers, operated, negation, negated, result as result_of};

use crate::booleans::{and, implies, negation as not, or, xor};
use crate::equality::{equal, unequal};
use crate::integers::{minus, negated as opposite, times};
use crate::outs::{boolean_of, integer_of, truth};
use crate::running::Running;
use mof_metamodel::NoMemory;
use qv_syntax::Operator;
use qvtr_semantics::Out;

/// `x < y`, of Integers.
fn less(x: &Out, y: &Out) -> Option<bool>
    ensures { result ≡ on_integers int_lt x.now y.now }
{
    match integer_of(x) {
        Some(i) => match integer_of(y) {
            Some(j) => Some(i < j),
            None => None,
        },
        None => None,
    }
}

/// `x <= y`, of Integers.
fn at_most(x: &Out, y: &Out) -> Option<bool>
    ensures { result ≡ on_integers int_le x.now y.now }
{
    match integer_of(x) {
        Some(i) => match integer_of(y) {
            Some(j) => Some(i <= j),
            None => None,
        },
        None => None,
    }
}

/// `x > y`, of Integers.
fn greater(x: &Out, y: &Out) -> Option<bool>
    ensures { result ≡ on_integers (λ i j. int_lt j i) x.now y.now }
{
    match integer_of(x) {
        Some(i) => match integer_of(y) {
            Some(j) => Some(j < i),
            None => None,
        },
        None => None,
    }
}

/// `x >= y`, of Integers.
fn at_least(x: &Out, y: &Out) -> Option<bool>
    ensures { result ≡ on_integers (λ i j. int_le j i) x.now y.now }
{
    match integer_of(x) {
        Some(i) => match integer_of(y) {
            Some(j) => Some(j <= i),
            None => None,
        },
        None => None,
    }
}

/// `x - y`, of Integers.
fn difference(x: &Out, y: &Out) -> Out
    ensures { result ≡ result_of (on_integers integers.minus x.now y.now) }
{
    match integer_of(x) {
        Some(i) => match integer_of(y) {
            Some(j) => minus(i, j),
            None => Out::Invalid,
        },
        None => Out::Invalid,
    }
}

/// `x * y`, of Integers.
fn product(x: &Out, y: &Out) -> Out
    ensures { result ≡ result_of (on_integers integers.times x.now y.now) }
{
    match integer_of(x) {
        Some(i) => match integer_of(y) {
            Some(j) => times(i, j),
            None => Out::Invalid,
        },
        None => Out::Invalid,
    }
}

/// An operator other than `+` between two values (OCL 2.4, sections 11.3.1, 11.5 and annex A.2.1.3).
fn combined(operator: Operator, x: &Out, y: &Out) -> Out
    requires { operator ≢ Plus }
    ensures { result ≡ operated operator x.now y.now }
{
    match operator {
        Operator::Implies => truth(implies(boolean_of(x), boolean_of(y))),
        Operator::Xor => truth(xor(boolean_of(x), boolean_of(y))),
        Operator::Or => truth(or(boolean_of(x), boolean_of(y))),
        Operator::And => truth(and(boolean_of(x), boolean_of(y))),
        Operator::Equal => truth(equal(x, y)),
        Operator::NotEqual => truth(unequal(x, y)),
        Operator::Less => truth(less(x, y)),
        Operator::Greater => truth(greater(x, y)),
        Operator::AtMost => truth(at_most(x, y)),
        Operator::AtLeast => truth(at_least(x, y)),
        Operator::Plus => unreachable!(),
        Operator::Minus => difference(x, y),
        Operator::Times => product(x, y),
    }
}

/// An operator behind a value. A chain of `+` counts the characters of each part once.
pub(crate) fn operated(operator: Operator, x: Running, y: &Out) -> Result<Running, NoMemory>
    ensures { IfOk result (λ out. out ≡ operated operator x y.now) }
{
    match operator {
        Operator::Plus => x.plus(y),
        other => Ok(Running::new(combined(other, &x.into_out(), y))),
    }
}

/// `not x`
pub(crate) fn negation(x: &Out) -> Out
    ensures { result ≡ negation x.now }
{
    truth(not(boolean_of(x)))
}

/// `- x`
pub(crate) fn negated(x: &Out) -> Out
    ensures { result ≡ negated x.now }
{
    match integer_of(x) {
        Some(i) => opposite(i),
        None => Out::Invalid,
    }
}
