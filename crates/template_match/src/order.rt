ghost use Rattle.std.specs.Prelude.{◌≡◌};
ghost use Rattle.std.specs.List.{dedup};
ghost use Rattle.std.specs.List.Sorted.{IsPermutation, IsSorted};
ghost use Rattle.std.specs.Option.{option_copied};
ghost use Rattle.std.specs.Ordering.{eq_by_cmp};
ghost use Rattle.template_match.specs.Order.{optional_order, binding_order};
ghost use Rattle.template_match.specs.Each.{IsEachOnce};

use crate::values::value_at;
use mof_metamodel::Seq;
use ocl_eval::datum_order;
use qvtr_semantics::{Binding, Datum};
use std::cmp::Ordering;

/// How the values of two variables stand; none comes before each value.
pub fn optional_order(one: Option<&Datum>, other: Option<&Datum>) -> Ordering
    ensures { result ≡ optional_order (option_copied one.entry) (option_copied other.entry) }
{
    match one {
        Some(d) => match other {
            Some(e) => datum_order(d, e),
            None => Ordering::Greater,
        },
        None => match other {
            Some(_) => Ordering::Less,
            None => Ordering::Equal,
        },
    }
}

/// How two bindings stand by the values of the variables, one after another.
pub fn binding_order(variables: &[u32], one: &Binding, other: &Binding) -> Ordering
    ensures { result ≡ binding_order variables.now one.now other.now }
{
    for variable in variables {
        let order = optional_order(value_at(one, *variable), value_at(other, *variable));
        if order.is_ne() {
            return order;
        }
    }
    Ordering::Equal
}

/// The bindings in order.
fn in_order(variables: &[u32], found: Seq<Binding>) -> Seq<Binding>
    ensures same { IsPermutation found result }
    ensures sorted { IsSorted (binding_order variables.now) result }
{
    let mut bindings = found.into_vec();
    bindings.sort_unstable_by(|b, c| binding_order(variables, b, c));
    Seq::from_vec(bindings)
}

/// Of neighbours that are the same the first.
fn without_neighbours(variables: &[u32], found: Seq<Binding>) -> Seq<Binding>
    ensures { result ≡ dedup (λ b c. eq_by_cmp (binding_order variables.now) b c) found }
{
    let mut bindings = found.into_vec();
    bindings.dedup_by(|later, kept| binding_order(variables, later, kept).is_eq());
    Seq::from_vec(bindings)
}

/// The bindings in the order of the values of the variables; of those that tie one.
pub fn each_once(variables: &[u32], found: Seq<Binding>) -> Seq<Binding>
    ensures { IsEachOnce (binding_order variables.now) found result }
{
    without_neighbours(variables, in_order(variables, found))
}
