ghost use Rattle.std.specs.Prelude.{◌≡◌, cond, nat_lt};
ghost use Rattle.std.specs.declared.cmp.Ordering.TheVariants.{Less, Equal};
ghost use Rattle.repair_semantics.specs.Terms.{term_order};
ghost use Rattle.term_table.specs.TermTables.{term_at, AreDistinct};
ghost use Rattle.term_table.specs.Kept.{trees, AreGrounded};
ghost use Rattle.term_table.specs.Compared.{numbers_compared, values_compared, keys_compared, class_at, keys_at, terms_compared, is_tie};

use crate::kept::Kept;
use crate::numbered::NumberedValue;
use ocl_eval::datum_order;
use std::cmp::Ordering;

/// How two terms of a table stand by their own key values: that is decided, or they stand as two others do, by number.
#[derive(Clone, Copy)]
pub(crate) enum Compared {
    Decided(Ordering),
    As(usize, usize),
}

/// Whether neither comes first.
fn is_tie(compared: Compared) -> bool
    ensures { result ≡ is_tie compared }
{
    match compared {
        Compared::Decided(order) => order.is_eq(),
        Compared::As(..) => false,
    }
}

/// How two values stand.
pub(crate) fn values_compared(one: &NumberedValue, other: &NumberedValue) -> Compared
    ensures { result ≡ values_compared one.now other.now }
{
    match (one, other) {
        (NumberedValue::Val(d), NumberedValue::Val(e)) => Compared::Decided(datum_order(d, e)),
        (NumberedValue::Val(_), NumberedValue::Term(_)) => Compared::Decided(Ordering::Less),
        (NumberedValue::Term(_), NumberedValue::Val(_)) => Compared::Decided(Ordering::Greater),
        (NumberedValue::Term(m), NumberedValue::Term(n)) => terms_with(*m, *n),
    }
}

/// How two terms stand by their numbers alone.
fn terms_with(one: usize, other: usize) -> Compared
    ensures { result ≡ numbers_compared one other }
{
    if one == other {
        Compared::Decided(Ordering::Equal)
    } else {
        Compared::As(one, other)
    }
}

/// How two lists of key values stand: as the first that differ.
fn keys_compared(ones: &[NumberedValue], others: &[NumberedValue]) -> Compared
    ensures { result ≡ keys_compared ones.now others.now }
{
    for (place, one) in ones.iter().enumerate() {
        let Some(other) = others.get(place) else {
            return Compared::Decided(Ordering::Greater);
        };
        let compared = values_compared(one, other);
        if !is_tie(compared) {
            return compared;
        }
    }
    Compared::Decided(ended(ones.len(), others.len()))
}

/// How two lists stand that are the same up to the end of the first: that one comes first if it is shorter.
pub(crate) fn ended(first: usize, second: usize) -> Ordering
    ensures { result ≡ cond (nat_lt first second) Less Equal }
{
    if first < second {
        Ordering::Less
    } else {
        Ordering::Equal
    }
}

/// The number of the class of a term, 0 for a number outside.
fn class_at(kept: &[Kept], number: usize) -> u32
    ensures { result ≡ class_at kept.now number }
{
    match kept.get(number) {
        Some(one) => one.term.class.0,
        None => 0,
    }
}

/// The key values of a term, none for a number outside.
fn keys_at(kept: &[Kept], number: usize) -> &[NumberedValue]
    ensures { result.now ≡ keys_at kept.now number }
{
    match kept.get(number) {
        Some(one) => one.term.keys.as_slice(),
        None => &[],
    }
}

/// How two terms stand by their classes and key values.
fn terms_compared(kept: &[Kept], one: usize, other: usize) -> Compared
    ensures { result ≡ terms_compared kept.now one other }
{
    match class_at(kept, one).cmp(&class_at(kept, other)) {
        Ordering::Equal => keys_compared(keys_at(kept, one), keys_at(kept, other)),
        order => Compared::Decided(order),
    }
}

/// How two terms stand in the order of terms. It goes down one path, since terms with one number are one.
pub(crate) fn order_of(kept: &[Kept], mut one: usize, mut other: usize) -> Ordering
    requires grounded { AreGrounded kept.now }
    requires distinct { AreDistinct (trees kept.now) }
    ensures { result ≡ term_order (term_at (trees kept.now) one) (term_at (trees kept.now) other) }
{
    while one != other {
        match terms_compared(kept, one, other) {
            Compared::Decided(order) => return order,
            Compared::As(m, n) => {
                one = m;
                other = n;
            }
        }
    }
    Ordering::Equal
}
