ghost use Rattle.std.specs.Prelude.{◌≡◌};
ghost use Rattle.std.specs.Cmp.Lexicographic.{pointwise};
ghost use Rattle.qvtr_semantics.specs.Data.{same_datum};
ghost use Rattle.qvtr_semantics.specs.Equality.{same_kind, equal, unequal, is_defined};

use crate::booleans::negation;
use crate::datum::same_datum;
use qv_syntax::Kind;
use qvtr_semantics::{Datum, Out};

/// Whether two kinds of collections are one.
pub fn same_kind(k: Kind, l: Kind) -> bool
    ensures { result ≡ same_kind k l }
{
    match (k, l) {
        (Kind::Set, Kind::Set) => true,
        (Kind::Bag, Kind::Bag) => true,
        (Kind::Sequence, Kind::Sequence) => true,
        (Kind::OrderedSet, Kind::OrderedSet) => true,
        _ => false,
    }
}

#[tactic(auto, using(crate::proofs::EqualityLaws::same_from, crate::proofs::EqualityLaws::other_length, crate::proofs::EqualityLaws::same_at_end))]
fn same_data(ds: &[Datum], es: &[Datum]) -> bool
    ensures { result ≡ pointwise same_datum ds.now es.now }
{
    if ds.len() != es.len() {
        return false;
    }
    for i in 0..ds.len() {
        if !same_datum(&ds[i], &es[i]) {
            return false;
        }
    }
    true
}

/// `x = y` (OCL 2.4, sections 11.3.1 and 11.7.1): objects are equal where they are one object, collections where their kinds and their
/// contents agree, and `null` is equal to `null` alone. `None` is invalid.
pub fn equal(x: &Out, y: &Out) -> Option<bool>
    ensures { result ≡ equal x.now y.now }
{
    match (x, y) {
        (Out::Invalid, _) => None,
        (_, Out::Invalid) => None,
        (Out::Null, Out::Null) => Some(true),
        (Out::One(d), Out::One(e)) => Some(same_datum(d, e)),
        (Out::Many(k, ds), Out::Many(l, es)) => {
            Some(same_kind(*k, *l) && same_data(ds.as_slice(), es.as_slice()))
        }
        _ => Some(false),
    }
}

/// `x <> y`.
pub fn unequal(x: &Out, y: &Out) -> Option<bool>
    ensures { result ≡ unequal x.now y.now }
{
    negation(equal(x, y))
}

/// Whether the value is neither `null` nor `invalid`.
pub fn is_defined(x: &Out) -> bool
    ensures { result ≡ is_defined x.now }
{
    match x {
        Out::One(_) => true,
        Out::Many(..) => true,
        Out::Null => false,
        Out::Invalid => false,
    }
}
