ghost use Rattle.std.specs.Prelude.{◌≡◌};
ghost use Rattle.std.specs.List.{dedup};
ghost use Rattle.qvtr_semantics.specs.Data.{same_datum, in_order, distinct};

use crate::datum::same_datum;
use crate::order::datum_order;
use mof_metamodel::Seq;
use qvtr_semantics::Datum;

/// The data in the order of values.
pub fn in_order(elements: Seq<Datum>) -> Seq<Datum>
    ensures { result ≡ in_order elements }
{
    let mut data = elements.into_vec();
    data.sort_unstable_by(|d, e| datum_order(d, e));
    Seq::from_vec(data)
}

// of neighbours that are the same the first
fn without_neighbours(elements: Seq<Datum>) -> Seq<Datum>
    ensures { result ≡ dedup same_datum elements }
{
    let mut data = elements.into_vec();
    data.dedup_by(|later, kept| same_datum(later, kept));
    Seq::from_vec(data)
}

/// The data in the order of values, each once.
#[tactic(auto, using(crate::proofs::SetLaws::set_in_order))]
pub fn set_in_order(elements: Seq<Datum>) -> Seq<Datum>
    ensures { result ≡ in_order (distinct elements) }
{
    without_neighbours(in_order(elements))
}
