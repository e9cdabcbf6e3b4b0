ghost use Rattle.std.specs.Prelude.{◌≡◌};
ghost use Rattle.std.specs.List.{dedup};
ghost use Rattle.std.specs.List.Sorted.{IsPermutation, IsSorted, IsStrictlySortedBy};
ghost use Rattle.std.specs.Ordering.{eq_by_cmp};
ghost use Rattle.key_index.specs.ValueOrder.{kind_number, value_order};
ghost use Rattle.key_index.specs.HolderOrder.{key_order, holder_order};

use crate::holder::Holder;
use mof_metamodel::PropId;
use object_tables::Value;
use std::cmp::Ordering;

fn kind_number(v: &Value) -> u8
    ensures { result ≡ kind_number v.now }
{
    match v {
        Value::Str(_) => 0,
        Value::Int(_) => 1,
        Value::Bool(_) => 2,
        Value::Lit(..) => 3,
    }
}

/// How two values of attributes stand: Strings, Integers, Booleans with false before true, literals by their enumeration and number.
/// They tie exactly where they are equal.
pub fn value_order(v: &Value, w: &Value) -> Ordering
    ensures { result ≡ value_order v.now w.now }
{
    match (v, w) {
        (Value::Str(s), Value::Str(t)) => s.cmp(t),
        (Value::Int(i), Value::Int(j)) => i.cmp(j),
        (Value::Bool(b), Value::Bool(c)) => b.cmp(c),
        (Value::Lit(e, n), Value::Lit(f, k)) => e.0.cmp(&f.0).then(n.cmp(k)),
        _ => kind_number(v).cmp(&kind_number(w)),
    }
}

/// How the attribute and the value of a holder stand to others.
pub(crate) fn key_order(holder: &Holder, prop: PropId, value: &Value) -> Ordering
    ensures { result ≡ key_order (holder.now.prop.0, holder.now.value) (prop.0, value.now) }
{
    let attributes = holder.prop.0.cmp(&prop.0);
    attributes.then(value_order(&holder.value, value))
}

/// How two holders stand.
fn holder_order(one: &Holder, other: &Holder) -> Ordering
    ensures { result ≡ holder_order one.now other.now }
{
    key_order(one, other.prop, &other.value).then(one.object.0.cmp(&other.object.0))
}

/// The holders in their order.
pub(crate) fn in_order(holders: Vec<Holder>) -> Vec<Holder>
    ensures same { IsPermutation holders.items result.items }
    ensures sorted { IsSorted holder_order result.items }
{
    let mut holders = holders;
    holders.sort_unstable_by(|one, other| holder_order(one, other));
    holders
}

/// Of neighbours that are the same the first.
pub(crate) fn without_neighbours(holders: Vec<Holder>) -> Vec<Holder>
    ensures { result.items ≡ dedup (λ h k. eq_by_cmp holder_order h k) holders.items }
{
    let mut holders = holders;
    holders.dedup_by(|later, kept| holder_order(later, kept).is_eq());
    holders
}
