ghost use Rattle.std.specs.Prelude.{◌≡◌, IfOk};
ghost use Rattle.relation_calls.specs.CallOrder.{call_order};
ghost use Rattle.relation_calls.specs.Names.{call_named};

use crate::name::CallName;
use crate::root_key::RootKey;
use mof_metamodel::NoMemory;
use qvtr_semantics::Datum;
use std::alloc::Global;
use std::cmp::Ordering;
use std::marker::Model;
use template_match::duplicate_value;

/// A call as a key of a table: keys stand in an order of calls, and are equal where the calls are one.
#[derive(Drop)]
pub(crate) struct CallKey {
    rel: u32,
    roots: Vec<RootKey>,
}

impl Model for CallKey {
    ghost use Rattle.qvtr_semantics.specs.Calls.{RelationCall};

    ghost Value = { RelationCall };

    ghost view = { λ k. record { rel = k.rel; roots = k.roots.items } };
}

/// How two keys stand.
fn call_order(one: &CallKey, other: &CallKey) -> Ordering
    ensures { result ≡ call_order one.now other.now }
{
    one.rel.cmp(&other.rel).then(one.roots.cmp(&other.roots))
}

impl PartialEq for CallKey {
    ghost use Rattle.std.specs.Cmp.{partial_equiv_from_equiv};
    ghost use Rattle.std.specs.Ordering.{eq_by_cmp};
    ghost use Rattle.relation_calls.specs.CallOrder.{call_order, same_call_equiv};

    ghost eq = { eq_by_cmp call_order };

    ghost laws = { partial_equiv_from_equiv same_call_equiv };

    fn eq(&self, other: &Self) -> bool {
        call_order(self, other).is_eq()
    }
}

impl Eq for CallKey {
    ghost use Rattle.relation_calls.specs.CallOrder.{same_call_equiv};

    ghost laws = { same_call_equiv };
}

impl PartialOrd for CallKey {
    ghost use Rattle.std.specs.Prelude.{Some};
    ghost use Rattle.std.specs.Cmp.{po};
    ghost use Rattle.std.proofs.Common.{refl};
    ghost use Rattle.relation_calls.specs.CallOrder.{call_order, call_total};

    ghost partial_cmp = { λ c d. Some (call_order c d) };

    ghost laws = { po call_total (λ c d. refl) };

    fn partial_cmp(&self, other: &Self) -> Option<Ordering> {
        Some(self.cmp(other))
    }
}

impl Ord for CallKey {
    ghost use Rattle.std.proofs.Common.{refl};
    ghost use Rattle.relation_calls.specs.CallOrder.{call_order, call_total};

    ghost cmp = { call_order };

    ghost total = { call_total };

    ghost matches_partial_cmp = { λ c d. refl };

    ghost matches_eq = { λ c d. refl };

    fn cmp(&self, other: &Self) -> Ordering {
        call_order(self, other)
    }
}

/// The keys of the values of roots.
fn keys_of(alloc: Global, values: &[Option<Datum>]) -> Result<Vec<RootKey>, NoMemory>
    ensures { IfOk result (λ keys. keys.items ≡ values.now) }
{
    let mut keys = Vec::new(alloc);
    for value in values {
        let value = duplicate_value(alloc, value)?;
        keys.push(RootKey { value })?;
    }
    Ok(keys)
}

/// The key of a call.
pub(crate) fn key_of(alloc: Global, name: &CallName) -> Result<CallKey, NoMemory>
    ensures { IfOk result (λ key. key ≡ call_named name.now) }
{
    let roots = keys_of(alloc, name.roots.values.as_slice())?;
    Ok(CallKey {
        rel: name.rel,
        roots,
    })
}
