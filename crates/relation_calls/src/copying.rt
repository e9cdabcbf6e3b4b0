ghost use Rattle.std.specs.Prelude.{◌≡◌, ◌↔◌, [], ◌∷◌, ◌++◌, Contains, IfOk, IsTrue};
ghost use Rattle.relation_calls.specs.Names.{call_named, chain_named};

use crate::name::CallName;
use mof_metamodel::{NoMemory, Seq};
use ocl_eval::same_datum;
use qvtr_semantics::Datum;
use std::alloc::Global;
use template_match::duplicate_binding;

/// Another name of the same call.
pub(crate) fn duplicate_name(alloc: Global, name: &CallName) -> Result<CallName, NoMemory>
    ensures { IfOk result (λ n. call_named n ≡ call_named name.now) }
{
    let roots = duplicate_binding(alloc, &name.roots)?;
    Ok(CallName {
        rel: name.rel,
        roots,
    })
}

/// Another chain of the same calls.
fn duplicate_chain(alloc: Global, chain: &[CallName]) -> Result<Seq<CallName>, NoMemory>
    ensures { IfOk result (λ names. chain_named names ≡ chain_named chain.now) }
{
    let mut names = Seq::new(alloc);
    for name in chain {
        names.push(duplicate_name(alloc, name)?)?;
    }
    Ok(names)
}

/// A chain with one call more.
pub(crate) fn chain_with(
    alloc: Global,
    chain: &[CallName],
    name: &CallName,
) -> Result<Seq<CallName>, NoMemory>
    ensures { IfOk result (λ names. chain_named names ≡ chain_named chain.now ++ call_named name.now ∷ []) }
{
    let mut names = duplicate_chain(alloc, chain)?;
    names.push(duplicate_name(alloc, name)?)?;
    Ok(names)
}

/// Whether both are the same value, or none.
fn same_value(one: &Option<Datum>, other: &Option<Datum>) -> bool
    ensures { IsTrue result ↔ (one.now ≡ other.now) }
{
    match (one, other) {
        (Some(d), Some(e)) => same_datum(d, e),
        (None, None) => true,
        _ => false,
    }
}

/// Whether the values are the same, place by place.
fn same_values(one: &[Option<Datum>], other: &[Option<Datum>]) -> bool
    ensures { IsTrue result ↔ (one.now ≡ other.now) }
{
    if one.len() != other.len() {
        return false;
    }
    for i in 0..one.len() {
        if !same_value(&one[i], &other[i]) {
            return false;
        }
    }
    true
}

/// Whether both name the same call.
fn same_call(one: &CallName, other: &CallName) -> bool
    ensures { IsTrue result ↔ (call_named one.now ≡ call_named other.now) }
{
    one.rel == other.rel && same_values(one.roots.values.as_slice(), other.roots.values.as_slice())
}

/// Whether the call is one of the chain.
pub(crate) fn is_among(chain: &[CallName], name: &CallName) -> bool
    ensures { IsTrue result ↔ Contains (chain_named chain.now) (call_named name.now) }
{
    for other in chain {
        if same_call(other, name) {
            return true;
        }
    }
    false
}
