ghost use Rattle.std.specs.Prelude.{◌≡◌, ◌-◌, [], ◌∷◌, ◌++◌, length, IfOk, IfErr};
ghost use Rattle.qvtr_semantics.specs.declared.limits.TheConstants.{MAX_CALLS};
ghost use Rattle.relation_calls.specs.Names.{call_named, chain_named};
ghost use Rattle.relation_calls.specs.Faults.{IsFault};
ghost use Rattle.relation_calls.specs.Visits.{IsChain};

use crate::copying::{chain_with, is_among};
use crate::error::CallError;
use crate::name::CallName;
use mof_metamodel::Seq;
use qvtr_semantics::MAX_CALLS;
use std::alloc::Global;

/// How many calls a chain may still have.
pub(crate) fn calls_left(upto: &[CallName]) -> usize
    requires { IsChain (chain_named upto.now) }
    ensures { result ≡ MAX_CALLS - length (chain_named upto.now) }
{
    MAX_CALLS - upto.len()
}

/// The chain with one call more. It is refused where the call is one of the chain, and where the chain has as many as there may be.
pub(crate) fn longer_chain(
    alloc: Global,
    upto: &[CallName],
    name: &CallName,
) -> Result<Seq<CallName>, CallError>
    requires { IsChain (chain_named upto.now) }
    ensures longer { IfOk result (λ names. chain_named names ≡ chain_named upto.now ++ call_named name.now ∷ []) }
    ensures whole { IfOk result (λ names. IsChain (chain_named names)) }
    ensures fault { IfErr result (IsFault (λ chain. chain ≡ chain_named upto.now ++ call_named name.now ∷ [])) }
{
    let names = chain_with(alloc, upto, name)?;
    if is_among(upto, name) {
        return Err(CallError::Cycle(names));
    }
    if upto.len() >= MAX_CALLS {
        return Err(CallError::Deep(names));
    }
    Ok(names)
}
