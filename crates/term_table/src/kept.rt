ghost use Rattle.std.specs.Prelude.{◌≡◌, ◌≤◌, ◌<◌, ◌+◌, ℕ, suc, map, length, All, IfOk, OnOk, OnErr};
ghost use Rattle.repair_semantics.specs.Terms.{greatest};
ghost use Rattle.term_table.specs.TermTables.{IsBelow};
ghost use Rattle.term_table.specs.Kept.{kept_height, AreLow};

use crate::copying::duplicate_term;
use crate::numbered::{NumberedTerm, NumberedValue};
use mof_metamodel::NoMemory;
use std::alloc::Global;

/// A term of a table with its height.
#[derive(Drop)]
pub(crate) struct Kept {
    pub(crate) term: NumberedTerm,
    pub(crate) height: usize,
}

/// The height of a key value: that of its term, 0 for a datum.
fn key_height(kept: &[Kept], key: &NumberedValue) -> usize
    requires { IsBelow (length kept.now) key.now }
    ensures { result ≡ kept_height kept.now key.now }
{
    match key {
        NumberedValue::Val(_) => 0,
        NumberedValue::Term(number) => kept[*number].height,
    }
}

/// The greatest height of some key values, or 0.
fn greatest_height(kept: &[Kept], keys: &[NumberedValue]) -> usize
    requires { All (IsBelow (length kept.now)) keys.now }
    ensures { result ≡ greatest (map (kept_height kept.now) keys.now) }
{
    let mut most = 0;
    for key in keys {
        most = most.max(key_height(kept, key));
    }
    most
}

/// A copy of the term with its height.
pub(crate) fn kept_of(alloc: Global, kept: &[Kept], term: &NumberedTerm) -> Result<Kept, NoMemory>
    requires within { All (IsBelow (length kept.now)) term.now.keys }
    requires low { AreLow kept.now }
    ensures term { IfOk result (λ k. k.term ≡ term.now) }
    ensures height { IfOk result (λ k. k.height ≡ suc (greatest (map (kept_height kept.now) term.now.keys))) }
{
    let height = greatest_height(kept, term.keys.as_slice()) + 1;
    let term = duplicate_term(alloc, term)?;
    Ok(Kept { term, height })
}
