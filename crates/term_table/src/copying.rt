ghost use Rattle.std.specs.Prelude.{◌≡◌, ◌↔◌, IfOk, IsTrue};

use crate::numbered::{NumberedTerm, NumberedValue};
use mof_metamodel::{NoMemory, Seq};
use ocl_eval::duplicate_datum;
use std::alloc::Global;

/// Whether two values are one: the same datum, or one number.
#[tactic(auto, using(crate::proofs::NumberLaws::ties_are_one))]
pub fn same_numbered(one: &NumberedValue, other: &NumberedValue) -> bool
    ensures { IsTrue result ↔ (one.now ≡ other.now) }
{
    one == other
}

/// Another of the same value.
pub fn duplicate_numbered(alloc: Global, value: &NumberedValue) -> Result<NumberedValue, NoMemory>
    ensures { IfOk result (λ copy. copy ≡ value.now) }
{
    match value {
        NumberedValue::Val(datum) => Ok(NumberedValue::Val(duplicate_datum(alloc, datum)?)),
        NumberedValue::Term(number) => Ok(NumberedValue::Term(*number)),
    }
}

/// Others of the same key values.
fn duplicate_keys(alloc: Global, keys: &[NumberedValue]) -> Result<Seq<NumberedValue>, NoMemory>
    ensures { IfOk result (λ copies. copies ≡ keys.now) }
{
    let mut copies = Seq::new(alloc);
    for key in keys {
        copies.push(duplicate_numbered(alloc, key)?)?;
    }
    Ok(copies)
}

/// Another of the same term.
pub(crate) fn duplicate_term(alloc: Global, term: &NumberedTerm) -> Result<NumberedTerm, NoMemory>
    ensures { IfOk result (λ copy. copy ≡ term.now) }
{
    let keys = duplicate_keys(alloc, term.keys.as_slice())?;
    Ok(NumberedTerm {
        class: term.class,
        keys,
    })
}
