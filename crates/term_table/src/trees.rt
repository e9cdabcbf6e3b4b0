ghost use Rattle.std.specs.Prelude.{◌≡◌, ◌<◌, ◌≤◌, map, length, All, IfOk};
ghost use Rattle.term_table.specs.TermTables.{term_at, value_in, IsBelow};
ghost use Rattle.term_table.specs.Kept.{trees, AreGrounded};

use crate::kept::Kept;
use crate::numbered::NumberedValue;
use mof_metamodel::{NoMemory, Seq};
use ocl_eval::duplicate_datum;
use repair_semantics::{Term, TermValue};
use std::alloc::Global;

/// The tree of a term.
#[cycle(tree)]
pub(crate) fn tree_of(alloc: Global, kept: &[Kept], number: usize) -> Result<Term, NoMemory>
    requires within { number < length kept.now }
    requires grounded { AreGrounded kept.now }
    ensures { IfOk result (λ t. t ≡ term_at (trees kept.now) number) }
{
    let term = &kept[number].term;
    let keys = values_of(alloc, kept, number, term.keys.as_slice())?;
    Ok(Term {
        class: term.class,
        keys,
    })
}

/// The values of key values whose terms have numbers below the bound.
#[cycle(tree)]
fn values_of(
    alloc: Global,
    kept: &[Kept],
    bound: usize,
    keys: &[NumberedValue],
) -> Result<Seq<TermValue>, NoMemory>
    requires within { bound ≤ length kept.now }
    requires below { All (IsBelow bound) keys.now }
    requires grounded { AreGrounded kept.now }
    ensures { IfOk result (λ xs. xs ≡ map (value_in (trees kept.now)) keys.now) }
{
    let mut values = Seq::new(alloc);
    for key in keys {
        values.push(value_of(alloc, kept, bound, key)?)?;
    }
    Ok(values)
}

/// The value whose term, if it is one, has a number below the bound.
#[cycle(tree)]
pub(crate) fn value_of(
    alloc: Global,
    kept: &[Kept],
    bound: usize,
    value: &NumberedValue,
) -> Result<TermValue, NoMemory>
    requires within { bound ≤ length kept.now }
    requires below { IsBelow bound value.now }
    requires grounded { AreGrounded kept.now }
    ensures { IfOk result (λ x. x ≡ value_in (trees kept.now) value.now) }
{
    match value {
        NumberedValue::Val(datum) => Ok(TermValue::Val(duplicate_datum(alloc, datum)?)),
        NumberedValue::Term(number) => Ok(TermValue::Term(tree_of(alloc, kept, *number)?)),
    }
}
