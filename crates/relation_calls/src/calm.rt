//! Which relations are calm: no chain that is refused is come to by a call of one, whatever the models are.
//! It is found once for a relation, through at most `MAX_DEPTH` calls within one another; a relation that is
//! looked at behind them isn't taken for calm.
ghost use Rattle.std.specs.Prelude.{◌≡◌, ◌≤◌, ℕ, [], ◌∷◌, suc, IfOk, IfSome, slice_get, Some};
ghost use Rattle.qvtr_semantics.specs.declared.limits.TheConstants.{MAX_CALLS};
ghost use Rattle.relation_calls.specs.Calm.{IsHeightOf, IsHeightIn};
ghost use Rattle.relation_calls.specs.Memos.{IsTold};

use crate::memo::Memo;
use crate::visit::Visit;
use mof_metamodel::NoMemory;
use qv_syntax::{Conj, Rel};
use qvtr_semantics::MAX_CALLS;

/// Through how many calls within one another relations are looked at.
pub(crate) const MAX_DEPTH: u32 = 128;

/// The calls of a chain with one more at its begin, if it may have so many.
fn one_more(calls: Option<usize>) -> Option<usize>
    ensures { IfSome result (λ more. (n : ℕ) × (calls ≡ Some n) × (n ≤ MAX_CALLS) × (more ≡ suc n)) }
{
    match calls {
        Some(calls) => if calls <= MAX_CALLS {
            Some(calls + 1)
        } else {
            None
        },
        None => None,
    }
}

/// A number of calls that the chains of a relation don't exceed, if it is found to be calm.
#[cycle(calm)]
fn height_by(
    visit: &Visit<'_, '_>,
    memo: &mut Memo,
    rel: &Rel,
    depth: u32,
) -> Result<Option<usize>, NoMemory>
    requires told { IsTold visit.now.program.now visit.now.models.now memo.old }
    ensures value { IfOk result (λ height. (number : ℕ) → slice_get visit.now.program.now.rels number ≡ Some rel.now → IsHeightOf visit.now.program.now number height) }
    ensures told { IsTold visit.now.program.now visit.now.models.now memo.new }
{
    match height_in(visit, memo, rel.whens.as_slice(), depth)? {
        Some(_) => {
            let behind = height_in(visit, memo, rel.wheres.as_slice(), depth)?;
            Ok(one_more(behind))
        }
        None => Ok(None),
    }
}

/// The same of the relation of that number.
#[cycle(calm)]
fn height_anew(
    visit: &Visit<'_, '_>,
    memo: &mut Memo,
    number: u32,
    depth: u32,
) -> Result<Option<usize>, NoMemory>
    requires told { IsTold visit.now.program.now visit.now.models.now memo.old }
    ensures value { IfOk result (IsHeightOf visit.now.program.now number) }
    ensures told { IsTold visit.now.program.now visit.now.models.now memo.new }
{
    if depth == 0 {
        return Ok(None);
    }
    match visit.program.rels.as_slice().get(number as usize) {
        Some(rel) => height_by(visit, memo, rel, depth - 1),
        None => Ok(None),
    }
}

/// The same. The answer is kept.
#[cycle(calm)]
fn height_kept(
    visit: &Visit<'_, '_>,
    memo: &mut Memo,
    number: u32,
    depth: u32,
) -> Result<Option<usize>, NoMemory>
    requires told { IsTold visit.now.program.now visit.now.models.now memo.old }
    ensures value { IfOk result (IsHeightOf visit.now.program.now number) }
    ensures told { IsTold visit.now.program.now visit.now.models.now memo.new }
{
    let height = height_anew(visit, memo, number, depth)?;
    memo.keep_height(number, height)?;
    Ok(height)
}

/// The same. An answer that is kept is taken.
#[cycle(calm)]
fn height_of(
    visit: &Visit<'_, '_>,
    memo: &mut Memo,
    number: u32,
    depth: u32,
) -> Result<Option<usize>, NoMemory>
    requires told { IsTold visit.now.program.now visit.now.models.now memo.old }
    ensures value { IfOk result (IsHeightOf visit.now.program.now number) }
    ensures told { IsTold visit.now.program.now visit.now.models.now memo.new }
{
    match memo.kept_height(number) {
        Some(height) => Ok(height),
        None => height_kept(visit, memo, number, depth),
    }
}

/// The same of the relation that a conjunct calls.
#[cycle(calm)]
fn height_at(
    visit: &Visit<'_, '_>,
    memo: &mut Memo,
    conjunct: &Conj,
    depth: u32,
) -> Result<Option<usize>, NoMemory>
    requires told { IsTold visit.now.program.now visit.now.models.now memo.old }
    ensures value { IfOk result (IsHeightIn visit.now.program.now (conjunct.now ∷ [])) }
    ensures told { IsTold visit.now.program.now visit.now.models.now memo.new }
{
    match conjunct {
        Conj::Call(number, _) => height_of(visit, memo, *number, depth),
        _ => Ok(Some(0)),
    }
}

/// The same of all relations that a clause calls.
#[cycle(calm)]
pub(crate) fn height_in(
    visit: &Visit<'_, '_>,
    memo: &mut Memo,
    clause: &[Conj],
    depth: u32,
) -> Result<Option<usize>, NoMemory>
    requires told { IsTold visit.now.program.now visit.now.models.now memo.old }
    ensures value { IfOk result (IsHeightIn visit.now.program.now clause.now) }
    ensures told { IsTold visit.now.program.now visit.now.models.now memo.new }
{
    let mut longest: usize = 0;
    for conjunct in clause {
        match height_at(visit, memo, conjunct, depth)? {
            Some(height) => longest = longest.max(height),
            None => return Ok(None),
        }
    }
    Ok(Some(longest))
}
