//! Candidates for open variables in the rows of joins.
ghost use Rattle.std.specs.Prelude.{◌≡◌, true, Some, slice_get, Contains, IfSome};
ghost use Rattle.template_match.specs.Branches.{IsChoice};
ghost use Rattle.template_match.specs.JoinRows.{TellsRows};
ghost use Rattle.template_match.specs.Prepared.{problem_in, IsPrepared};
ghost use Rattle.template_match.specs.Search.{is_open};

use crate::agenda::{Agenda, COMPARED_PARTS};
use crate::candidates::Candidates;
use crate::choice::Choice;
use crate::choosing::{choice, fewer};
use crate::join::Join;
use crate::joins::bound_rows;
use crate::opening::is_open;
use crate::part::numbered;
use crate::prepared::Prepared;
use qvtr_semantics::Binding;

/// The variable, if there is one and it is open.
fn open_variable(
    prepared: &Prepared<'_, '_, '_>,
    binding: &Binding,
    variable: Option<u32>,
) -> Option<u32>
    requires prepared { IsPrepared prepared.now binding.now.values }
    ensures { IfSome result (λ v. (variable ≡ Some v) × (is_open (problem_in prepared.now) binding.now.values v ≡ true)) }
{
    match variable {
        Some(variable) => {
            if is_open(prepared, binding, variable) {
                Some(variable)
            } else {
                None
            }
        }
        None => None,
    }
}

/// The first column of a join whose variable is open, with that variable.
fn open_column(
    prepared: &Prepared<'_, '_, '_>,
    binding: &Binding,
    join: &Join<'_>,
) -> Option<(usize, u32)>
    requires prepared { IsPrepared prepared.now binding.now.values }
    ensures { IfSome result (λ x. (slice_get join.now.variables x.0 ≡ Some (Some x.1)) × (is_open (problem_in prepared.now) binding.now.values x.1 ≡ true)) }
{
    for (column, variable) in join.variables.as_slice().iter().enumerate() {
        if let Some(found) = open_variable(prepared, binding, *variable) {
            return Some((column, found));
        }
    }
    None
}

/// What the data in a column of rows give its variable, if that is open and these are all rows in which the
/// binding may stand.
fn rows_choice<'a>(
    prepared: &Prepared<'_, 'a, '_>,
    binding: &Binding,
    join: &Join<'a>,
    column: usize,
    variable: u32,
    numbers: &'a [usize],
) -> Choice<'a>
    requires prepared { IsPrepared prepared.now binding.now.values }
    requires join { Contains prepared.now.task.now.joins.now join.now }
    requires column { slice_get join.now.variables column ≡ Some (Some variable) }
    requires opens { is_open (problem_in prepared.now) binding.now.values variable ≡ true }
    requires rows { TellsRows join.now binding.now.values numbers.now }
    ensures { IsChoice (problem_in prepared.now) binding.now.values result }
{
    let candidates = Candidates::Rows {
        table: join.table,
        column,
        numbers,
    };
    choice(prepared.task, variable, candidates)
}

/// What the rows of a join with the values of the binding give an open variable.
pub(crate) fn bound_choice<'a>(
    prepared: &Prepared<'_, 'a, '_>,
    binding: &Binding,
    join: &Join<'a>,
) -> Option<Choice<'a>>
    requires prepared { IsPrepared prepared.now binding.now.values }
    requires join { Contains prepared.now.task.now.joins.now join.now }
    ensures { IfSome result (IsChoice (problem_in prepared.now) binding.now.values) }
{
    match open_column(prepared, binding, join) {
        Some((column, variable)) => match bound_rows(join, binding) {
            Some(numbers) => Some(rows_choice(prepared, binding, join, column, variable, numbers)),
            None => None,
        },
        None => None,
    }
}

/// What all rows of a join give an open variable.
fn whole_choice<'a>(
    prepared: &Prepared<'_, 'a, '_>,
    binding: &Binding,
    join: &Join<'a>,
) -> Option<Choice<'a>>
    requires prepared { IsPrepared prepared.now binding.now.values }
    requires join { Contains prepared.now.task.now.joins.now join.now }
    ensures { IfSome result (IsChoice (problem_in prepared.now) binding.now.values) }
{
    match open_column(prepared, binding, join) {
        Some((column, variable)) => match join.table.order_by(column) {
            Some(order) => {
                let numbers = order.numbers.as_slice();
                Some(rows_choice(prepared, binding, join, column, variable, numbers))
            }
            None => None,
        },
        None => None,
    }
}

/// The fewest candidates that the rows of a join with values of the binding give.
#[tactic(auto, using(crate::proofs::ChoiceLaws::either_choice))]
pub(crate) fn best_bound<'a>(
    prepared: &Prepared<'_, 'a, '_>,
    binding: &Binding,
) -> Option<Choice<'a>>
    requires prepared { IsPrepared prepared.now binding.now.values }
    ensures { IfSome result (IsChoice (problem_in prepared.now) binding.now.values) }
{
    let mut best = None;
    for join in prepared.task.joins {
        best = fewer(best, bound_choice(prepared, binding, join));
    }
    best
}

/// The number of the first join from one on that has an open column.
fn first_open(prepared: &Prepared<'_, '_, '_>, binding: &Binding, from: usize) -> usize
    requires prepared { IsPrepared prepared.now binding.now.values }
{
    let joins = prepared.task.joins;
    for number in from..joins.len() {
        if open_column(prepared, binding, &joins[number]).is_some() {
            return number;
        }
    }
    joins.len()
}

/// The fewest that all rows of a join give: of a few joins, from one on before which none has an open column.
#[tactic(auto, using(crate::proofs::ChoiceLaws::either_choice))]
pub(crate) fn best_whole<'a>(
    prepared: &Prepared<'_, 'a, '_>,
    binding: &Binding,
    agenda: &mut Agenda,
) -> Option<Choice<'a>>
    requires prepared { IsPrepared prepared.now binding.now.values }
    ensures { IfSome result (IsChoice (problem_in prepared.now) binding.now.values) }
{
    let first = first_open(prepared, binding, agenda.join());
    agenda.set_join(first);
    let mut best = None;
    for number in first..first.saturating_add(COMPARED_PARTS) {
        match numbered(prepared.task.joins, number) {
            Some(join) => best = fewer(best, whole_choice(prepared, binding, join)),
            None => return best,
        }
    }
    best
}
