//! Marks of numbers: a list of Booleans, the mark of each number at its place.
ghost use Rattle.std.specs.Prelude.{◌≡◌, false, true, slice_set, IfOk};
ghost use Rattle.mof_metamodel.specs.Tables.{table};
ghost use Rattle.qvtr_semantics.specs.Objects.{is_number_among};
ghost use Rattle.template_match.specs.Marks.{is_marked, with_marks};

use mof_metamodel::NoMemory;
use std::alloc::Global;

/// So many marks, of which none is set.
pub fn unmarked(alloc: Global, count: usize) -> Result<Vec<bool>, NoMemory>
    ensures { IfOk result (λ marks. marks.items ≡ table (λ k. false) count) }
{
    Ok(Vec::from_elem(alloc, false, count)?)
}

/// Sets the mark of a number, if it has one.
pub fn mark(marks: &mut [bool], number: u32)
    ensures { marks.new ≡ slice_set marks.old number true }
{
    if (number as usize) < marks.len() {
        marks[number as usize] = true;
    }
}

/// Whether the number is marked.
pub fn is_marked(marks: &[bool], number: u32) -> bool
    ensures { result ≡ is_marked marks.now number }
{
    match marks.get(number as usize) {
        Some(mark) => *mark,
        None => false,
    }
}

/// Sets the marks of these variables.
fn mark_variables(marks: &mut [bool], variables: &[u32])
    ensures { marks.new ≡ with_marks marks.old variables.now }
{
    for variable in variables {
        mark(marks, *variable);
    }
}

/// For each variable below a number whether it is one of these.
pub fn variable_marks(alloc: Global, count: usize, variables: &[u32]) -> Result<Vec<bool>, NoMemory>
    ensures { IfOk result (λ marks. marks.items ≡ table (λ v. is_number_among v variables.now) count) }
{
    let mut marks = unmarked(alloc, count)?;
    mark_variables(marks.as_mut_slice(), variables);
    Ok(marks)
}
