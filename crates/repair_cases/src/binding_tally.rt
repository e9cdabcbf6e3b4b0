//! How many bindings of random relations were compared, and how.
use crate::plain_reading::value_of;
use case_texts::Pen;
use mof_metamodel::NoMemory;
use ocl_eval::same_datum;
use qv_syntax::Rel;
use qvtr_semantics::{Binding, Datum};
use repair_account::{Told, put_datum};
use std::alloc::Global;

/// How many comparisons there were, and what they found.
#[derive(Drop)]
pub struct BindingTally {
    alloc: Global,
    /// Comparisons of the bindings of a source or a target.
    compared: u64,
    /// Those that found some binding.
    filled: u64,
    /// All bindings that were found.
    found: u64,
    /// Those for which there are too many tuples to try.
    passed_over: u64,
    satisfied: u64,
    failing: u64,
    refused: u64,
    other: u64,
    seed: u64,
    first_other: Option<u64>,
    /// Whether each comparison is told.
    pub is_told: bool,
    pub pen: Pen,
}

fn one_more(count: &mut u64) {
    *count = count.saturating_add(1);
}

/// Whether two values are one, or there is neither.
fn are_alike(one: Option<&Datum>, other: Option<&Datum>) -> bool {
    match (one, other) {
        (Some(one), Some(other)) => same_datum(one, other),
        (None, None) => true,
        _ => false,
    }
}

/// Whether two bindings give all variables the same values.
pub fn is_same_binding(one: &Binding, other: &Binding) -> bool {
    if one.values.len() != other.values.len() {
        return false;
    }
    for variable in 0..one.values.len().min(100) as u32 {
        if !are_alike(value_of(one, variable), value_of(other, variable)) {
            return false;
        }
    }
    true
}

/// Whether two lists have the same bindings in the same order.
fn are_same_bindings(some: &[Binding], others: &[Binding]) -> bool {
    if some.len() != others.len() {
        return false;
    }
    for (one, other) in some.iter().zip(others) {
        if !is_same_binding(one, other) {
            return false;
        }
    }
    true
}

/// A binding on a line.
fn put_binding(pen: &mut Pen, told: &Told<'_, '_>, rel: &Rel, binding: &Binding) {
    let mut number = 0u32;
    for var in rel.vars.as_slice() {
        if let Some(datum) = value_of(binding, number) {
            pen.put(" ");
            pen.put(var.name.as_str());
            pen.put("=");
            put_datum(pen, told, datum);
        }
        number = number.saturating_add(1);
    }
}

/// Bindings, a line each behind a word.
fn put_bindings(pen: &mut Pen, told: &Told<'_, '_>, rel: &Rel, word: &str, bindings: &[Binding]) {
    for binding in bindings {
        pen.put("\n  ");
        pen.put(word);
        put_binding(pen, told, rel, binding);
    }
}

/// What is compared: the bindings of a side of a relation that extend some values.
#[derive(Clone, Copy)]
pub struct Compared<'a, 'm> {
    pub told: Told<'a, 'm>,
    pub rel: &'a Rel,
    pub side: &'static str,
    pub fixed: &'a Binding,
}

impl BindingTally {
    /// Of no comparison.
    pub fn new(alloc: Global, is_told: bool) -> Result<BindingTally, NoMemory> {
        Ok(BindingTally {
            alloc,
            compared: 0,
            filled: 0,
            found: 0,
            passed_over: 0,
            satisfied: 0,
            failing: 0,
            refused: 0,
            other: 0,
            seed: 0,
            first_other: None,
            is_told,
            pen: Pen::new(alloc)?,
        })
    }

    /// Goes on to another seed.
    pub fn begin(&mut self, seed: u64) {
        self.seed = seed;
    }

    /// Counts a script that isn't one in a direction.
    pub fn count_refused(&mut self) {
        one_more(&mut self.refused);
    }

    /// Counts what has too many tuples to try.
    pub fn count_passed_over(&mut self) {
        one_more(&mut self.passed_over);
    }

    /// Counts something that isn't the same.
    fn count_other(&mut self) {
        one_more(&mut self.other);
        if self.first_other.is_none() {
            self.first_other = Some(self.seed);
        }
    }

    /// Counts a comparison of bindings with those that trying all finds.
    pub fn count(&mut self, compared: &Compared<'_, '_>, found: &[Binding], plain: &[Binding]) {
        one_more(&mut self.compared);
        self.found = self.found.saturating_add(found.len() as u64);
        if !found.is_empty() {
            one_more(&mut self.filled);
        }
        let is_same = are_same_bindings(found, plain);
        if !is_same {
            self.count_other();
        }
        if self.is_told {
            self.tell(compared, found, plain, is_same);
        }
    }

    fn tell(
        &mut self,
        compared: &Compared<'_, '_>,
        found: &[Binding],
        plain: &[Binding],
        is_same: bool,
    ) {
        let pen = &mut self.pen;
        pen.put("\n");
        pen.put(compared.rel.name.as_str());
        pen.put(compared.side);
        put_binding(pen, &compared.told, compared.rel, compared.fixed);
        pen.put(if is_same { " the same" } else { " other" });
        put_bindings(pen, &compared.told, compared.rel, "found", found);
        if !is_same {
            put_bindings(pen, &compared.told, compared.rel, "tried", plain);
        }
    }

    /// Counts a verdict, and whether trying all comes to the same.
    pub fn count_verdict(&mut self, is_satisfied: bool, is_same: bool) {
        if is_satisfied {
            one_more(&mut self.satisfied);
        } else {
            one_more(&mut self.failing);
        }
        if !is_same {
            self.count_other();
        }
        if self.is_told {
            self.pen.put(if is_satisfied {
                "\nsatisfied"
            } else {
                "\nnot satisfied"
            });
            self.pen.put(if is_same { ", the same" } else { ", other" });
        }
    }

    /// The seed of the first trial that trying all ends in another way.
    pub fn first_other(&self) -> Option<u64> {
        self.first_other
    }

    /// What was counted.
    pub fn put(self, pen: &mut Pen) {
        let (compared, filled, found) = (self.compared, self.filled, self.found);
        let (satisfied, failing, other) = (self.satisfied, self.failing, self.other);
        let (passed_over, refused) = (self.passed_over, self.refused);
        pen.put_string(format!(in self.alloc;
            " {compared} compared, {filled} with bindings, {found} bindings"
        ));
        pen.put_string(format!(in self.alloc; "; {satisfied} satisfied, {failing} not"));
        pen.put_string(format!(in self.alloc;
            "; {other} other; {passed_over} passed over, {refused} refused"
        ));
        pen.put_text(self.pen.written());
    }
}
