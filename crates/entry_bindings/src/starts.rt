ghost use Rattle.std.specs.Prelude.{◌≡◌, IfOk};
ghost use Rattle.std.specs.Option.{option_copied, option_map};
ghost use Rattle.term_table.specs.declared.numbered.NumberedValue.TheVariants as numbered;
ghost use Rattle.entry_bindings.specs.Starts.{fixed_value, fixed_values, number_of, is_term, has_term, datum_beside, data_beside, value_beside, start_of};

use mof_metamodel::{NoMemory, Seq};
use object_tables::ObjId;
use ocl_eval::duplicate_datum;
use qvtr_semantics::{Binding, Datum};
use std::alloc::Global;
use template_match::duplicate_value;
use term_table::{NumberedValue, duplicate_numbered};

/// What stands for the value of a root where the sources are searched: an object of the target for a term.
fn fixed_value(alloc: Global, target: u32, value: &NumberedValue) -> Result<Datum, NoMemory>
    ensures { IfOk result (λ d. d ≡ fixed_value target value.now) }
{
    match value {
        NumberedValue::Val(datum) => duplicate_datum(alloc, datum),
        NumberedValue::Term(_) => Ok(Datum::Obj(target, ObjId(0))),
    }
}

/// The same of a root that may have no value.
fn fixed_root(
    alloc: Global,
    target: u32,
    root: &Option<NumberedValue>,
) -> Result<Option<Datum>, NoMemory>
    ensures { IfOk result (λ d. d ≡ option_map (fixed_value target) root.now) }
{
    match root {
        Some(value) => Ok(Some(fixed_value(alloc, target, value)?)),
        None => Ok(None),
    }
}

/// What the search in the sources is given for these roots.
pub(crate) fn fixed_values(
    alloc: Global,
    target: u32,
    roots: &[Option<NumberedValue>],
) -> Result<Binding, NoMemory>
    ensures { IfOk result (λ b. b.values ≡ fixed_values target roots.now) }
{
    let mut values = Seq::new(alloc);
    for root in roots {
        values.push(fixed_root(alloc, target, root)?)?;
    }
    Ok(Binding { values })
}

/// The value of a variable.
pub(crate) fn number_of(b: &[Option<NumberedValue>], variable: usize) -> Option<&NumberedValue>
    ensures { option_copied result ≡ number_of b.now variable }
{
    match b.get(variable) {
        Some(value) => value.as_ref(),
        None => None,
    }
}

/// Whether the value is a term.
pub(crate) fn is_term(value: &NumberedValue) -> bool
    ensures { result ≡ is_term value.now }
{
    match value {
        NumberedValue::Val(_) => false,
        NumberedValue::Term(_) => true,
    }
}

/// Whether a root has a term.
fn has_term(root: Option<&NumberedValue>) -> bool
    ensures { result ≡ has_term (option_copied root.entry) }
{
    match root {
        Some(value) => is_term(value),
        None => false,
    }
}

/// The datum that was found, but for what stands there for the term of a root.
fn datum_beside(
    alloc: Global,
    root: Option<&NumberedValue>,
    datum: &Option<Datum>,
) -> Result<Option<Datum>, NoMemory>
    ensures { IfOk result (λ d. d ≡ datum_beside (option_copied root.entry) datum.now) }
{
    if has_term(root) {
        return Ok(None);
    }
    duplicate_value(alloc, datum)
}

/// The data that were found, but for what stands there for the terms of roots.
#[tactic(auto, using(crate::proofs::StepLaws::data_step, crate::proofs::StepLaws::data_ended))]
pub(crate) fn data_beside(
    alloc: Global,
    roots: &[Option<NumberedValue>],
    found: &[Option<Datum>],
) -> Result<Binding, NoMemory>
    ensures { IfOk result (λ b. b.values ≡ data_beside roots.now found.now) }
{
    let mut values = Seq::new(alloc);
    for i in 0..found.len() {
        values.push(datum_beside(alloc, number_of(roots, i), &found[i])?)?;
    }
    Ok(Binding { values })
}

/// Another of the same value, or of none.
pub(crate) fn duplicate_place(
    alloc: Global,
    value: &Option<NumberedValue>,
) -> Result<Option<NumberedValue>, NoMemory>
    ensures { IfOk result (λ copy. copy ≡ value.now) }
{
    match value {
        Some(value) => Ok(Some(duplicate_numbered(alloc, value)?)),
        None => Ok(None),
    }
}

/// The datum as a value of a variable.
fn datum_value(alloc: Global, datum: &Option<Datum>) -> Result<Option<NumberedValue>, NoMemory>
    ensures { IfOk result (λ v. v ≡ option_map numbered.Val datum.now) }
{
    match datum {
        Some(datum) => Ok(Some(NumberedValue::Val(duplicate_datum(alloc, datum)?))),
        None => Ok(None),
    }
}

/// Another of the same value, if there is one.
fn duplicate_root(
    alloc: Global,
    value: Option<&NumberedValue>,
) -> Result<Option<NumberedValue>, NoMemory>
    ensures { IfOk result (λ copy. copy ≡ option_copied value.entry) }
{
    match value {
        Some(value) => Ok(Some(duplicate_numbered(alloc, value)?)),
        None => Ok(None),
    }
}

/// The term of a root, or else the datum that was found.
fn value_beside(
    alloc: Global,
    root: Option<&NumberedValue>,
    datum: &Option<Datum>,
) -> Result<Option<NumberedValue>, NoMemory>
    ensures { IfOk result (λ v. v ≡ value_beside (option_copied root.entry) datum.now) }
{
    if has_term(root) {
        return duplicate_root(alloc, root);
    }
    datum_value(alloc, datum)
}

/// The binding to begin with: the terms of roots, and elsewhere the data that were found.
#[tactic(auto, using(crate::proofs::StepLaws::start_step, crate::proofs::StepLaws::start_ended))]
pub(crate) fn start_of(
    alloc: Global,
    roots: &[Option<NumberedValue>],
    found: &[Option<Datum>],
) -> Result<Seq<Option<NumberedValue>>, NoMemory>
    ensures { IfOk result (λ b. b ≡ start_of roots.now found.now) }
{
    let mut values = Seq::new(alloc);
    for i in 0..found.len() {
        values.push(value_beside(alloc, number_of(roots, i), &found[i])?)?;
    }
    Ok(values)
}

/// Others of the same values.
pub(crate) fn duplicate_roots(
    alloc: Global,
    roots: &[NumberedValue],
) -> Result<Seq<NumberedValue>, NoMemory>
    ensures { IfOk result (λ copies. copies ≡ roots.now) }
{
    let mut copies = Seq::new(alloc);
    for root in roots {
        copies.push(duplicate_numbered(alloc, root)?)?;
    }
    Ok(copies)
}

/// Others of the same values of variables.
pub(crate) fn duplicate_places(
    alloc: Global,
    values: &[Option<NumberedValue>],
) -> Result<Seq<Option<NumberedValue>>, NoMemory>
    ensures { IfOk result (λ copies. copies ≡ values.now) }
{
    let mut copies = Seq::new(alloc);
    for value in values {
        copies.push(duplicate_place(alloc, value)?)?;
    }
    Ok(copies)
}
