//! Bindings of the relations of a program over small models, beside those that trying all finds.
ghost use Rattle.std.specs.Prelude.{◌≡◌, ◌<◌, ◌^◌, length, All, IsTrue};
ghost use Rattle.qv_syntax.specs.WellFormed.{IsWellFormed};
ghost use Rattle.template_match.specs.Plans.{IsPlanOf};
ghost use Rattle.template_match.specs.Posed.{HasValue};
ghost use Rattle.repair_cases.specs.Roots.{IsGiven};

use crate::binding_tally::{BindingTally, Compared};
use crate::dice::Dice;
use crate::plain_calls::{Account, no_values, with_value};
use crate::plain_error::PlainError;
use crate::plain_reading::{may_be, value_of};
use crate::plain_search::plain_bindings;
use mof_metamodel::NoMemory;
use ocl_environments::Metas;
use ocl_eval::duplicate_datum;
use qv_syntax::{Dom, Rel};
use qvtr_semantics::{Binding, Datum};
use repair_account::Told;
use template_match::{Plan, Side, bindings, plan_of, target_bindings};

/// How many bindings of a source are extended to the target, at most.
const EXTENDED: usize = 3;

/// How many choices of fixed values are tried of a relation: none, of roots, and of any variables.
const ROUNDS: u32 = 3;

/// A random program over random models.
#[derive(Clone, Copy)]
pub struct Trial<'a, 'm> {
    pub metas: &'a Metas,
    pub account: Account<'a, 'm>,
}

/// A relation of it.
#[derive(Clone, Copy)]
pub struct Tried<'a, 'm> {
    pub trial: Trial<'a, 'm>,
    pub rel: &'a Rel,
    pub plan: &'a Plan,
}

impl<'a, 'm> Trial<'a, 'm> {
    /// What is told of it.
    pub fn told(&self) -> Told<'a, 'm> {
        Told {
            alloc: self.account.alloc,
            program: self.account.program,
            metas: self.metas,
            models: self.account.models,
        }
    }
}

/// Whether a variable has a value.
fn has_value(binding: &Binding, variable: u32) -> bool
    ensures { IsTrue result → HasValue binding.now.values variable }
{
    value_of(binding, variable).is_some()
}

/// Whether each of the variables has.
fn have_values(variables: &[u32], binding: &Binding) -> bool
    ensures { IsTrue result → All (HasValue binding.now.values) variables.now }
{
    for variable in variables {
        if !has_value(binding, *variable) {
            return false;
        }
    }
    true
}

/// Whether a binding has a place for each variable of a relation.
fn has_places(rel: &Rel, binding: &Binding) -> bool
    ensures { IsTrue result → length binding.now.values ≡ length rel.now.vars }
{
    binding.values.len() == rel.vars.len()
}

/// Whether the root of a domain has a value, if the domain is primitive.
fn is_given(roots: &Binding, dom: &Dom) -> bool
    ensures { IsTrue result → IsGiven roots.now.values dom.now }
{
    dom.model.is_some() || has_value(roots, dom.root)
}

/// Whether the roots of primitive domains have values.
fn are_given(roots: &Binding, domains: &[Dom]) -> bool
    ensures { IsTrue result → All (IsGiven roots.now.values) domains.now }
{
    for dom in domains {
        if !is_given(roots, dom) {
            return false;
        }
    }
    true
}

/// Compares what was found with what trying all finds.
fn compare(
    of: &Tried<'_, '_>,
    tally: &mut BindingTally,
    side: Side,
    fixed: &Binding,
    found: &[Binding],
) -> Result<(), NoMemory> {
    let account = &of.trial.account;
    match plain_bindings(&account.reading(of.rel), account.all, side, fixed) {
        Ok(plain) => {
            let compared = Compared {
                told: of.trial.told(),
                rel: of.rel,
                side: match side {
                    Side::Source => " source",
                    Side::Target => " target",
                },
                fixed,
            };
            tally.count(&compared, found, plain.as_slice());
            Ok(())
        }
        Err(PlainError::TooMany) => {
            tally.count_passed_over();
            Ok(())
        }
        Err(PlainError::NoMemory) => Err(NoMemory),
    }
}

/// Compares the bindings of the target that extend a binding of the source.
fn compare_target(
    of: &Tried<'_, '_>,
    tally: &mut BindingTally,
    binding: &Binding,
) -> Result<(), NoMemory>
    requires formed { IsWellFormed of.now.trial.metas.now of.now.trial.account.program.now }
    requires planned { IsPlanOf of.now.trial.account.program.now of.now.plan.now.rel of.now.rel.now of.now.plan.now }
{
    if !has_places(of.rel, binding) {
        return Ok(());
    }
    if !have_values(of.rel.universal.as_slice(), binding) {
        return Ok(());
    }
    let account = &of.trial.account;
    let found = target_bindings(
        account.alloc,
        account.program,
        of.plan,
        account.models,
        binding,
    )?;
    compare(of, tally, Side::Target, binding, found.as_slice())
}

/// The same of the first of some bindings.
fn compare_targets(
    of: &Tried<'_, '_>,
    tally: &mut BindingTally,
    found: &[Binding],
) -> Result<(), NoMemory>
    requires formed { IsWellFormed of.now.trial.metas.now of.now.trial.account.program.now }
    requires planned { IsPlanOf of.now.trial.account.program.now of.now.plan.now.rel of.now.rel.now of.now.plan.now }
{
    for binding in found.iter().take(EXTENDED) {
        compare_target(of, tally, binding)?;
    }
    Ok(())
}

/// Compares the bindings of the source with some roots, and those of the target that extend the first of
/// them.
fn compare_with(
    of: &Tried<'_, '_>,
    tally: &mut BindingTally,
    fixed: &Binding,
) -> Result<(), NoMemory>
    requires formed { IsWellFormed of.now.trial.metas.now of.now.trial.account.program.now }
    requires planned { IsPlanOf of.now.trial.account.program.now of.now.plan.now.rel of.now.rel.now of.now.plan.now }
{
    if !has_places(of.rel, fixed) {
        return Ok(());
    }
    if !are_given(fixed, of.rel.domains.as_slice()) {
        return Ok(());
    }
    let account = &of.trial.account;
    let found = bindings(
        account.alloc,
        account.program,
        of.plan,
        account.models,
        fixed,
    )?;
    compare(of, tally, Side::Source, fixed, found.as_slice())?;
    compare_targets(of, tally, found.as_slice())
}

/// A random value that a variable may have, seldom any value.
fn random_datum<'a>(
    account: &Account<'a, '_>,
    dice: &mut Dice,
    rel: &Rel,
    variable: u32,
) -> Option<&'a Datum> {
    let var = rel.vars.as_slice().get(variable as usize)?;
    let is_any = dice.below(8) == 0;
    let mut found = None;
    for datum in account.all {
        let suits = is_any || may_be(account.models, var, datum);
        if suits && (found.is_none() || dice.below(3) == 0) {
            found = Some(datum);
        }
    }
    found
}

/// Gives a variable a random value.
fn fix(
    of: &Tried<'_, '_>,
    dice: &mut Dice,
    fixed: Binding,
    variable: u32,
) -> Result<Binding, NoMemory> {
    let account = &of.trial.account;
    match random_datum(account, dice, of.rel, variable) {
        Some(datum) => {
            let datum = duplicate_datum(account.alloc, datum)?;
            Ok(with_value(fixed, variable, datum))
        }
        None => Ok(fixed),
    }
}

/// Random roots; in the first round those of primitive domains alone.
fn random_roots(of: &Tried<'_, '_>, dice: &mut Dice, round: u32) -> Result<Binding, NoMemory> {
    let mut fixed = no_values(of.trial.account.alloc, of.rel)?;
    for dom in of.rel.domains.as_slice() {
        if dom.model.is_none() || (round > 0 && dice.is_heads()) {
            fixed = fix(of, dice, fixed, dom.root)?;
        }
    }
    Ok(fixed)
}

/// The same, and in the last round values of other variables.
fn random_values(of: &Tried<'_, '_>, dice: &mut Dice, round: u32) -> Result<Binding, NoMemory> {
    let mut fixed = random_roots(of, dice, round)?;
    for variable in 0..fixed.values.len().min(100) as u32 {
        if round >= ROUNDS - 1 && dice.below(4) == 0 {
            fixed = fix(of, dice, fixed, variable)?;
        }
    }
    Ok(fixed)
}

/// Compares the bindings of a relation, with no values fixed and with random ones.
fn compare_relation(
    of: &Tried<'_, '_>,
    tally: &mut BindingTally,
    dice: &mut Dice,
) -> Result<(), NoMemory>
    requires formed { IsWellFormed of.now.trial.metas.now of.now.trial.account.program.now }
    requires planned { IsPlanOf of.now.trial.account.program.now of.now.plan.now.rel of.now.rel.now of.now.plan.now }
{
    for round in 0..ROUNDS {
        let fixed = random_values(of, dice, round)?;
        compare_with(of, tally, &fixed)?;
    }
    Ok(())
}

/// Compares the bindings of the relation of a number.
fn compare_numbered(
    trial: &Trial<'_, '_>,
    tally: &mut BindingTally,
    dice: &mut Dice,
    number: u32,
) -> Result<(), NoMemory>
    requires formed { IsWellFormed trial.now.metas.now trial.now.account.program.now }
    requires within { number < length trial.now.account.program.now.rels }
{
    let account = &trial.account;
    let plan = plan_of(account.alloc, account.program, number)?;
    let tried = Tried {
        trial: *trial,
        rel: &account.program.rels.as_slice()[number as usize],
        plan: &plan,
    };
    compare_relation(&tried, tally, dice)
}

/// Compares the bindings of each relation of a program.
pub fn compare_relations(
    trial: &Trial<'_, '_>,
    tally: &mut BindingTally,
    dice: &mut Dice,
) -> Result<(), NoMemory>
    requires formed { IsWellFormed trial.now.metas.now trial.now.account.program.now }
    requires few { length trial.now.account.program.now.rels < 2 ^ 32 }
{
    let count = trial.account.program.rels.len() as u32;
    for number in 0..count {
        compare_numbered(trial, tally, dice, number)?;
    }
    Ok(())
}
