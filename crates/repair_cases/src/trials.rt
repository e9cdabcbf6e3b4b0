//! Repairs of random models, each beside the one of the plain account.
ghost use Rattle.std.specs.Prelude.{◌≡◌, ◌<◌, ◌^◌, length};
ghost use Rattle.qv_syntax.specs.WellFormed.{IsWellFormed};
ghost use Rattle.enforcement_rules.specs.Rules.{IsEnforceable};
ghost use Rattle.evaluation_laws.specs.Evaluable.{IsEvaluable};
ghost use Rattle.entry_finding.specs.Premises.{CanBeEnforced};

use crate::comparing::{compared, put_comparison};
use crate::dice::Dice;
use crate::enforcing::Transformation;
use crate::inputs::{Origin, models_of};
use crate::small::is_enforced_over;
use crate::tally::{Tally, Trial};
use case_texts::Pen;
use mof_metamodel::NoMemory;
use ocl_eval::Models;
use program_texts::texts_are_storable;
use repair_account::put_model;

/// A repair of the target of these models, and of its account.
fn tried(of: &Transformation<'_>, models: &mut Models<'_>) -> Result<Trial, NoMemory>
    requires { CanBeEnforced of.now.metas.now of.now.program.now models.old }
{
    match of.demands(models) {
        Ok(found) => {
            let ended = compared(of, &found, models);
            drop(found);
            Ok(Trial::of(ended?))
        }
        Err(error) => {
            let ended = Trial::refused(&error);
            drop(error);
            ended
        }
    }
}

/// The same, where the program can be enforced over the models.
fn tried_over(of: &Transformation<'_>, models: &mut Models<'_>) -> Result<Trial, NoMemory>
    requires evaluable { IsEvaluable of.now.metas.now of.now.program.now models.old }
    requires relations { length of.now.program.now.rels < 2 ^ 32 }
    requires enforceable { IsEnforceable of.now.metas.now of.now.program.now }
{
    if is_enforced_over(of.program, models) {
        return tried(of, models);
    }
    Ok(Trial::NoTarget)
}

/// The trial of a seed.
fn tried_from(of: &Transformation<'_>, seed: u64) -> Result<Trial, NoMemory>
    requires formed { IsWellFormed of.now.metas.now of.now.program.now }
    requires relations { length of.now.program.now.rels < 2 ^ 32 }
    requires enforceable { IsEnforceable of.now.metas.now of.now.program.now }
{
    let mut origin = Origin::Dice(Dice::new(seed));
    match models_of(
        of.alloc,
        &mut origin,
        of.metas,
        of.program.models.as_slice(),
    )? {
        Some(mut models) => {
            texts_are_storable(of.program);
            let ended = tried_over(of, &mut models);
            drop(models);
            ended
        }
        None => Ok(Trial::NoTarget),
    }
}

/// Models, each behind its name.
fn put_models(pen: &mut Pen, of: &Transformation<'_>, models: &Models<'_>) {
    let told = of.told(models);
    for (number, slot) in of.program.models.as_slice().iter().enumerate() {
        pen.put("\n");
        pen.put(slot.name.as_str());
        put_model(pen, &told, number);
    }
}

/// The models that are drawn from a seed.
fn put_drawn_models(pen: &mut Pen, of: &Transformation<'_>, seed: u64) -> Result<(), NoMemory> {
    let mut origin = Origin::Dice(Dice::new(seed));
    let slots = of.program.models.as_slice();
    if let Some(models) = models_of(of.alloc, &mut origin, of.metas, slots)? {
        put_models(pen, of, &models);
        drop(models);
    }
    Ok(())
}

/// The trial of a seed whole: the models, how the repair ends, and how the account ends it where that is another way.
fn put_trial(pen: &mut Pen, of: &Transformation<'_>, seed: u64) -> Result<(), NoMemory>
    requires formed { IsWellFormed of.now.metas.now of.now.program.now }
    requires relations { length of.now.program.now.rels < 2 ^ 32 }
    requires enforceable { IsEnforceable of.now.metas.now of.now.program.now }
{
    pen.put_string(format!(in of.alloc; "\nseed {seed}"));
    put_drawn_models(pen, of, seed)?;
    if let Trial::Compared(comparison) = tried_from(of, seed)? {
        pen.put("\nrepaired");
        put_comparison(pen, of.alloc, &comparison);
    }
    Ok(())
}

/// How so many trials end from a seed on, with the first whole that the account ends in another way. A single one is told whole.
pub fn put_trials(
    pen: &mut Pen,
    of: &Transformation<'_>,
    count: u32,
    seed: u64,
) -> Result<(), NoMemory>
    requires formed { IsWellFormed of.now.metas.now of.now.program.now }
    requires relations { length of.now.program.now.rels < 2 ^ 32 }
    requires enforceable { IsEnforceable of.now.metas.now of.now.program.now }
{
    let mut tally = Tally::new();
    for number in 0..count {
        let seed = seed.wrapping_add(u64::from(number));
        tally.count(tried_from(of, seed)?, seed);
    }
    tally.put(pen, of.alloc);
    match tally.first_other() {
        Some(other) => put_trial(pen, of, other),
        None if count == 1 => put_trial(pen, of, seed),
        None => Ok(()),
    }
}
