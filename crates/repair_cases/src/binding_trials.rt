//! Random scripts over random models: the bindings of their relations, and whether they are satisfied, beside what
//! trying all finds.
ghost use Rattle.std.specs.Prelude.{◌≡◌, ◌<◌, ◌^◌, length};
ghost use Rattle.script_scopes.specs.Environments.{metamodel_names as metamodels};
ghost use Rattle.qv_syntax.specs.WellFormed.{IsWellFormed};

use crate::binding_comparisons::{Trial, compare_relations};
use crate::binding_tally::{BindingTally, is_same_binding};
use crate::dice::Dice;
use crate::draft::Pair;
use crate::files::CaseFiles;
use crate::inputs::{Origin, metas_of, models_of};
use crate::plain_calls::{Account, Failing, first_failing};
use crate::plain_error::PlainError;
use crate::plain_values::all_values;
use crate::random_relations::random_script;
use case_texts::Pen;
use check_mode::{Verdict, check};
use mof_metamodel::{NoMemory, Seq, Text};
use ocl_environments::{Metas, TypeError};
use ocl_eval::Models;
use qv_syntax::{Program, Script};
use qvtr_types::resolve;
use relation_calls::CallError;
use repair_account::{Told, put_model};
use script_files::{ScriptError, read_script};
use script_scopes::metamodel_names;
use std::alloc::Global;

/// Whether a verdict is what trying all comes to.
fn is_same_verdict(verdict: &Verdict, failing: &Option<Failing>) -> bool {
    match (verdict, failing) {
        (Verdict::Yes, None) => true,
        (Verdict::No { relation, binding }, Some(failing)) => {
            *relation == failing.relation && is_same_binding(binding, &failing.binding)
        }
        _ => false,
    }
}

fn is_satisfied(verdict: &Verdict) -> bool {
    match verdict {
        Verdict::Yes => true,
        Verdict::No { .. } => false,
    }
}

/// Compares a verdict with what trying all comes to.
fn compare_verdict(
    account: &Account<'_, '_>,
    tally: &mut BindingTally,
    verdict: &Verdict,
) -> Result<(), NoMemory> {
    match first_failing(account) {
        Ok(failing) => {
            let is_same = is_same_verdict(verdict, &failing);
            tally.count_verdict(is_satisfied(verdict), is_same);
            drop(failing);
            Ok(())
        }
        Err(PlainError::TooMany) => {
            tally.count_passed_over();
            Ok(())
        }
        Err(PlainError::NoMemory) => Err(NoMemory),
    }
}

fn compare_check(trial: &Trial<'_, '_>, tally: &mut BindingTally) -> Result<(), NoMemory>
    requires formed { IsWellFormed trial.now.metas.now trial.now.account.program.now }
    requires few { length trial.now.account.program.now.rels < 2 ^ 32 }
{
    let account = &trial.account;
    match check(account.alloc, account.program, account.models) {
        Ok(verdict) => {
            let compared = compare_verdict(account, tally, &verdict);
            drop(verdict);
            compared
        }
        Err(CallError::NoMemory) => Err(NoMemory),
        Err(error) => {
            tally.count_verdict(false, false);
            drop(error);
            Ok(())
        }
    }
}

/// Models, each behind its name.
fn put_models(pen: &mut Pen, told: &Told<'_, '_>) {
    for (number, slot) in told.program.models.as_slice().iter().enumerate() {
        pen.put("\n");
        pen.put(slot.name.as_str());
        put_model(pen, told, number);
    }
}

/// Compares all of a program over models.
fn try_over(
    metas: &Metas,
    account: &Account<'_, '_>,
    tally: &mut BindingTally,
    dice: &mut Dice,
) -> Result<(), NoMemory>
    requires formed { IsWellFormed metas.now account.now.program.now }
    requires few { length account.now.program.now.rels < 2 ^ 32 }
{
    let trial = Trial {
        metas,
        account: *account,
    };
    if tally.is_told {
        put_models(&mut tally.pen, &trial.told());
    }
    compare_relations(&trial, tally, dice)?;
    compare_check(&trial, tally)
}

/// A script that is tried, with its metamodels.
#[derive(Clone, Copy)]
struct Given<'a> {
    alloc: Global,
    metas: &'a Metas,
    dice: Dice,
    has_suffixes: bool,
}

/// The same, with all values that there are.
fn try_models(
    given: &Given<'_>,
    tally: &mut BindingTally,
    program: &Program,
    models: &Models<'_>,
) -> Result<(), NoMemory>
    requires formed { IsWellFormed given.now.metas.now program.now }
    requires few { length program.now.rels < 2 ^ 32 }
{
    let all = all_values(given.alloc, program, models, given.has_suffixes)?;
    let account = Account {
        alloc: given.alloc,
        program,
        models,
        all: all.as_slice(),
    };
    let mut dice = given.dice;
    try_over(given.metas, &account, tally, &mut dice)
}

/// Compares all of a program over random models, with indexes for each other seed.
fn try_program(
    given: &Given<'_>,
    tally: &mut BindingTally,
    program: &Program,
) -> Result<(), NoMemory>
    requires formed { IsWellFormed given.now.metas.now program.now }
    requires few { length program.now.rels < 2 ^ 32 }
{
    let mut origin = Origin::Dice(given.dice);
    let slots = program.models.as_slice();
    if let Some(mut models) = models_of(given.alloc, &mut origin, given.metas, slots)? {
        let mut dice = given.dice;
        if dice.is_heads() {
            models.index()?;
        }
        try_models(given, tally, program, &models)?;
        drop(models);
    }
    Ok(())
}

/// Compares all of a script towards one of its models.
fn try_towards(
    given: &Given<'_>,
    tally: &mut BindingTally,
    script: &Script,
    target: &str,
) -> Result<(), NoMemory>
    requires { length (metamodels script.now) ≡ length given.now.metas.now }
{
    match resolve(given.alloc, script, given.metas, target) {
        Ok(program) => {
            let tried = try_program(given, tally, &program);
            drop(program);
            tried
        }
        Err(TypeError::NoMemory) => Err(NoMemory),
        Err(error) => {
            tally.count_refused();
            drop(error);
            Ok(())
        }
    }
}

fn try_script(
    given: &Given<'_>,
    tally: &mut BindingTally,
    script: &Script,
) -> Result<(), NoMemory> {
    let names = metamodel_names(given.alloc, script)?;
    if names.len() == given.metas.len() as usize {
        try_towards(given, tally, script, "right")?;
        try_towards(given, tally, script, "left")?;
    }
    drop(names);
    Ok(())
}

/// Compares all of a random script.
fn try_text(given: &Given<'_>, tally: &mut BindingTally, text: &str) -> Result<(), NoMemory> {
    if tally.is_told {
        tally.pen.put("\n");
        tally.pen.put(text);
    }
    match read_script(given.alloc, text.as_bytes()) {
        Ok(script) => {
            let tried = try_script(given, tally, &script);
            drop(script);
            tried
        }
        Err(ScriptError::NoMemory) => Err(NoMemory),
        Err(error) => {
            tally.count_refused();
            drop(error);
            Ok(())
        }
    }
}

/// The trial of a seed.
fn try_seed(
    alloc: Global,
    metas: &Metas,
    tally: &mut BindingTally,
    seed: u64,
) -> Result<(), NoMemory> {
    if metas.len() < 2 {
        return Ok(());
    }
    let mut dice = Dice::new(seed);
    let pair = Pair {
        left: metas.get(0),
        right: metas.get(1),
    };
    let script = random_script(alloc, pair, &mut dice)?;
    let given = Given {
        alloc,
        metas,
        dice,
        has_suffixes: script.has_suffixes,
    };
    tally.begin(seed);
    try_text(&given, tally, script.text.as_str())
}

/// The trials of so many seeds.
fn try_seeds(
    alloc: Global,
    metas: &Metas,
    tally: &mut BindingTally,
    count: u32,
    seed: u64,
) -> Result<(), NoMemory> {
    for number in 0..count {
        try_seed(alloc, metas, tally, seed.wrapping_add(u64::from(number)))?;
    }
    Ok(())
}

/// The trial of a seed, with each comparison.
fn put_told(pen: &mut Pen, alloc: Global, metas: &Metas, seed: u64) -> Result<(), NoMemory> {
    let mut tally = BindingTally::new(alloc, true)?;
    try_seed(alloc, metas, &mut tally, seed)?;
    pen.put_string(format!(in alloc; "\nseed {seed}"));
    tally.put(pen);
    Ok(())
}

/// How so many trials end from a seed on, with the first whole that trying all ends in another way. A single
/// one is told whole.
fn put_seeds(
    pen: &mut Pen,
    alloc: Global,
    metas: &Metas,
    count: u32,
    seed: u64,
) -> Result<(), NoMemory> {
    let mut tally = BindingTally::new(alloc, false)?;
    try_seeds(alloc, metas, &mut tally, count, seed)?;
    let other = tally.first_other();
    tally.put(pen);
    match other {
        Some(other) => put_told(pen, alloc, metas, other),
        None if count == 1 => put_told(pen, alloc, metas, seed),
        None => Ok(()),
    }
}

/// The names of the metamodels of random scripts.
fn names(alloc: Global) -> Result<Seq<Text>, NoMemory> {
    let mut names = Seq::new(alloc);
    names.push(Text::new(alloc, "Left")?)?;
    names.push(Text::new(alloc, "Right")?)?;
    Ok(names)
}

/// How so many trials end over the metamodels of these files.
pub fn put_binding_trials(
    pen: &mut Pen,
    files: &CaseFiles,
    pairs: &str,
    count: u32,
    seed: u64,
) -> Result<(), NoMemory> {
    let names = names(files.alloc)?;
    match metas_of(files, pairs, names.as_slice())? {
        Some(metas) => {
            let put = put_seeds(pen, files.alloc, &metas, count, seed);
            drop(metas);
            put
        }
        None => {
            pen.put(" no metamodels");
            Ok(())
        }
    }
}
