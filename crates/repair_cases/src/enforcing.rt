//! Repairs of targets: how they end, beside how the plain account ends them.
ghost use Rattle.std.specs.Prelude.{◌≤◌, length, IsTrue, IfOk};
ghost use Rattle.object_tables.specs.Validity.{Valid};
ghost use Rattle.demand_set.specs.DemandSets.{IsDemandSet};
ghost use Rattle.entry_finding.specs.Premises.{CanBeEnforced};

use case_texts::Pen;
use demand_set::{DemandError, DemandSet, demands};
use enforce_mode::{Edits, EnforceError, prepare};
use enforcement_laws::demand_sets_are_demands;
use mof_metamodel::{NoMemory, Text};
use object_tables::{Breach, Model};
use ocl_environments::Metas;
use ocl_eval::Models;
use qv_syntax::Program;
use repair_account::{Outcome, Told, put_breach, put_limit, put_model, put_report};
use repair_semantics::Report;
use std::alloc::Global;

/// A program that can be enforced, with its metamodels.
#[derive(Clone, Copy)]
pub struct Transformation<'a> {
    pub alloc: Global,
    pub metas: &'a Metas,
    pub program: &'a Program,
}

impl<'a> Transformation<'a> {
    /// What is told of it over these models.
    pub fn told<'m>(&self, models: &'a Models<'m>) -> Told<'a, 'm> {
        Told {
            alloc: self.alloc,
            program: self.program,
            metas: self.metas,
            models,
        }
    }

    /// What it demands of its target.
    pub fn demands(&self, models: &Models<'_>) -> Result<DemandSet, DemandError>
        requires { CanBeEnforced self.now.metas.now self.now.program.now models.now }
        ensures { IfOk result (IsDemandSet self.now.program.now models.now) }
    {
        demands(self.alloc, self.program, models)
    }
}

/// Whether a model is valid and has room for the numbers of fresh objects.
fn is_ready(alloc: Global, model: &Model<'_>) -> Result<bool, NoMemory>
    ensures { IfOk result (λ ready. IsTrue ready → Valid model.now × (length model.now.objects ≤ 3_999_000_000)) }
{
    match model.first_breach(alloc)? {
        Some(_) => Ok(false),
        None => Ok(model.end() <= 3_999_000_000),
    }
}

/// What makes the target what is demanded of it, if it is valid.
fn readied<'m>(
    of: &Transformation<'_>,
    demands: &DemandSet,
    models: &Models<'m>,
) -> Result<Option<Edits<'m>>, EnforceError>
    requires enforced { CanBeEnforced of.now.metas.now of.now.program.now models.now }
    requires demands { IsDemandSet of.now.program.now models.now demands.now }
{
    let Some(target) = models.get(of.program.target as usize) else {
        return Ok(None);
    };
    if !is_ready(of.alloc, target)? {
        return Ok(None);
    }
    demand_sets_are_demands();
    Ok(Some(prepare(of.alloc, of.program, demands, target)?))
}

/// Makes the target what is demanded of it, and tells what that changes.
fn applied<'m>(edits: Edits<'m>, target: u32, models: &mut Models<'m>) -> Report {
    let report = edits.report();
    if (target as usize) < models.len() {
        edits.apply(models.get_mut(target));
    } else {
        drop(edits);
    }
    report
}

/// What stands against the model that would be made, as it is printed.
fn text_of_breach(told: &Told<'_, '_>, breach: Breach, id: &str) -> Result<Text, NoMemory> {
    let mut pen = Pen::new(told.alloc)?;
    put_breach(&mut pen, told, breach.kind, id, breach.prop);
    pen.written()
}

/// That the target can't become what is demanded of it.
fn refused(
    of: &Transformation<'_>,
    models: &Models<'_>,
    error: EnforceError,
) -> Result<Option<Outcome>, NoMemory> {
    let text = match error {
        EnforceError::NoMemory => return Err(NoMemory),
        EnforceError::Invalid(breach, id) => {
            text_of_breach(&of.told(models), breach, id.as_str())?
        }
        EnforceError::Limit(kind) => {
            let mut pen = Pen::new(of.alloc)?;
            put_limit(&mut pen, kind);
            pen.written()?
        }
    };
    Ok(Some(Outcome { report: None, text }))
}

/// That the target became what is demanded of it, with a line for each object, or with their number alone.
fn done(
    of: &Transformation<'_>,
    models: &Models<'_>,
    report: Report,
    is_short: bool,
) -> Result<Option<Outcome>, NoMemory> {
    let told = of.told(models);
    let mut pen = Pen::new(of.alloc)?;
    if is_short {
        put_size(&mut pen, &told);
    } else {
        put_model(&mut pen, &told, of.program.target as usize);
    }
    let text = pen.written()?;
    Ok(Some(Outcome {
        report: Some(report),
        text,
    }))
}

/// How many objects the target has.
fn put_size(pen: &mut Pen, told: &Told<'_, '_>) {
    if let Some(target) = told.models.get(told.program.target as usize) {
        let size = target.len();
        pen.put_string(format!(in told.alloc; ", {size} objects"));
    }
}

/// Makes the target what is demanded of it, if it is valid, and tells how that ends.
pub fn enforced(
    of: &Transformation<'_>,
    demands: &DemandSet,
    models: &mut Models<'_>,
    is_short: bool,
) -> Result<Option<Outcome>, NoMemory>
    requires enforced { CanBeEnforced of.now.metas.now of.now.program.now models.old }
    requires demands { IsDemandSet of.now.program.now models.old demands.now }
{
    match readied(of, demands, models) {
        Ok(Some(edits)) => {
            let report = applied(edits, of.program.target, models);
            done(of, models, report, is_short)
        }
        Ok(None) => Ok(None),
        Err(error) => refused(of, models, error),
    }
}

/// How a repair ends, with more behind the report or the refusal.
pub fn put_outcome(pen: &mut Pen, alloc: Global, outcome: &Outcome, more: &str) {
    match outcome.report {
        Some(report) => {
            if report.unchanged {
                pen.put(" unchanged");
            } else {
                pen.put(" done");
                put_report(pen, alloc, report);
            }
            pen.put(more);
            pen.put(outcome.text.as_str());
        }
        None => {
            pen.put(outcome.text.as_str());
            pen.put(more);
        }
    }
}
