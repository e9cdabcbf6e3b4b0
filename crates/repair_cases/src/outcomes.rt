//! What demands come to, as it is printed.
ghost use Rattle.demand_set.specs.DemandSets.{IsDemandSet};
ghost use Rattle.entry_finding.specs.Premises.{CanBeEnforced};

use crate::comparing::{compared, put_comparison};
use crate::enforcing::{Transformation, enforced, put_outcome};
use crate::entries::{put_call, put_demand, put_entry, put_item, put_named, put_place};
use crate::terms::put_term;
use case_texts::Pen;
use demand_set::{DemandError, DemandSet};
use mof_metamodel::NoMemory;
use ocl_eval::Models;
use repair_account::{Told, put_repaired};
use repair_semantics::{Clash, Demand, Entry, EntryName, Place, Term};

/// What a case shows of what is demanded: entries, demands and terms, their numbers, or the account of the repair.
#[derive(Clone, Copy)]
pub enum Demanded {
    All,
    Counts,
    Account,
}

/// What it shows of the repair: all of it beside the account, or how many objects there are.
#[derive(Clone, Copy)]
pub enum Made {
    All,
    Size,
}

/// What a case shows: what is demanded, or the repair.
#[derive(Clone, Copy)]
pub enum Shown {
    Demanded(Demanded),
    Made(Made),
}

/// What is asked: what models of files come to, or so many trials from a seed on.
#[derive(Clone, Copy)]
pub enum Question {
    Files(Shown),
    Trials { count: u32, seed: u64 },
}

/// What is demanded, or why nothing is.
pub fn put_demanded(
    pen: &mut Pen,
    of: &Transformation<'_>,
    models: &Models<'_>,
    shown: Demanded,
) -> Result<(), NoMemory>
    requires { CanBeEnforced of.now.metas.now of.now.program.now models.now }
{
    match of.demands(models) {
        Ok(found) => {
            let put = put_found(pen, &of.told(models), &found, shown);
            drop(found);
            put
        }
        Err(error) => {
            let put = put_refusal(pen, of, models, &error);
            drop(error);
            put
        }
    }
}

/// What a repair makes of the target, or why nothing is demanded.
pub fn put_made(
    pen: &mut Pen,
    of: &Transformation<'_>,
    models: &mut Models<'_>,
    shown: Made,
) -> Result<(), NoMemory>
    requires { CanBeEnforced of.now.metas.now of.now.program.now models.old }
{
    match of.demands(models) {
        Ok(found) => {
            let put = put_repair(pen, of, models, &found, shown);
            drop(found);
            put
        }
        Err(error) => {
            let put = put_refusal(pen, of, models, &error);
            drop(error);
            put
        }
    }
}

fn put_repair(
    pen: &mut Pen,
    of: &Transformation<'_>,
    models: &mut Models<'_>,
    found: &DemandSet,
    shown: Made,
) -> Result<(), NoMemory>
    requires enforced { CanBeEnforced of.now.metas.now of.now.program.now models.old }
    requires demands { IsDemandSet of.now.program.now models.old found.now }
{
    match shown {
        Made::All => match compared(of, found, models)? {
            Some(comparison) => put_comparison(pen, of.alloc, &comparison),
            None => pen.put(" no target"),
        },
        Made::Size => match enforced(of, found, models, true)? {
            Some(outcome) => put_outcome(pen, of.alloc, &outcome, ""),
            None => pen.put(" no target"),
        },
    }
    Ok(())
}

fn put_found(
    pen: &mut Pen,
    told: &Told<'_, '_>,
    found: &DemandSet,
    shown: Demanded,
) -> Result<(), NoMemory> {
    match shown {
        Demanded::All => put_all(pen, told, found),
        Demanded::Counts => put_counts(pen, told, found),
        Demanded::Account => put_repaired(pen, told, found),
    }
}

fn put_counts(pen: &mut Pen, told: &Told<'_, '_>, found: &DemandSet) -> Result<(), NoMemory> {
    let entries = found.entries(told.alloc)?.len();
    let demands = found.numbered().list.len();
    let terms = found.numbered().terms.len();
    pen.put_string(format!(in told.alloc; " {entries} entries, {demands} demands, {terms} terms"));
    Ok(())
}

fn put_all(pen: &mut Pen, told: &Told<'_, '_>, found: &DemandSet) -> Result<(), NoMemory> {
    put_entries(pen, told, found.entries(told.alloc)?.as_slice());
    put_demands(pen, told, found.list(told.alloc)?.as_slice());
    put_terms(pen, told, found.terms(told.alloc)?.as_slice());
    Ok(())
}

fn put_entries(pen: &mut Pen, told: &Told<'_, '_>, entries: &[Entry]) {
    for entry in entries {
        put_entry(pen, told, entry);
    }
}

fn put_demands(pen: &mut Pen, told: &Told<'_, '_>, demands: &[Demand]) {
    for demand in demands {
        put_demand(pen, told, demand);
    }
}

fn put_terms(pen: &mut Pen, told: &Told<'_, '_>, terms: &[Term]) {
    pen.put("\nterms");
    for term in terms {
        pen.put("\n  ");
        put_term(pen, told, term);
    }
}

/// Why nothing is demanded.
fn put_refusal(
    pen: &mut Pen,
    of: &Transformation<'_>,
    models: &Models<'_>,
    error: &DemandError,
) -> Result<(), NoMemory> {
    let told = of.told(models);
    match error {
        DemandError::Cycle(chain) => put_chain(pen, &told, " cycle", chain.as_slice()),
        DemandError::Deep(chain) => put_chain(pen, &told, " deep", chain.as_slice()),
        DemandError::Unmet { entry, place } => put_unmet(pen, &told, entry, place),
        DemandError::Conflict(clash) => put_clash(pen, &told, clash),
        DemandError::NoMemory => return Err(NoMemory),
    }
    Ok(())
}

fn put_chain(pen: &mut Pen, told: &Told<'_, '_>, word: &str, chain: &[EntryName]) {
    pen.put(word);
    for call in chain {
        put_call(pen, told, call);
    }
}

fn put_unmet(pen: &mut Pen, told: &Told<'_, '_>, entry: &Entry, place: &Place) {
    pen.put(" unmet");
    put_named(pen, told, entry);
    put_place(pen, told, place);
}

fn put_clash(pen: &mut Pen, told: &Told<'_, '_>, clash: &Clash) {
    pen.put(" conflict ");
    put_term(pen, told, &clash.owner);
    pen.put(" ");
    pen.put(told.any_prop_name(clash.prop));
    put_named(pen, told, &clash.first);
    put_item(pen, told, clash.first_item, &clash.first_value);
    put_named(pen, told, &clash.second);
    put_item(pen, told, clash.second_item, &clash.second_value);
}
