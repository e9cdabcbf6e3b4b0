//! What comes of an execution: a file that is put, and what is printed.
ghost use Rattle.std.specs.Prelude.{◌≡◌, ◌≤◌, IfOk};
ghost use Rattle.vault_io.specs.Counts.{Rose};
ghost use Rattle.enforce_steps.specs.StepTexts as steps;
ghost use Rattle.qvtr_engine.specs.Command.{executes};
ghost use Rattle.qvtr_engine.specs.CommandEnds.{CommandEnds};
ghost use Rattle.qvtr_engine.specs.Concluding.{MendedEnds, OutcomeEnds};
ghost use Rattle.qvtr_engine.specs.Reply as spec;
ghost use Rattle.qvtr_engine.specs.RequestView.{request_view};

use crate::check_request::CheckRequest;
use crate::executing::execute;
use crate::mode::Mode;
use crate::outcome::Outcome;
use crate::putting::put;
use crate::rendering::{NO_MEMORY, fault_text};
use crate::reporting::{finish, report_outcome, report_stop};
use crate::status::Status;
use enforce_steps::report_text;
use mof_metamodel::{NoMemory, Seq};
use repair_semantics::Report;
use std::alloc::Global;
use vault_io::{Sink, Vault};

/// What is printed where the target's file is put, and where that fails: both are made before it, so that nothing after it needs memory.
#[derive(Drop)]
pub(crate) struct PutTexts {
    pub success: Seq<u8>,
    pub failure: Seq<u8>,
}

/// The texts for a put of the file at the path.
fn put_texts(alloc: Global, path: &str, report: &Report) -> Result<PutTexts, NoMemory>
    ensures { IfOk result (λ texts. (texts.success ≡ steps.report_text report.now) × (texts.failure ≡ spec.fault_text path.now)) }
{
    let success = report_text(alloc, report)?;
    let failure = fault_text(alloc, path)?;
    Ok(PutTexts { success, failure })
}

/// Puts what enforcement makes of the target's file, and prints the report, or that the put failed.
fn put_mended<F: Vault, K: Sink>(
    alloc: Global,
    vault: &mut F,
    out: &mut K,
    path: &str,
    bytes: &[u8],
    report: &Report,
) -> Status
    ensures ends { MendedEnds (F.files vault.old) path.now bytes.now report.now (Rose (F.faults vault.old) (F.faults vault.new))
        (Rose (K.faults out.old) (K.faults out.new)) (K.told out.old) (K.told out.new) (F.files vault.new) result }
    ensures vault_faults { F.faults vault.old ≤ F.faults vault.new }
    ensures sink_faults { K.faults out.old ≤ K.faults out.new }
{
    match put_texts(alloc, path, report) {
        Ok(texts) => put(
            vault,
            out,
            path,
            bytes,
            texts.success.as_slice(),
            texts.failure.as_slice(),
        ),
        Err(NoMemory) => finish(out, Status::NoMemory, NO_MEMORY),
    }
}

/// Puts a file where the outcome asks for it, and prints what it is.
fn conclude<F: Vault, K: Sink>(
    alloc: Global,
    vault: &mut F,
    out: &mut K,
    outcome: &Outcome<'_>,
) -> Status
    ensures ends { OutcomeEnds (F.files vault.old) outcome.now (Rose (F.faults vault.old) (F.faults vault.new))
        (Rose (K.faults out.old) (K.faults out.new)) (K.told out.old) (K.told out.new) (F.files vault.new) result }
    ensures vault_faults { F.faults vault.old ≤ F.faults vault.new }
    ensures sink_faults { K.faults out.old ≤ K.faults out.new }
{
    match outcome {
        Outcome::Mended {
            path,
            bytes,
            report,
        } => put_mended(alloc, vault, out, path, bytes.as_slice(), report),
        _ => report_outcome(alloc, out, outcome),
    }
}

/// Executes the script that the words name, and prints what came of it.
pub(crate) fn carry_out<F: Vault, K: Sink>(
    alloc: Global,
    vault: &mut F,
    out: &mut K,
    mode: Mode,
    request: &CheckRequest<'_>,
) -> Status
    ensures ends { CommandEnds (F.files vault.old) (executes mode (request_view request.now)) (Rose (F.faults vault.old) (F.faults vault.new))
        (Rose (K.faults out.old) (K.faults out.new)) (K.told out.old) (K.told out.new) (F.files vault.new) result }
    ensures vault_faults { F.faults vault.old ≤ F.faults vault.new }
    ensures sink_faults { K.faults out.old ≤ K.faults out.new }
{
    match execute(alloc, vault, mode, request) {
        Ok(outcome) => conclude(alloc, vault, out, &outcome),
        Err(stop) => report_stop(alloc, out, &stop),
    }
}
