//! The last steps of a check: a script resolves, no chain of calls is refused, and the relations hold or don't.
ghost use Rattle.std.specs.Prelude.{◌≡◌, ◌≤◌, ◌<◌, ◌^◌, List, ℕ, chars, length, IfOk, IfErr, OnOk};
ghost use Rattle.ocl_environments.specs.Environments.{most};
ghost use Rattle.script_scopes.specs.Declarations.{IsRepeated, global_names};
ghost use Rattle.script_scopes.specs.Environments.{metamodel_names};
ghost use Rattle.qvtr_semantics.specs.Chains.{Chain as IsChain};
ghost use Rattle.relation_calls.specs.Askable.{IsFormed};
ghost use Rattle.relation_calls.specs.Faults.{IsFault};
ghost use Rattle.check_mode.specs.Verdicts.{IsVerdict};
ghost use Rattle.answer_texts.specs.AskedView.{asked_view};
ghost use Rattle.qvtr_engine.specs.CheckReply.{type_refusal};
ghost use Rattle.qvtr_engine.specs.CheckedRelations as relations;
ghost use Rattle.qvtr_engine.specs.CheckedScript.{IsResolved, ScriptRefused};
ghost use Rattle.enforce_steps.specs.declared.cause.Cause.TheVariants.{Chain};
ghost use Rattle.qvtr_engine.specs.Outcome.{reply_of};
ghost use Rattle.qvtr_engine.specs.Reply.{refused_for};
ghost use Rattle.qvtr_engine.specs.Stops.{OnStop};
ghost use Rattle.qvtr_engine.specs.CheckAnswer.{VerdictAnswer};

use crate::outcome::{Outcome, Stop};
use answer_texts::Asked;
use check_mode::{Verdict, check};
use enforce_steps::Cause;
use mof_metamodel::{NoMemory, Seq};
use ocl_environments::{Metas, TypeError, TypeFault};
use qv_syntax::{Program, Script};
use qvtr_types::resolve;
use relation_calls::CallError;
use script_files::type_fault_text;
use std::alloc::Global;

/// What stops the work at a fault of the script at the path.
pub(crate) fn refusal<'w>(alloc: Global, path: &'w str, fault: &TypeFault) -> Stop<'w>
    ensures { OnStop result (λ reply. reply ≡ type_refusal path.now fault.now) }
{
    match type_fault_text(alloc, path, fault) {
        Ok(line) => Stop::Faulty {
            is_limit: false,
            line,
        },
        Err(NoMemory) => Stop::NoMemory,
    }
}

/// What the script at the path resolves to, in the direction towards the target.
pub(crate) fn resolve_script<'w>(
    alloc: Global,
    path: &'w str,
    script: &Script,
    metas: &Metas,
    target: &str,
) -> Result<Program, Stop<'w>>
    requires named { length (metamodel_names script.now) ≡ length metas.now }
    ensures ok { IfOk result (IsResolved metas.now script.now (chars target.now)) }
    ensures few { IfOk result (λ program. length program.rels ≤ most) }
    ensures few_queries { IfOk result (λ program. length program.queries ≤ most) }
    ensures distinct { OnOk result ((name : List ℕ) → ¬ IsRepeated (global_names script.now) name) }
    ensures err { IfErr result (λ stop. OnStop stop (ScriptRefused path.now metas.now script.now (chars target.now))) }
{
    match resolve(alloc, script, metas, target) {
        Ok(program) => Ok(program),
        Err(TypeError::Fault(fault)) => Err(refusal(alloc, path, &fault)),
        Err(TypeError::NoMemory) => Err(Stop::NoMemory),
    }
}

/// What is printed of a chain of calls that is refused.
fn chain_text(alloc: Global, asked: &Asked<'_, '_>, error: &CallError) -> Result<Seq<u8>, NoMemory>
    requires { IsFault (IsChain asked.now.program.now asked.now.models.now) error.now }
    ensures { IfOk result (λ text. relations.ChainsStop (asked_view asked.now) (refused_for Chain text)) }
{
    match error {
        CallError::Cycle(chain) => asked.cycle_text(alloc, chain.as_slice()),
        CallError::Deep(chain) => asked.deep_text(alloc, chain.as_slice()),
        CallError::NoMemory => Err(NoMemory),
    }
}

/// What stops the work where a chain of calls is refused.
fn chain_stop<'w>(alloc: Global, asked: &Asked<'_, '_>, error: &CallError) -> Stop<'w>
    requires { IsFault (IsChain asked.now.program.now asked.now.models.now) error.now }
    ensures { OnStop result (relations.ChainsStop (asked_view asked.now)) }
{
    match chain_text(alloc, asked, error) {
        Ok(text) => Stop::Refused {
            cause: Cause::Chain,
            text,
        },
        Err(NoMemory) => Stop::NoMemory,
    }
}

/// A verdict, with its text.
fn tell<'w>(
    alloc: Global,
    asked: &Asked<'_, '_>,
    verdict: &Verdict,
) -> Result<Outcome<'w>, NoMemory>
    requires { IsVerdict asked.now.program.now asked.now.models.now verdict.now }
    ensures { IfOk result (λ o. relations.IsVerdict (asked_view asked.now) (reply_of o)) }
{
    match verdict {
        Verdict::Yes => Ok(Outcome::Yes),
        Verdict::No { relation, binding } => {
            let rel = &asked.program.rels.as_slice()[*relation as usize];
            let text = asked.failing_text(alloc, rel, binding.values.as_slice())?;
            Ok(Outcome::No(text))
        }
    }
}

/// The verdict on what is asked, or the chain of calls that is refused.
pub(crate) fn judge<'w>(alloc: Global, asked: &Asked<'_, '_>) -> Result<Outcome<'w>, Stop<'w>>
    requires formed { IsFormed asked.now.program.now }
    requires few { length asked.now.program.now.rels < 2 ^ 32 }
    ensures ok { IfOk result (λ o. VerdictAnswer (asked_view asked.now) (reply_of o)) }
    ensures err { IfErr result (λ stop. OnStop stop (VerdictAnswer (asked_view asked.now))) }
{
    match check(alloc, asked.program, asked.models) {
        Ok(verdict) => Ok(tell(alloc, asked, &verdict)?),
        Err(error) => Err(chain_stop(alloc, asked, &error)),
    }
}
