//! Steps of a search through calls. What is under way stands in frames on a list, and not in calls within one
//! another: so the stack doesn't bound how many calls stand within one another.
ghost use Rattle.std.specs.Prelude.{◌≡◌, ◌≤◌, List, Some, length, slice_get, Contains, AllPairs, IfOk, IfErr, IfSome, OnOk};
ghost use Rattle.object_tables.specs.Models.{ModelData};
ghost use Rattle.qvtr_semantics.specs.declared.limits.TheConstants.{MAX_CALLS};
ghost use Rattle.qv_syntax.specs.declared.program.Program.{Program};
ghost use Rattle.qv_syntax.specs.declared.program.Rel.{Rel};
ghost use Rattle.qvtr_semantics.specs.Templates.{Values};
ghost use Rattle.qvtr_semantics.specs.Calls.{AllAsked};
ghost use Rattle.qvtr_semantics.specs.Satisfaction.{IsLess};
ghost use Rattle.template_match.specs.Plans.{IsPlanOf};
ghost use Rattle.template_match.specs.Search.{values_of};
ghost use Rattle.relation_calls.specs.Names.{call_named, chain_named};
ghost use Rattle.relation_calls.specs.Askable.{IsFormed, IsAskable};
ghost use Rattle.relation_calls.specs.Faults.{IsFault};
ghost use Rattle.relation_calls.specs.Founds.{AreEnough};
ghost use Rattle.relation_calls.specs.Memos.{IsTold};
ghost use Rattle.relation_calls.specs.Owing.{MayFollow, SeenByCall};
ghost use Rattle.relation_calls.specs.Frames.{IsProgress, IsChainFor, IsFrame, IsFrameIn, AreFramesIn, IsPushed, IsResumed, SeenByBindings, SeenByFrame};
ghost use Rattle.relation_calls.specs.Visits.{IsChain, IsVisit, IsSourceBinding, upto_of, match_in, whens_of, GoesOnWithTargets};

use crate::call_key::{CallKey, key_of};
use crate::chain::longer_chain;
use crate::clause_call::{Clause, ClauseCall};
use crate::error::CallError;
use crate::frame::{Frame, Progress};
use crate::joins::enough_bindings;
use crate::judging::{answer_at, judge};
use crate::memo::{Answer, Memo};
use crate::name::CallName;
use crate::outcome::{is_any_alone, is_any_partnered};
use crate::visit::Visit;
use mof_metamodel::{NoMemory, Seq};
use qvtr_semantics::Binding;
use template_match::{Plan, plan_of};

// ---- a call that is begun

/// The chain behind which a call is asked, with the call in a where clause at its end.
fn chain_for(visit: &Visit<'_, '_>, call: &ClauseCall) -> Result<Seq<CallName>, CallError>
    requires visit { IsVisit visit.now }
    requires follows { MayFollow visit.now.program.now visit.now.models.now (upto_of visit.now) call.now.clause (call_named call.now.name) }
    ensures chain { IfOk result (λ names. IsChainFor visit.now.program.now visit.now.models.now (upto_of visit.now) call.now.clause (call_named call.now.name) (chain_named names)) }
    ensures fault { IfErr result (IsFault (SeenByCall visit.now.program.now visit.now.models.now (upto_of visit.now) call.now.clause (call_named call.now.name))) }
{
    match call.clause {
        Clause::When => Ok(Seq::new(visit.alloc)),
        Clause::Where => longer_chain(visit.alloc, visit.upto, &call.name),
    }
}

/// The bindings of the relation that is called, with which it is asked.
fn called_bindings(
    visit: &Visit<'_, '_>,
    memo: &mut Memo,
    call: &ClauseCall,
    plan: &Plan,
    upto: &[CallName],
) -> Result<Seq<Binding>, NoMemory>
    requires visit { IsVisit visit.now }
    requires told { IsTold visit.now.program.now visit.now.models.now memo.old }
    requires askable { IsAskable visit.now.program.now (call_named call.now.name) }
    requires planned { (rel : Rel) → slice_get visit.now.program.now.rels call.now.name.rel ≡ Some rel → IsPlanOf visit.now.program.now call.now.name.rel rel plan.now }
    requires chain { IsChain (chain_named upto.now) }
    ensures found { IfOk result (λ bs. (rel : Rel) → slice_get visit.now.program.now.rels call.now.name.rel ≡ Some rel
        → AreEnough visit.now.program.now visit.now.models.now rel call.now.name.roots.values (values_of bs) × AllPairs (IsLess rel.universal) (values_of bs)) }
    ensures told { IsTold visit.now.program.now visit.now.models.now memo.new }
{
    let called = Visit {
        alloc: visit.alloc,
        program: visit.program,
        models: visit.models,
        rel: &visit.program.rels.as_slice()[call.name.rel as usize],
        plan,
        upto,
    };
    enough_bindings(&called, memo, &call.name.roots)
}

/// A call with the bindings of its relation, none of which is judged.
fn begin(
    visit: &Visit<'_, '_>,
    memo: &mut Memo,
    call: &ClauseCall,
    key: CallKey,
    upto: Seq<CallName>,
) -> Result<Frame, NoMemory>
    requires visit { IsVisit visit.now }
    requires told { IsTold visit.now.program.now visit.now.models.now memo.old }
    requires askable { IsAskable visit.now.program.now (call_named call.now.name) }
    requires chain { IsChainFor visit.now.program.now visit.now.models.now (upto_of visit.now) call.now.clause (call_named call.now.name) (chain_named upto) }
    requires key { key ≡ call_named call.now.name }
    ensures begun { IfOk result (IsFrameIn visit.now.program.now visit.now.models.now (SeenByCall visit.now.program.now visit.now.models.now (upto_of visit.now) call.now.clause (call_named call.now.name))) }
    ensures told { IsTold visit.now.program.now visit.now.models.now memo.new }
{
    let plan = plan_of(visit.alloc, visit.program, call.name.rel)?;
    let bindings = called_bindings(visit, memo, call, &plan, upto.as_slice())?;
    let progress = Progress::new(visit.alloc);
    Ok(Frame {
        clause: call.clause,
        key,
        upto,
        plan,
        bindings,
        progress,
    })
}

/// The same, if no answer is kept that could be taken.
fn ask(
    visit: &Visit<'_, '_>,
    memo: &mut Memo,
    call: &ClauseCall,
) -> Result<Option<Frame>, CallError>
    requires visit { IsVisit visit.now }
    requires told { IsTold visit.now.program.now visit.now.models.now memo.old }
    requires askable { IsAskable visit.now.program.now (call_named call.now.name) }
    requires follows { MayFollow visit.now.program.now visit.now.models.now (upto_of visit.now) call.now.clause (call_named call.now.name) }
    ensures begun { IfOk result (λ o. IfSome o (IsFrameIn visit.now.program.now visit.now.models.now (SeenByCall visit.now.program.now visit.now.models.now (upto_of visit.now) call.now.clause (call_named call.now.name)))) }
    ensures fault { IfErr result (IsFault (SeenByCall visit.now.program.now visit.now.models.now (upto_of visit.now) call.now.clause (call_named call.now.name))) }
    ensures told { IsTold visit.now.program.now visit.now.models.now memo.new }
{
    let key = key_of(visit.alloc, &call.name)?;
    if answer_at(visit, memo, call.clause, &key).is_some() {
        return Ok(None);
    }
    let upto = chain_for(visit, call)?;
    Ok(Some(begin(visit, memo, call, key, upto)?))
}

// ---- a step

/// Judges the next binding, if there is one, with the answers that are kept.
fn judge_next(
    visit: &Visit<'_, '_>,
    memo: &Memo,
    bs: &[Binding],
    progress: &mut Progress,
) -> Result<(), NoMemory>
    requires visit { IsVisit visit.now }
    requires told { IsTold visit.now.program.now visit.now.models.now memo.now }
    requires sources { (b : Values) → Contains (values_of bs.now) b → IsSourceBinding visit.now.rel.now b }
    requires linked { (b : Values) → Contains (values_of bs.now) b → AllAsked (match_in visit.now) (whens_of visit.now b) → GoesOnWithTargets visit.now b }
    requires progress { IsProgress visit.now.program.now visit.now.models.now (upto_of visit.now) visit.now.rel.now bs.now progress.old }
    ensures { OnOk result (IsProgress visit.now.program.now visit.now.models.now (upto_of visit.now) visit.now.rel.now bs.now progress.new) }
{
    let next = progress.outcomes.len();
    if next >= bs.len() {
        return Ok(());
    }
    let partners = progress.partners.take();
    let judgement = judge(visit, memo, &bs[next], partners)?;
    progress.take(judgement)
}

/// Asks the next call that is owed, or where none is left, judges the next binding. Answers the call that is
/// begun by that.
fn step(
    visit: &Visit<'_, '_>,
    memo: &mut Memo,
    bs: &[Binding],
    progress: &mut Progress,
) -> Result<Option<Frame>, CallError>
    requires visit { IsVisit visit.now }
    requires told { IsTold visit.now.program.now visit.now.models.now memo.old }
    requires sources { (b : Values) → Contains (values_of bs.now) b → IsSourceBinding visit.now.rel.now b }
    requires linked { (b : Values) → Contains (values_of bs.now) b → AllAsked (match_in visit.now) (whens_of visit.now b) → GoesOnWithTargets visit.now b }
    requires progress { IsProgress visit.now.program.now visit.now.models.now (upto_of visit.now) visit.now.rel.now bs.now progress.old }
    ensures progress { OnOk result (IsProgress visit.now.program.now visit.now.models.now (upto_of visit.now) visit.now.rel.now bs.now progress.new) }
    ensures begun { IfOk result (λ o. IfSome o (IsFrameIn visit.now.program.now visit.now.models.now (SeenByBindings visit.now.program.now visit.now.models.now (upto_of visit.now) visit.now.rel.now (values_of bs.now)))) }
    ensures fault { IfErr result (IsFault (SeenByBindings visit.now.program.now visit.now.models.now (upto_of visit.now) visit.now.rel.now (values_of bs.now))) }
    ensures told { IsTold visit.now.program.now visit.now.models.now memo.new }
{
    match progress.owed.as_slice().get(progress.asked) {
        Some(call) => {
            let begun = ask(visit, memo, call)?;
            progress.asked += 1;
            Ok(begun)
        }
        None => {
            judge_next(visit, memo, bs, progress)?;
            Ok(None)
        }
    }
}

// ---- the last of the calls under way

/// Keeps the answer of a call whose bindings are all judged.
fn keep_answer(memo: &mut Memo, last: Frame) -> Result<(), NoMemory>
    requires few { last.progress.height ≤ MAX_CALLS }
    ensures told { (program : Program) (models : List ModelData) → IsFormed program → IsTold program models memo.old → IsFrame program models last → length last.bindings ≤ length last.progress.outcomes
        → IsTold program models memo.new }
{
    match last.clause {
        Clause::When => {
            let one = is_any_partnered(last.progress.outcomes.as_slice());
            memo.keep_match(last.key, one)
        }
        Clause::Where => {
            let holds = !is_any_alone(last.progress.outcomes.as_slice());
            let height = last.progress.height + 1;
            memo.keep_hold(last.key, Answer { holds, height })
        }
    }
}

/// A step of a call.
fn step_frame(
    visit: &Visit<'_, '_>,
    memo: &mut Memo,
    last: &mut Frame,
) -> Result<Option<Frame>, CallError>
    requires visit { IsVisit visit.now }
    requires told { IsTold visit.now.program.now visit.now.models.now memo.old }
    requires frame { IsFrame visit.now.program.now visit.now.models.now last.old }
    ensures frame { OnOk result (IsFrameIn visit.now.program.now visit.now.models.now (SeenByFrame visit.now.program.now visit.now.models.now last.old) last.new) }
    ensures begun { IfOk result (λ o. IfSome o (IsFrameIn visit.now.program.now visit.now.models.now (SeenByFrame visit.now.program.now visit.now.models.now last.old))) }
    ensures fault { IfErr result (IsFault (SeenByFrame visit.now.program.now visit.now.models.now last.old)) }
    ensures told { IsTold visit.now.program.now visit.now.models.now memo.new }
{
    let called = Visit {
        alloc: visit.alloc,
        program: visit.program,
        models: visit.models,
        rel: &visit.program.rels.as_slice()[last.plan.rel as usize],
        plan: &last.plan,
        upto: last.upto.as_slice(),
    };
    step(&called, memo, last.bindings.as_slice(), &mut last.progress)
}

/// Puts a call that was begun behind the others, if there is one.
fn push_begun(frames: &mut Seq<Frame>, begun: Option<Frame>) -> Result<(), NoMemory>
    ensures { OnOk result (IsPushed frames.old begun frames.new) }
{
    match begun {
        Some(frame) => frames.push(frame),
        None => Ok(()),
    }
}

/// Goes on with the call that was begun last: it is let go where its answer is kept.
fn resume(
    visit: &Visit<'_, '_>,
    memo: &mut Memo,
    frames: &mut Seq<Frame>,
    mut last: Frame,
) -> Result<(), CallError>
    requires visit { IsVisit visit.now }
    requires told { IsTold visit.now.program.now visit.now.models.now memo.old }
    requires frame { IsFrame visit.now.program.now visit.now.models.now last }
    ensures frames { OnOk result (IsResumed visit.now.program.now visit.now.models.now frames.old last frames.new) }
    ensures fault { IfErr result (IsFault (SeenByFrame visit.now.program.now visit.now.models.now last)) }
    ensures told { IsTold visit.now.program.now visit.now.models.now memo.new }
{
    if last.progress.is_finished(last.bindings.as_slice()) {
        return Ok(keep_answer(memo, last)?);
    }
    let begun = step_frame(visit, memo, &mut last)?;
    frames.push(last)?;
    Ok(push_begun(frames, begun)?)
}

// ---- all steps

/// A step: of the call that was begun last, or where none is under way, of the bindings of the visit.
fn go_on(
    visit: &Visit<'_, '_>,
    memo: &mut Memo,
    bs: &[Binding],
    progress: &mut Progress,
    frames: &mut Seq<Frame>,
) -> Result<(), CallError>
    requires visit { IsVisit visit.now }
    requires told { IsTold visit.now.program.now visit.now.models.now memo.old }
    requires sources { (b : Values) → Contains (values_of bs.now) b → IsSourceBinding visit.now.rel.now b }
    requires linked { (b : Values) → Contains (values_of bs.now) b → AllAsked (match_in visit.now) (whens_of visit.now b) → GoesOnWithTargets visit.now b }
    requires progress { IsProgress visit.now.program.now visit.now.models.now (upto_of visit.now) visit.now.rel.now bs.now progress.old }
    requires frames { AreFramesIn visit.now.program.now visit.now.models.now (SeenByBindings visit.now.program.now visit.now.models.now (upto_of visit.now) visit.now.rel.now (values_of bs.now)) frames.old }
    ensures progress { OnOk result (IsProgress visit.now.program.now visit.now.models.now (upto_of visit.now) visit.now.rel.now bs.now progress.new) }
    ensures frames { OnOk result (AreFramesIn visit.now.program.now visit.now.models.now (SeenByBindings visit.now.program.now visit.now.models.now (upto_of visit.now) visit.now.rel.now (values_of bs.now)) frames.new) }
    ensures fault { IfErr result (IsFault (SeenByBindings visit.now.program.now visit.now.models.now (upto_of visit.now) visit.now.rel.now (values_of bs.now))) }
    ensures told { IsTold visit.now.program.now visit.now.models.now memo.new }
{
    match frames.pop() {
        Some(last) => resume(visit, memo, frames, last),
        None => step_visit(visit, memo, bs, progress, frames),
    }
}

/// A step of the bindings of the visit, where no call is under way.
fn step_visit(
    visit: &Visit<'_, '_>,
    memo: &mut Memo,
    bs: &[Binding],
    progress: &mut Progress,
    frames: &mut Seq<Frame>,
) -> Result<(), CallError>
    requires visit { IsVisit visit.now }
    requires told { IsTold visit.now.program.now visit.now.models.now memo.old }
    requires sources { (b : Values) → Contains (values_of bs.now) b → IsSourceBinding visit.now.rel.now b }
    requires linked { (b : Values) → Contains (values_of bs.now) b → AllAsked (match_in visit.now) (whens_of visit.now b) → GoesOnWithTargets visit.now b }
    requires progress { IsProgress visit.now.program.now visit.now.models.now (upto_of visit.now) visit.now.rel.now bs.now progress.old }
    requires frames { AreFramesIn visit.now.program.now visit.now.models.now (SeenByBindings visit.now.program.now visit.now.models.now (upto_of visit.now) visit.now.rel.now (values_of bs.now)) frames.old }
    ensures progress { OnOk result (IsProgress visit.now.program.now visit.now.models.now (upto_of visit.now) visit.now.rel.now bs.now progress.new) }
    ensures frames { OnOk result (AreFramesIn visit.now.program.now visit.now.models.now (SeenByBindings visit.now.program.now visit.now.models.now (upto_of visit.now) visit.now.rel.now (values_of bs.now)) frames.new) }
    ensures fault { IfErr result (IsFault (SeenByBindings visit.now.program.now visit.now.models.now (upto_of visit.now) visit.now.rel.now (values_of bs.now))) }
    ensures told { IsTold visit.now.program.now visit.now.models.now memo.new }
{
    let begun = step(visit, memo, bs, progress)?;
    Ok(push_begun(frames, begun)?)
}

/// Judges all bindings of the visit, and asks the calls that they owe and those that are owed by these.
/// Behind 2^64 steps it would answer want of memory: no machine makes so many.
pub(crate) fn search(
    visit: &Visit<'_, '_>,
    memo: &mut Memo,
    bs: &[Binding],
    progress: &mut Progress,
    frames: &mut Seq<Frame>,
) -> Result<(), CallError>
    requires visit { IsVisit visit.now }
    requires told { IsTold visit.now.program.now visit.now.models.now memo.old }
    requires sources { (b : Values) → Contains (values_of bs.now) b → IsSourceBinding visit.now.rel.now b }
    requires linked { (b : Values) → Contains (values_of bs.now) b → AllAsked (match_in visit.now) (whens_of visit.now b) → GoesOnWithTargets visit.now b }
    requires progress { IsProgress visit.now.program.now visit.now.models.now (upto_of visit.now) visit.now.rel.now bs.now progress.old }
    requires frames { AreFramesIn visit.now.program.now visit.now.models.now (SeenByBindings visit.now.program.now visit.now.models.now (upto_of visit.now) visit.now.rel.now (values_of bs.now)) frames.old }
    ensures progress { OnOk result (IsProgress visit.now.program.now visit.now.models.now (upto_of visit.now) visit.now.rel.now bs.now progress.new) }
    ensures finished { OnOk result (length bs.now ≤ length progress.new.outcomes) }
    ensures fault { IfErr result (IsFault (SeenByBindings visit.now.program.now visit.now.models.now (upto_of visit.now) visit.now.rel.now (values_of bs.now))) }
    ensures told { IsTold visit.now.program.now visit.now.models.now memo.new }
{
    for _ in 0..u64::MAX {
        if frames.is_empty() && progress.is_finished(bs) {
            return Ok(());
        }
        go_on(visit, memo, bs, progress, frames)?;
    }
    Err(CallError::NoMemory)
}
