//! What comes of a binding, as far as the answers that are kept tell it, and the calls that are to be asked
//! where they don't.
ghost use Rattle.std.specs.Prelude.{◌≡◌, ◌⊎◌, ◌∷◌, [], Contains, Some, IfOk, IfSome, OnOk};
ghost use Rattle.std.specs.Option.{option_map};
ghost use Rattle.qvtr_semantics.specs.Templates.{Values};
ghost use Rattle.qvtr_semantics.specs.Calls.{AllAsked};
ghost use Rattle.template_match.specs.Search.{values_of};
ghost use Rattle.relation_calls.specs.declared.clause_call.Clause.TheVariants.{When, Where};
ghost use Rattle.relation_calls.specs.declared.clause_call.ClauseCall.{ClauseCall};
ghost use Rattle.relation_calls.specs.Names.{call_named, calls_named};
ghost use Rattle.relation_calls.specs.Seen.{AreClean};
ghost use Rattle.relation_calls.specs.Memos.{IsTold};
ghost use Rattle.relation_calls.specs.Visits.{IsVisit, IsSourceBinding, upto_of, match_in, whens_of, wheres_of, GoesOnWith, GoesOnWithTargets};
ghost use Rattle.relation_calls.specs.Owing.{MayFollow, MayAllFollow, SeenByCalls, IsAnswer, IsAnswerOfAny, IsCallIn, ArePartners, IsJudged, outcome_with};

use crate::call_key::{CallKey, key_of};
use crate::chain::calls_left;
use crate::clause_call::{Clause, ClauseCall};
use crate::copying::duplicate_name;
use crate::making::calls_of;
use crate::memo::{Answer, Memo};
use crate::name::CallName;
use crate::outcome::Outcome;
use crate::visit::Visit;
use mof_metamodel::{NoMemory, Seq};
use qvtr_semantics::Binding;
use std::alloc::Global;
use template_match::target_bindings;

/// What is known of a binding.
#[derive(Drop)]
pub(crate) enum Judgement {
    /// What comes of it, and how many calls a chain has at most that begins with one that its partners make
    /// in the where clause.
    Known(Outcome, usize),
    /// Calls that it makes: not all of them have an answer. With its partners, where its calls in the when
    /// clause match.
    Owed(Seq<ClauseCall>, Option<Seq<Binding>>),
}

// ---- calls

/// Whether a call matches, or holds, with its height, if an answer is kept that says so behind the chain of
/// the visit.
pub(crate) fn answer_at(
    visit: &Visit<'_, '_>,
    memo: &Memo,
    clause: Clause,
    key: &CallKey,
) -> Option<Answer>
    requires visit { IsVisit visit.now }
    requires told { IsTold visit.now.program.now visit.now.models.now memo.now }
    requires follows { MayFollow visit.now.program.now visit.now.models.now (upto_of visit.now) clause key.now }
    ensures { IfSome result (IsAnswer visit.now.program.now visit.now.models.now (upto_of visit.now) clause (Some key.now ∷ [])) }
{
    match clause {
        Clause::When => match memo.kept_match(key) {
            Some(holds) => Some(Answer { holds, height: 0 }),
            None => None,
        },
        Clause::Where => memo.kept_hold(key, calls_left(visit.upto)),
    }
}

/// The same by the name of the call.
fn answer_of(
    visit: &Visit<'_, '_>,
    memo: &Memo,
    clause: Clause,
    name: &CallName,
) -> Result<Option<Answer>, NoMemory>
    requires visit { IsVisit visit.now }
    requires told { IsTold visit.now.program.now visit.now.models.now memo.now }
    requires follows { MayFollow visit.now.program.now visit.now.models.now (upto_of visit.now) clause (call_named name.now) }
    ensures { IfOk result (λ o. IfSome o (IsAnswer visit.now.program.now visit.now.models.now (upto_of visit.now) clause (Some (call_named name.now) ∷ []))) }
{
    let key = key_of(visit.alloc, name)?;
    Ok(answer_at(visit, memo, clause, &key))
}

/// The same of a call that a conjunct makes, if it makes one: what makes none neither matches nor holds.
fn optional_answer(
    visit: &Visit<'_, '_>,
    memo: &Memo,
    clause: Clause,
    call: &Option<CallName>,
) -> Result<Option<Answer>, NoMemory>
    requires visit { IsVisit visit.now }
    requires told { IsTold visit.now.program.now visit.now.models.now memo.now }
    requires follow { MayAllFollow visit.now.program.now visit.now.models.now (upto_of visit.now) clause (option_map call_named call.now ∷ []) }
    ensures { IfOk result (λ o. IfSome o (IsAnswer visit.now.program.now visit.now.models.now (upto_of visit.now) clause (option_map call_named call.now ∷ []))) }
{
    match call {
        Some(name) => answer_of(visit, memo, clause, name),
        None => Ok(Some(Answer {
            holds: false,
            height: 0,
        })),
    }
}

/// Whether all calls of a clause match, or hold, if each has an answer.
fn all_answers(
    visit: &Visit<'_, '_>,
    memo: &Memo,
    clause: Clause,
    calls: &[Option<CallName>],
) -> Result<Option<Answer>, NoMemory>
    requires visit { IsVisit visit.now }
    requires told { IsTold visit.now.program.now visit.now.models.now memo.now }
    requires follow { MayAllFollow visit.now.program.now visit.now.models.now (upto_of visit.now) clause (calls_named calls.now) }
    ensures { IfOk result (λ o. IfSome o (IsAnswer visit.now.program.now visit.now.models.now (upto_of visit.now) clause (calls_named calls.now))) }
{
    let mut all = Answer {
        holds: true,
        height: 0,
    };
    for call in calls {
        match optional_answer(visit, memo, clause, call)? {
            Some(one) => all = all.and(one),
            None => return Ok(None),
        }
    }
    Ok(Some(all))
}

/// Puts the call that a conjunct makes behind others, if it makes one.
fn add_call(
    alloc: Global,
    clause: Clause,
    call: &Option<CallName>,
    owed: &mut Seq<ClauseCall>,
) -> Result<(), NoMemory>
    ensures { OnOk result ((c : ClauseCall) → Contains owed.new c → Contains owed.old c ⊎ IsCallIn clause (option_map call_named call.now ∷ []) c) }
{
    match call {
        Some(name) => {
            let name = duplicate_name(alloc, name)?;
            owed.push(ClauseCall { clause, name })
        }
        None => Ok(()),
    }
}

/// Puts the calls of a clause behind others.
fn add_calls(
    alloc: Global,
    clause: Clause,
    calls: &[Option<CallName>],
    owed: &mut Seq<ClauseCall>,
) -> Result<(), NoMemory>
    ensures { OnOk result ((c : ClauseCall) → Contains owed.new c → Contains owed.old c ⊎ IsCallIn clause (calls_named calls.now) c) }
{
    for call in calls {
        add_call(alloc, clause, call, owed)?;
    }
    Ok(())
}

// ---- partners

/// Whether the calls in the where clause hold that a partner makes, if each has an answer.
fn is_partner(visit: &Visit<'_, '_>, memo: &Memo, g: &Binding) -> Result<Option<Answer>, NoMemory>
    requires visit { IsVisit visit.now }
    requires told { IsTold visit.now.program.now visit.now.models.now memo.now }
    requires linked { GoesOnWith visit.now (wheres_of visit.now g.now.values) }
    ensures { IfOk result (λ o. IfSome o (IsAnswer visit.now.program.now visit.now.models.now (upto_of visit.now) Where (wheres_of visit.now g.now.values))) }
{
    let calls = calls_of(visit, visit.rel.wheres.as_slice(), g)?;
    all_answers(visit, memo, Clause::Where, calls.as_slice())
}

/// Whether they hold of one of them, if each call of each has an answer.
fn any_partner(
    visit: &Visit<'_, '_>,
    memo: &Memo,
    gs: &[Binding],
) -> Result<Option<Answer>, NoMemory>
    requires visit { IsVisit visit.now }
    requires told { IsTold visit.now.program.now visit.now.models.now memo.now }
    requires linked { (g : Values) → Contains (values_of gs.now) g → GoesOnWith visit.now (wheres_of visit.now g) }
    ensures { IfOk result (λ o. IfSome o (IsAnswerOfAny visit.now (values_of gs.now))) }
{
    let mut any = Answer {
        holds: false,
        height: 0,
    };
    for g in gs {
        match is_partner(visit, memo, g)? {
            Some(one) => any = any.or(one),
            None => return Ok(None),
        }
    }
    Ok(Some(any))
}

/// Puts the calls that a partner makes behind others.
fn add_partner_calls(
    visit: &Visit<'_, '_>,
    g: &Binding,
    owed: &mut Seq<ClauseCall>,
) -> Result<(), NoMemory>
    ensures { OnOk result ((c : ClauseCall) → Contains owed.new c → Contains owed.old c ⊎ IsCallIn Where (wheres_of visit.now g.now.values) c) }
{
    let calls = calls_of(visit, visit.rel.wheres.as_slice(), g)?;
    add_calls(visit.alloc, Clause::Where, calls.as_slice(), owed)
}

/// The calls that partners make.
fn partner_calls(visit: &Visit<'_, '_>, gs: &[Binding]) -> Result<Seq<ClauseCall>, NoMemory>
    ensures { IfOk result (λ owed. (c : ClauseCall) → Contains owed c → (g : Values) × Contains (values_of gs.now) g × IsCallIn Where (wheres_of visit.now g) c) }
{
    let mut owed = Seq::new(visit.alloc);
    for g in gs {
        add_partner_calls(visit, g, &mut owed)?;
    }
    Ok(owed)
}

// ---- bindings

/// The calls of a when clause.
fn when_calls(
    visit: &Visit<'_, '_>,
    calls: &[Option<CallName>],
) -> Result<Seq<ClauseCall>, NoMemory>
    ensures { IfOk result (λ owed. (c : ClauseCall) → Contains owed c → IsCallIn When (calls_named calls.now) c) }
{
    let mut owed = Seq::new(visit.alloc);
    add_calls(visit.alloc, Clause::When, calls, &mut owed)?;
    Ok(owed)
}

/// What comes of a binding whose calls in the when clause match.
fn outcome_with(any: bool) -> Outcome
    ensures { result ≡ outcome_with any }
{
    if any {
        Outcome::Partnered
    } else {
        Outcome::Alone
    }
}

/// What is known of a binding whose partners these are.
fn judge_found(visit: &Visit<'_, '_>, memo: &Memo, gs: Seq<Binding>) -> Result<Judgement, NoMemory>
    requires visit { IsVisit visit.now }
    requires told { IsTold visit.now.program.now visit.now.models.now memo.now }
    requires linked { (g : Values) → Contains (values_of gs) g → GoesOnWith visit.now (wheres_of visit.now g) }
    ensures { IfOk result (λ j. (b : Values) → ArePartners visit.now.program.now visit.now.models.now (upto_of visit.now) visit.now.rel.now b (values_of gs)
        → IsJudged visit.now.program.now visit.now.models.now (upto_of visit.now) visit.now.rel.now b j) }
{
    match any_partner(visit, memo, gs.as_slice())? {
        Some(any) => Ok(Judgement::Known(outcome_with(any.holds), any.height)),
        None => {
            let calls = partner_calls(visit, gs.as_slice())?;
            Ok(Judgement::Owed(calls, Some(gs)))
        }
    }
}

/// What is known of a binding whose calls in the when clause match.
fn judge_partners(visit: &Visit<'_, '_>, memo: &Memo, b: &Binding) -> Result<Judgement, NoMemory>
    requires visit { IsVisit visit.now }
    requires told { IsTold visit.now.program.now visit.now.models.now memo.now }
    requires source { IsSourceBinding visit.now.rel.now b.now.values }
    requires linked { GoesOnWithTargets visit.now b.now.values }
    requires matched { AllAsked (match_in visit.now) (whens_of visit.now b.now.values) }
    requires clean { AreClean (SeenByCalls visit.now.program.now visit.now.models.now (upto_of visit.now) When (whens_of visit.now b.now.values)) }
    ensures { IfOk result (IsJudged visit.now.program.now visit.now.models.now (upto_of visit.now) visit.now.rel.now b.now.values) }
{
    let gs = target_bindings(visit.alloc, visit.program, visit.plan, visit.models, b)?;
    judge_found(visit, memo, gs)
}

/// What is known of a binding that meets the source, with its partners where they are found.
pub(crate) fn judge(
    visit: &Visit<'_, '_>,
    memo: &Memo,
    b: &Binding,
    partners: Option<Seq<Binding>>,
) -> Result<Judgement, NoMemory>
    requires visit { IsVisit visit.now }
    requires told { IsTold visit.now.program.now visit.now.models.now memo.now }
    requires source { IsSourceBinding visit.now.rel.now b.now.values }
    requires linked { AllAsked (match_in visit.now) (whens_of visit.now b.now.values) → GoesOnWithTargets visit.now b.now.values }
    requires partners { IfSome partners (λ gs. ArePartners visit.now.program.now visit.now.models.now (upto_of visit.now) visit.now.rel.now b.now.values (values_of gs)) }
    ensures { IfOk result (IsJudged visit.now.program.now visit.now.models.now (upto_of visit.now) visit.now.rel.now b.now.values) }
{
    if let Some(gs) = partners {
        return judge_found(visit, memo, gs);
    }
    let calls = calls_of(visit, visit.rel.whens.as_slice(), b)?;
    match all_answers(visit, memo, Clause::When, calls.as_slice())? {
        Some(all) => if all.holds {
            judge_partners(visit, memo, b)
        } else {
            Ok(Judgement::Known(Outcome::Unmatched, 0))
        },
        None => Ok(Judgement::Owed(when_calls(visit, calls.as_slice())?, None)),
    }
}
