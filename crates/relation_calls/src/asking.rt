ghost use Rattle.std.specs.Prelude.{◌≡◌, ◌↔◌, ◌-◌, [], ◌∷◌, ◌++◌, Some, length, slice_get, Contains, IfOk, IfErr, IsTrue};
ghost use Rattle.qvtr_semantics.specs.declared.limits.TheConstants.{MAX_CALLS};
ghost use Rattle.qv_syntax.specs.declared.program.Rel.{Rel};
ghost use Rattle.qvtr_semantics.specs.Templates.{Values};
ghost use Rattle.qvtr_semantics.specs.Calls.{RelationCall, AllAsked, Match};
ghost use Rattle.qvtr_semantics.specs.Chains.{CallsWhere, MatchChain};
ghost use Rattle.template_match.specs.Search.{values_of};
ghost use Rattle.relation_calls.specs.Names.{call_named, chain_named};
ghost use Rattle.relation_calls.specs.Seen.{Seen, AreClean};
ghost use Rattle.relation_calls.specs.Faults.{IsFault};
ghost use Rattle.relation_calls.specs.Askable.{IsFormed, IsAskable};
ghost use Rattle.relation_calls.specs.Outcomes.{AreOutcomes};
ghost use Rattle.relation_calls.specs.Founds.{IsFound};
ghost use Rattle.relation_calls.specs.Links.{IsLinked};
ghost use Rattle.relation_calls.specs.Memos.{IsTold};
ghost use Rattle.relation_calls.specs.Visits.{IsChain, IsVisit, IsSourceBinding, left_of, match_in, whens_of, GoesOnWithTargets, SeenByAny};

use crate::call_key::{CallKey, key_of};
use crate::error::CallError;
use crate::found::Found;
use crate::frame::Progress;
use crate::joins::enough_bindings;
use crate::memo::Memo;
use crate::name::CallName;
use crate::outcome::{Outcome, is_any_partnered};
use crate::stepping::search;
use crate::visit::Visit;
use mof_metamodel::Seq;
use ocl_eval::Models;
use qv_syntax::Program;
use qvtr_semantics::Binding;
use std::alloc::Global;
use template_match::plan_of;

// ---- bindings

/// What comes of each of them.
pub(crate) fn outcomes_of(
    visit: &Visit<'_, '_>,
    memo: &mut Memo,
    bs: &[Binding],
) -> Result<Seq<Outcome>, CallError>
    requires visit { IsVisit visit.now }
    requires told { IsTold visit.now.program.now visit.now.models.now memo.old }
    requires sources { (b : Values) → Contains (values_of bs.now) b → IsSourceBinding visit.now.rel.now b }
    requires linked { (b : Values) → Contains (values_of bs.now) b → AllAsked (match_in visit.now) (whens_of visit.now b) → GoesOnWithTargets visit.now b }
    ensures value { IfOk result (AreOutcomes visit.now.program.now visit.now.models.now (left_of visit.now) visit.now.rel.now (values_of bs.now)) }
    ensures clean { IfOk result (λ _. AreClean (SeenByAny visit.now (values_of bs.now))) }
    ensures fault { IfErr result (IsFault (SeenByAny visit.now (values_of bs.now))) }
    ensures told { IsTold visit.now.program.now visit.now.models.now memo.new }
{
    let mut progress = Progress::new(visit.alloc);
    let mut frames = Seq::new(visit.alloc);
    search(visit, memo, bs, &mut progress, &mut frames)?;
    Ok(progress.into_outcomes())
}

/// The bindings that meet the source of a relation with these roots, and what comes of them: but for some
/// one of whose calls in the when clause doesn't match. `upto` is the chain that ends with this call, or
/// empty.
pub(crate) fn explore(
    alloc: Global,
    program: &Program,
    models: &Models<'_>,
    memo: &mut Memo,
    upto: &[CallName],
    name: &CallName,
) -> Result<Found, CallError>
    requires formed { IsFormed program.now }
    requires askable { IsAskable program.now (call_named name.now) }
    requires told { IsTold program.now models.now memo.old }
    requires chain { IsChain (chain_named upto.now) }
    requires linked { (d : RelationCall) → CallsWhere program.now models.now (call_named name.now) d → IsLinked program.now models.now (chain_named upto.now ++ d ∷ []) }
    ensures value { IfOk result (λ found. (rel : Rel) → slice_get program.now.rels name.now.rel ≡ Some rel
        → IsFound program.now models.now (MAX_CALLS - length (chain_named upto.now)) rel name.now.roots.values found) }
    ensures clean { IfOk result (λ _. AreClean (Seen program.now models.now (chain_named upto.now) (call_named name.now))) }
    ensures fault { IfErr result (IsFault (Seen program.now models.now (chain_named upto.now) (call_named name.now))) }
    ensures told { IsTold program.now models.now memo.new }
{
    let plan = plan_of(alloc, program, name.rel)?;
    let visit = Visit {
        alloc,
        program,
        models,
        rel: &program.rels.as_slice()[name.rel as usize],
        plan: &plan,
        upto,
    };
    let bindings = enough_bindings(&visit, memo, &name.roots)?;
    let outcomes = outcomes_of(&visit, memo, bindings.as_slice())?;
    Ok(Found { bindings, outcomes })
}

// ---- calls in when clauses

/// Whether a call matches, without a look at the answers that are kept.
fn is_match_anew(
    alloc: Global,
    program: &Program,
    models: &Models<'_>,
    memo: &mut Memo,
    name: &CallName,
) -> Result<bool, CallError>
    requires formed { IsFormed program.now }
    requires askable { IsAskable program.now (call_named name.now) }
    requires told { IsTold program.now models.now memo.old }
    ensures value { IfOk result (λ one. IsTrue one ↔ Match program.now models.now (call_named name.now)) }
    ensures clean { IfOk result (λ _. AreClean (MatchChain program.now models.now (call_named name.now))) }
    ensures fault { IfErr result (IsFault (MatchChain program.now models.now (call_named name.now))) }
    ensures told { IsTold program.now models.now memo.new }
{
    let none = Seq::new(alloc);
    let found = explore(alloc, program, models, memo, none.as_slice(), name)?;
    Ok(is_any_partnered(found.outcomes.as_slice()))
}

/// The same. The answer is kept under the key of the call.
fn is_match_kept(
    alloc: Global,
    program: &Program,
    models: &Models<'_>,
    memo: &mut Memo,
    name: &CallName,
    key: CallKey,
) -> Result<bool, CallError>
    requires formed { IsFormed program.now }
    requires askable { IsAskable program.now (call_named name.now) }
    requires told { IsTold program.now models.now memo.old }
    requires key { key ≡ call_named name.now }
    ensures value { IfOk result (λ one. IsTrue one ↔ Match program.now models.now (call_named name.now)) }
    ensures clean { IfOk result (λ _. AreClean (MatchChain program.now models.now (call_named name.now))) }
    ensures fault { IfErr result (IsFault (MatchChain program.now models.now (call_named name.now))) }
    ensures told { IsTold program.now models.now memo.new }
{
    let one = is_match_anew(alloc, program, models, memo, name)?;
    memo.keep_match(key, one)?;
    Ok(one)
}

/// Whether a call matches. An answer that is kept is taken.
pub(crate) fn is_match(
    alloc: Global,
    program: &Program,
    models: &Models<'_>,
    memo: &mut Memo,
    name: &CallName,
) -> Result<bool, CallError>
    requires formed { IsFormed program.now }
    requires askable { IsAskable program.now (call_named name.now) }
    requires told { IsTold program.now models.now memo.old }
    ensures value { IfOk result (λ one. IsTrue one ↔ Match program.now models.now (call_named name.now)) }
    ensures clean { IfOk result (λ _. AreClean (MatchChain program.now models.now (call_named name.now))) }
    ensures fault { IfErr result (IsFault (MatchChain program.now models.now (call_named name.now))) }
    ensures told { IsTold program.now models.now memo.new }
{
    let key = key_of(alloc, name)?;
    match memo.kept_match(&key) {
        Some(one) => Ok(one),
        None => is_match_kept(alloc, program, models, memo, name, key),
    }
}
