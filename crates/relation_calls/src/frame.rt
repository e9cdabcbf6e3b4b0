ghost use Rattle.std.specs.Prelude.{◌≡◌, ◌≤◌, [], None, length, IsTrue, OnOk};
ghost use Rattle.relation_calls.specs.Frames.{IsTaken};

use crate::call_key::CallKey;
use crate::clause_call::{Clause, ClauseCall};
use crate::judging::Judgement;
use crate::name::CallName;
use crate::outcome::Outcome;
use mof_metamodel::{NoMemory, Seq};
use qvtr_semantics::Binding;
use std::alloc::Global;
use template_match::Plan;

/// How far the bindings of a relation are judged.
#[derive(Drop)]
pub(crate) struct Progress {
    /// What comes of the first bindings.
    pub(crate) outcomes: Seq<Outcome>,
    /// The calls that the next binding makes, where not all of them had an answer.
    pub(crate) owed: Seq<ClauseCall>,
    /// How many of these have been asked.
    pub(crate) asked: usize,
    /// How many calls a chain has at most that begins with one that partners of the first bindings make in
    /// the where clause.
    pub(crate) height: usize,
    /// The partners of the next binding, where they are found.
    pub(crate) partners: Option<Seq<Binding>>,
}

/// A call under way. `upto` is the chain of calls in where clauses that ends with it; it is empty where a
/// match is asked for.
#[derive(Drop)]
pub(crate) struct Frame {
    pub(crate) clause: Clause,
    pub(crate) key: CallKey,
    pub(crate) upto: Seq<CallName>,
    pub(crate) plan: Plan,
    /// The bindings that meet the source with the roots of the call, but for some one of whose calls in the
    /// when clause doesn't match.
    pub(crate) bindings: Seq<Binding>,
    pub(crate) progress: Progress,
}

impl Progress {
    /// No binding is judged.
    pub(crate) fn new(alloc: Global) -> Progress
        ensures outcomes { result.outcomes ≡ [] }
        ensures owed { result.owed ≡ [] }
        ensures height { result.height ≡ 0 }
        ensures partners { result.partners ≡ None }
    {
        Progress {
            outcomes: Seq::new(alloc),
            owed: Seq::new(alloc),
            asked: 0,
            height: 0,
            partners: None,
        }
    }

    /// What comes of the bindings.
    pub(crate) fn into_outcomes(self) -> Seq<Outcome>
        ensures { result ≡ self.outcomes }
    {
        let Progress {
            outcomes,
            owed,
            asked,
            height,
            partners,
        } = self;
        outcomes
    }

    /// Whether all bindings are judged.
    pub(crate) fn is_finished(&self, bs: &[Binding]) -> bool
        ensures { IsTrue result → length bs.now ≤ length self.now.outcomes }
    {
        self.asked >= self.owed.len() && self.outcomes.len() >= bs.len()
    }

    /// Takes what is known of the next binding.
    pub(crate) fn take(&mut self, judgement: Judgement) -> Result<(), NoMemory>
        ensures { OnOk result (IsTaken self.old judgement self.new) }
    {
        match judgement {
            Judgement::Known(outcome, height) => {
                self.height = self.height.max(height);
                self.partners = None;
                self.outcomes.push(outcome)
            }
            Judgement::Owed(owed, partners) => {
                self.owed = owed;
                self.asked = 0;
                self.partners = partners;
                Ok(())
            }
        }
    }
}
