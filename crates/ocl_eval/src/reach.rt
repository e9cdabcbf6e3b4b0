ghost use Rattle.std.specs.Prelude.{◌≡◌, [], ◌∷◌, ◌++◌, ◌-◌, length, take, drop, true, IfOk, OnOk};
ghost use Rattle.std.specs.Option.{option_map};
ghost use Rattle.qvtr_semantics.specs.Outs.{Collection, collection_of};
ghost use Rattle.qvtr_semantics.specs.Collections.{including, union};
ghost use Rattle.qvtr_semantics.specs.Expressions.{bound_value, scope_of, variable, with_datum, with_collection, on_collection};
ghost use Rattle.ocl_eval.specs.Growing.{grown};
ghost use Rattle.ocl_eval.specs.Worlds.{reached_in};

use crate::datum::duplicate_datum;
use crate::growing::{Growing, single};
use crate::on_collections::on_lent_collection;
use crate::outs::collection_of;
use crate::reached::Reached;
use crate::scope::Scope;
use mof_metamodel::{NoMemory, Seq};
use qv_syntax::{CollectionOperation, Kind};
use qvtr_semantics::{Datum, Out};
use std::alloc::Global;
use std::marker::Model;
use std::mem;

/// The variables in reach of a part of an expression: those of a relation, whose values are lent, and behind
/// them others. Contracts see it as the list of the values, by their numbers.
#[derive(Drop)]
pub(crate) struct Reach<'b> {
    bound: &'b [Option<Datum>],
    others: Scope,
}

impl<'b> Model for Reach<'b> {
    ghost use Rattle.std.specs.Prelude.{List, ◌++◌};
    ghost use Rattle.qvtr_semantics.specs.declared.out.Out.{Out};
    ghost use Rattle.qvtr_semantics.specs.Expressions.{scope_of};

    ghost Value = { List Out };

    ghost view = { λ r. scope_of r.bound.now ++ r.others };
}

/// The value of a variable of a relation.
fn bound_value(alloc: Global, value: &Option<Datum>) -> Result<Out, NoMemory>
    ensures { IfOk result (λ out. out ≡ bound_value value.now) }
{
    match value {
        Some(datum) => Ok(Out::One(duplicate_datum(alloc, datum)?)),
        None => Ok(Out::Invalid),
    }
}

/// The values of the variables of a relation.
fn bound_values(alloc: Global, values: &[Option<Datum>]) -> Result<Seq<Out>, NoMemory>
    ensures { IfOk result (λ outs. outs ≡ scope_of values.now) }
{
    let mut outs = Seq::new(alloc);
    for value in values {
        outs.push(bound_value(alloc, value)?)?;
    }
    Ok(outs)
}

/// The same values, none of them lent.
fn owned(alloc: Global, bound: &[Option<Datum>], others: Scope) -> Result<Scope, NoMemory>
    ensures { IfOk result (λ scope. scope ≡ scope_of bound.now ++ others) }
{
    let mut scope = Scope::new(bound_values(alloc, bound)?);
    scope.extend(others.into_values())?;
    Ok(scope)
}

impl<'b> Reach<'b> {
    /// The variables of a relation alone. It takes no memory.
    #[tactic(auto, using(crate::proofs::ReachLaws::none_behind))]
    pub(crate) fn over(alloc: Global, bound: &'b [Option<Datum>]) -> Reach<'b>
        ensures { result ≡ scope_of bound.now }
    {
        Reach {
            bound,
            others: Scope::new(Seq::new(alloc)),
        }
    }

    /// The variables of a scope.
    pub(crate) fn of(scope: Scope) -> Reach<'b>
        ensures { result ≡ scope }
    {
        Reach {
            bound: &[],
            others: scope,
        }
    }

    /// The values as a scope.
    pub(crate) fn into_scope(self, alloc: Global) -> Result<Scope, NoMemory>
        ensures { IfOk result (λ scope. scope ≡ self.entry) }
    {
        let Reach { bound, others } = self;
        if bound.is_empty() {
            return Ok(others);
        }
        owned(alloc, bound, others)
    }

    /// The values as a list.
    pub(crate) fn into_args(self, alloc: Global) -> Result<Seq<Out>, NoMemory>
        ensures { IfOk result (λ args. args ≡ self.entry) }
    {
        Ok(Seq::from_vec(self.into_scope(alloc)?.into_values()))
    }

    /// The value of a variable; one that has none is invalid.
    #[tactic(auto, using(crate::proofs::ReachLaws::variable_lent, crate::proofs::ReachLaws::variable_behind))]
    pub(crate) fn variable(&self, alloc: Global, number: u32) -> Result<Out, NoMemory>
        ensures { IfOk result (λ out. out ≡ variable self.now number) }
    {
        match self.bound.get(number as usize) {
            Some(value) => bound_value(alloc, value),
            None => self
                .others
                .variable(alloc, number - self.bound.len() as u32),
        }
    }

    /// The kind and the elements of a variable's value, if it is a collection.
    #[tactic(auto, using(crate::proofs::ReachLaws::collection_lent, crate::proofs::ReachLaws::collection_behind, crate::proofs::ReachLaws::nothing_behind))]
    fn collection(&self, number: u32) -> Option<(Kind, &Seq<Datum>)>
        ensures { option_map (λ found. record { kind = found.0; elements = found.1.now }) result ≡ collection_of (variable self.now number) }
    {
        match self.bound.get(number as usize) {
            Some(_) => None,
            None => match self.others.get(number - self.bound.len() as u32) {
                Some(out) => collection_of(out),
                None => None,
            },
        }
    }

    /// An operation on a variable's value, with its arguments. The value is copied only where the operation
    /// makes its result of it.
    pub(crate) fn on_collection(
        &self,
        alloc: Global,
        number: u32,
        operation: CollectionOperation,
        args: Seq<Out>,
    ) -> Result<Out, NoMemory>
        ensures { IfOk result (λ out. out ≡ with_collection (variable self.now number) (λ c. on_collection operation c args)) }
    {
        match self.collection(number) {
            Some((kind, elements)) => on_lent_collection(
                alloc,
                operation,
                kind,
                elements.as_slice(),
                args,
            ),
            None => Ok(Out::Invalid),
        }
    }

    /// The value of something reached.
    pub(crate) fn taken(&self, alloc: Global, x: Reached) -> Result<Out, NoMemory>
        ensures { IfOk result (λ out. out ≡ reached_in self.now x) }
    {
        match x {
            Reached::Own(x) => Ok(x.into_out()),
            Reached::Variable(number) => self.variable(alloc, number),
            Reached::Growing(x) => x.settled(alloc),
        }
    }

    /// Something reached with more elements.
    fn grown(
        &self,
        alloc: Global,
        x: Reached,
        only: Option<Kind>,
        more: Seq<Datum>,
    ) -> Result<Growing, NoMemory>
        ensures { IfOk result (λ g. g ≡ with_collection (reached_in self.now x) (grown only more)) }
    {
        match x {
            Reached::Growing(x) => x.grown(alloc, only, more),
            other => Growing::begun(alloc, self.taken(alloc, other)?, only, more),
        }
    }

    /// `x->including(argument)`
    #[tactic(auto, using(crate::proofs::GrowingLaws::nothing_grown))]
    pub(crate) fn including(
        &self,
        alloc: Global,
        x: Reached,
        argument: Out,
    ) -> Result<Growing, NoMemory>
        ensures { IfOk result (λ g. g ≡ with_collection (reached_in self.now x) (λ c. with_datum argument (including c))) }
    {
        match argument {
            Out::One(datum) => self.grown(alloc, x, None, single(alloc, datum)?),
            _ => Ok(Growing::invalid(alloc)),
        }
    }

    /// `x->union(argument)`
    #[tactic(auto, using(crate::proofs::GrowingLaws::nothing_grown))]
    pub(crate) fn union(
        &self,
        alloc: Global,
        x: Reached,
        argument: Out,
    ) -> Result<Growing, NoMemory>
        ensures { IfOk result (λ g. g ≡ with_collection (reached_in self.now x) (λ c. with_collection argument (union c))) }
    {
        match argument {
            Out::Many(kind, others) => self.grown(alloc, x, Some(kind), others),
            _ => Ok(Growing::invalid(alloc)),
        }
    }

    /// Takes the variables from this number on out of reach, and gives their values. Variables of a relation
    /// are copied if one of them is among these.
    #[tactic(auto, using(crate::proofs::ReachLaws::take_behind, crate::proofs::ReachLaws::drop_behind))]
    pub(crate) fn cut(&mut self, alloc: Global, number: u32) -> Result<Vec<Out>, NoMemory>
        ensures scope { OnOk result (self.new ≡ take number self.old) }
        ensures behind { IfOk result (λ behind. behind.items ≡ drop number self.old) }
    {
        if (number as usize) < self.bound.len() {
            let others = mem::replace(&mut self.others, Scope::new(Seq::new(alloc)));
            self.others = owned(alloc, self.bound, others)?;
            self.bound = &[];
            return self.others.cut(alloc, number);
        }
        self.others.cut(alloc, number - self.bound.len() as u32)
    }

    /// Brings variables behind those in reach.
    #[tactic(auto, using(crate::proofs::ReachLaws::joined_behind))]
    pub(crate) fn extend(&mut self, behind: Vec<Out>) -> Result<(), NoMemory>
        ensures { OnOk result (self.new ≡ self.old ++ behind.items) }
    {
        self.others.extend(behind)
    }

    /// Brings a variable with this value into reach.
    #[tactic(auto, using(crate::proofs::ReachLaws::joined_behind))]
    pub(crate) fn enter(&mut self, value: Out) -> Result<(), NoMemory>
        ensures { OnOk result (self.new ≡ self.old ++ value ∷ []) }
    {
        self.others.enter(value)
    }

    /// Takes the last variable out of reach again.
    #[tactic(auto, using(crate::proofs::ReachLaws::left_behind, crate::proofs::ReachLaws::left_lent))]
    pub(crate) fn leave(&mut self)
        ensures { self.new ≡ take (length self.old - 1) self.old }
    {
        if self.others.len() == 0 {
            self.bound = &self.bound[..self.bound.len().saturating_sub(1)];
        } else {
            self.others.leave();
        }
    }
}
