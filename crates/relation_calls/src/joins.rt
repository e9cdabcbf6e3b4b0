//! Joins of the bindings of a relation with the matches of the relations that its when clause calls.
ghost use Rattle.std.specs.Prelude.{◌≡◌, ◌∷◌, [], List, map, length, replicate, slice_set, slice_index_or, Contains, None, Some, IfOk, IfSome, IsTrue, AllPairs};
ghost use Rattle.qv_syntax.specs.declared.program.Dom.{Dom};
ghost use Rattle.qv_syntax.specs.declared.program.Conj.TheVariants.{Call};
ghost use Rattle.qvtr_semantics.specs.Satisfaction.{IsLess};
ghost use Rattle.template_match.specs.Posed.{HasPrimitives};
ghost use Rattle.template_match.specs.Search.{values_of};
ghost use Rattle.relation_calls.specs.Calm.{AreCalm};
ghost use Rattle.relation_calls.specs.Founds.{AreEnough};
ghost use Rattle.relation_calls.specs.Memos.{IsTold};
ghost use Rattle.relation_calls.specs.Tables.{AreMatches, IsSound, AreSound, with_arguments, columns_of};
ghost use Rattle.relation_calls.specs.Visits.{IsVisit};

use crate::calm::{MAX_DEPTH, height_in};
use crate::matches::make_tables;
use crate::memo::Memo;
use crate::visit::Visit;
use mof_metamodel::{NoMemory, Seq};
use qv_syntax::{Conj, Dom, Rel, Typed};
use qvtr_semantics::Binding;
use std::alloc::Global;
use template_match::{Join, MatchTable, bindings, joined_bindings, variable_alone};

// ---- columns

/// No variable for each variable of the called relation.
fn without_arguments(alloc: Global, called: &Rel) -> Result<Vec<Option<u32>>, NoMemory>
    ensures { IfOk result (λ places. places.items ≡ replicate (length called.now.vars) None) }
{
    let mut places = Vec::new(alloc);
    for var in called.vars.as_slice() {
        places.push(None)?;
    }
    Ok(places)
}

/// The variable that a call gives as a root, if there is a place for it.
fn put_argument(places: &mut Vec<Option<u32>>, root: u32, variable: Option<u32>)
    ensures { places.new.items ≡ slice_set places.old.items root variable }
{
    let place = root as usize;
    if place < places.len() {
        places[place] = variable;
    }
}

/// The variables that a call gives as the roots of domains.
fn put_arguments(places: Vec<Option<u32>>, domains: &[Dom], args: &[Typed]) -> Vec<Option<u32>>
    ensures { result.items ≡ with_arguments places.items domains.now args.now }
{
    let mut places = places;
    let count = domains.len().min(args.len());
    for i in 0..count {
        put_argument(&mut places, domains[i].root, variable_alone(&args[i]));
    }
    places
}

/// The variable that a call gives as this root.
fn argument_at(places: &[Option<u32>], root: u32) -> Option<u32>
    ensures { result ≡ slice_index_or places.now root None }
{
    match places.get(root as usize) {
        Some(variable) => *variable,
        None => None,
    }
}

/// Those that it gives as the roots of domains.
fn arguments_at(
    alloc: Global,
    places: &[Option<u32>],
    domains: &[Dom],
) -> Result<Seq<Option<u32>>, NoMemory>
    ensures { IfOk result (λ columns. columns ≡ map (λ (dom : Dom). slice_index_or places.now dom.root None) domains.now) }
{
    let mut columns = Seq::new(alloc);
    for dom in domains {
        columns.push(argument_at(places, dom.root))?;
    }
    Ok(columns)
}

/// The variable of the caller for each column of a table of the called relation.
fn columns_of(alloc: Global, called: &Rel, args: &[Typed]) -> Result<Seq<Option<u32>>, NoMemory>
    ensures { IfOk result (λ columns. columns ≡ columns_of called.now args.now) }
{
    let domains = called.domains.as_slice();
    let places = put_arguments(without_arguments(alloc, called)?, domains, args);
    arguments_at(alloc, places.as_slice(), domains)
}

// ---- joins

/// The join of a call with the table of the relation that it calls.
fn join_with<'t>(
    visit: &Visit<'_, '_>,
    table: &'t MatchTable,
    number: u32,
    args: &[Typed],
) -> Result<Option<Join<'t>>, NoMemory>
    requires formed { IsVisit visit.now }
    requires matches { AreMatches visit.now.program.now visit.now.models.now number table.now }
    ensures { IfOk result (λ join. IfSome join (λ j. (clause : List Conj) → Contains clause (Call number args.now) → IsSound visit.now.program.now visit.now.models.now clause j)) }
{
    match visit.program.rels.as_slice().get(number as usize) {
        Some(called) => {
            let variables = columns_of(visit.alloc, called, args)?;
            Ok(Some(Join { table, variables }))
        }
        None => Ok(None),
    }
}

/// The join of a conjunct, if it is a call of a relation with a table.
fn join_of<'t>(
    visit: &Visit<'_, '_>,
    memo: &'t Memo,
    conjunct: &Conj,
) -> Result<Option<Join<'t>>, NoMemory>
    requires visit { IsVisit visit.now }
    requires told { IsTold visit.now.program.now visit.now.models.now memo.now }
    ensures { IfOk result (λ join. IfSome join (λ j. (clause : List Conj) → Contains clause conjunct.now → IsSound visit.now.program.now visit.now.models.now clause j)) }
{
    match conjunct {
        Conj::Call(number, args) => match memo.table(*number) {
            Some(table) => join_with(visit, table, *number, args.as_slice()),
            None => Ok(None),
        },
        _ => Ok(None),
    }
}

/// The joins of a relation with the tables that are kept of those that its when clause calls.
pub(crate) fn joins_of<'t>(visit: &Visit<'_, '_>, memo: &'t Memo) -> Result<Seq<Join<'t>>, NoMemory>
    requires visit { IsVisit visit.now }
    requires told { IsTold visit.now.program.now visit.now.models.now memo.now }
    ensures { IfOk result (AreSound visit.now.program.now visit.now.models.now visit.now.rel.now.whens) }
{
    let mut joins = Seq::new(visit.alloc);
    for conjunct in visit.rel.whens.as_slice() {
        if let Some(join) = join_of(visit, memo, conjunct)? {
            joins.push(join)?;
        }
    }
    Ok(joins)
}

// ---- bindings

/// Whether all relations are calm that the when clause calls. Tables of their matches are then kept.
fn is_joinable(visit: &Visit<'_, '_>, memo: &mut Memo) -> Result<bool, NoMemory>
    requires visit { IsVisit visit.now }
    requires told { IsTold visit.now.program.now visit.now.models.now memo.old }
    ensures value { IfOk result (λ all. IsTrue all → AreCalm visit.now.program.now visit.now.rel.now.whens) }
    ensures told { IsTold visit.now.program.now visit.now.models.now memo.new }
{
    let whens = visit.rel.whens.as_slice();
    match height_in(visit, memo, whens, MAX_DEPTH)? {
        Some(_) => {
            make_tables(visit, memo, whens, MAX_DEPTH)?;
            Ok(true)
        }
        None => Ok(false),
    }
}

/// The bindings that meet the source and stand in the joins.
fn joined(visit: &Visit<'_, '_>, memo: &Memo, fixed: &Binding) -> Result<Seq<Binding>, NoMemory>
    requires visit { IsVisit visit.now }
    requires told { IsTold visit.now.program.now visit.now.models.now memo.now }
    requires calm { AreCalm visit.now.program.now visit.now.rel.now.whens }
    requires places { length fixed.now.values ≡ length visit.now.rel.now.vars }
    requires primitives { HasPrimitives visit.now.rel.now fixed.now.values }
    ensures enough { IfOk result (λ bs. AreEnough visit.now.program.now visit.now.models.now visit.now.rel.now fixed.now.values (values_of bs)) }
    ensures sorted { IfOk result (λ bs. AllPairs (IsLess visit.now.rel.now.universal) (values_of bs)) }
{
    let joins = joins_of(visit, memo)?;
    joined_bindings(
        visit.alloc,
        visit.program,
        visit.plan,
        visit.models,
        fixed,
        joins.as_slice(),
    )
}

/// Bindings with which a relation is asked for these values of some variables, in order: those that meet its
/// source, but for some one of whose calls in the when clause doesn't match.
pub(crate) fn enough_bindings(
    visit: &Visit<'_, '_>,
    memo: &mut Memo,
    fixed: &Binding,
) -> Result<Seq<Binding>, NoMemory>
    requires visit { IsVisit visit.now }
    requires told { IsTold visit.now.program.now visit.now.models.now memo.old }
    requires places { length fixed.now.values ≡ length visit.now.rel.now.vars }
    requires primitives { HasPrimitives visit.now.rel.now fixed.now.values }
    ensures enough { IfOk result (λ bs. AreEnough visit.now.program.now visit.now.models.now visit.now.rel.now fixed.now.values (values_of bs)) }
    ensures sorted { IfOk result (λ bs. AllPairs (IsLess visit.now.rel.now.universal) (values_of bs)) }
    ensures told { IsTold visit.now.program.now visit.now.models.now memo.new }
{
    if is_joinable(visit, memo)? {
        joined(visit, memo, fixed)
    } else {
        bindings(visit.alloc, visit.program, visit.plan, visit.models, fixed)
    }
}
