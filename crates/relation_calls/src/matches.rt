//! Tables of the matches of relations: for each partner of a binding that meets the source and stands in the
//! joins of the relation itself a row of the data at the roots. They are collected for one object of the
//! source after another, and given up where they are too many.
ghost use Rattle.std.specs.Prelude.{◌≡◌, false, Contains, Some, slice_get, IfOk, IfSome, IsTrue, OnOk};
ghost use Rattle.qvtr_semantics.specs.Templates.{Values, value_at};
ghost use Rattle.template_match.specs.Search.{values_of};
ghost use Rattle.relation_calls.specs.Memos.{IsTold};
ghost use Rattle.relation_calls.specs.Seeds.{IsSeedOf, AreSeeds, has_primitive};
ghost use Rattle.relation_calls.specs.Tables.{row_of, HasRow, AreKept, HasPartners, HasPartnersFrom, IsTable, AreSound};
ghost use Rattle.relation_calls.specs.Visits.{IsVisit, IsSourceBinding};

use crate::joins::joins_of;
use crate::memo::Memo;
use crate::seeds::{has_primitive, root_seeds};
use crate::visit::Visit;
use mof_metamodel::{NoMemory, Seq};
use ocl_eval::Models;
use qv_syntax::{Conj, Dom, Rel};
use qvtr_semantics::{Binding, Datum};
use std::alloc::Global;
use template_match::{
    Join, MatchTable, duplicate_value, joined_bindings, plan_of, target_bindings,
};

// ---- how many rows a table may have

/// The most rows for each object that lives, and beyond them.
const ROWS_PER_OBJECT: usize = 4;

const MORE_ROWS: usize = 1024;

/// How many objects of all models live.
fn live_objects(models: &Models<'_>) -> usize {
    let mut live: usize = 0;
    for number in 0..models.len() {
        if let Some(model) = models.get(number) {
            live = live.saturating_add(model.len() as usize);
        }
    }
    live
}

/// The most rows of a table.
fn most_rows(models: &Models<'_>) -> usize {
    live_objects(models)
        .saturating_mul(ROWS_PER_OBJECT)
        .saturating_add(MORE_ROWS)
}

// ---- rows

/// The value of a variable in a binding.
fn root_datum(alloc: Global, g: &Binding, root: u32) -> Result<Option<Datum>, NoMemory>
    ensures { IfOk result (λ datum. datum ≡ value_at g.now.values root) }
{
    match g.values.as_slice().get(root as usize) {
        Some(value) => duplicate_value(alloc, value),
        None => Ok(None),
    }
}

/// The data of the roots of domains, if each root has one.
fn row_of(alloc: Global, domains: &[Dom], g: &Binding) -> Result<Option<Seq<Datum>>, NoMemory>
    ensures { IfOk result (λ row. row ≡ row_of domains.now g.now.values) }
{
    let mut row = Seq::new(alloc);
    for dom in domains {
        match root_datum(alloc, g, dom.root)? {
            Some(datum) => row.push(datum)?,
            None => return Ok(None),
        }
    }
    Ok(Some(row))
}

/// Adds the row of a binding, if it has one and there is room for it.
fn add_row(
    alloc: Global,
    domains: &[Dom],
    g: &Binding,
    most: usize,
    rows: &mut Seq<Seq<Datum>>,
) -> Result<bool, NoMemory>
    ensures kept { OnOk result (AreKept rows.old rows.new) }
    ensures added { IfOk result (λ all. IsTrue all → HasRow domains.now rows.new g.now.values) }
{
    if rows.len() >= most {
        return Ok(false);
    }
    match row_of(alloc, domains, g)? {
        Some(row) => {
            rows.push(row)?;
            Ok(true)
        }
        None => Ok(false),
    }
}

/// Adds the rows of bindings, as long as there is room.
fn add_rows(
    alloc: Global,
    domains: &[Dom],
    gs: &[Binding],
    most: usize,
    rows: &mut Seq<Seq<Datum>>,
) -> Result<bool, NoMemory>
    ensures kept { OnOk result (AreKept rows.old rows.new) }
    ensures added { IfOk result (λ all. IsTrue all → (g : Values) → Contains (values_of gs.now) g → HasRow domains.now rows.new g) }
{
    for g in gs {
        if !add_row(alloc, domains, g, most, rows)? {
            return Ok(false);
        }
    }
    Ok(true)
}

/// Adds those of the partners of a binding.
fn add_partners(
    visit: &Visit<'_, '_>,
    b: &Binding,
    most: usize,
    rows: &mut Seq<Seq<Datum>>,
) -> Result<bool, NoMemory>
    requires visit { IsVisit visit.now }
    requires source { IsSourceBinding visit.now.rel.now b.now.values }
    ensures kept { OnOk result (AreKept rows.old rows.new) }
    ensures added { IfOk result (λ all. IsTrue all → HasPartners visit.now.program.now visit.now.models.now visit.now.rel.now rows.new b.now.values) }
{
    let gs = target_bindings(visit.alloc, visit.program, visit.plan, visit.models, b)?;
    add_rows(
        visit.alloc,
        visit.rel.domains.as_slice(),
        gs.as_slice(),
        most,
        rows,
    )
}

/// Adds those of the partners of bindings.
fn add_all_partners(
    visit: &Visit<'_, '_>,
    bs: &[Binding],
    most: usize,
    rows: &mut Seq<Seq<Datum>>,
) -> Result<bool, NoMemory>
    requires visit { IsVisit visit.now }
    requires sources { (b : Values) → Contains (values_of bs.now) b → IsSourceBinding visit.now.rel.now b }
    ensures kept { OnOk result (AreKept rows.old rows.new) }
    ensures added { IfOk result (λ all. IsTrue all → (b : Values) → Contains (values_of bs.now) b → HasPartners visit.now.program.now visit.now.models.now visit.now.rel.now rows.new b) }
{
    for b in bs {
        if !add_partners(visit, b, most, rows)? {
            return Ok(false);
        }
    }
    Ok(true)
}

/// Adds those of the partners of the bindings that begin with a seed and stand in the joins.
fn add_from(
    visit: &Visit<'_, '_>,
    joins: &[Join<'_>],
    seed: &Binding,
    most: usize,
    rows: &mut Seq<Seq<Datum>>,
) -> Result<bool, NoMemory>
    requires visit { IsVisit visit.now }
    requires seed { IsSeedOf visit.now.rel.now seed.now.values }
    ensures kept { OnOk result (AreKept rows.old rows.new) }
    ensures added { IfOk result (λ all. IsTrue all → HasPartnersFrom visit.now.program.now visit.now.models.now visit.now.rel.now joins.now rows.new seed.now.values) }
{
    let bs = joined_bindings(
        visit.alloc,
        visit.program,
        visit.plan,
        visit.models,
        seed,
        joins,
    )?;
    add_all_partners(visit, bs.as_slice(), most, rows)
}

/// The rows of the partners of the bindings that begin with one of the seeds and stand in the joins, if they
/// aren't too many.
fn rows_from(
    visit: &Visit<'_, '_>,
    joins: &[Join<'_>],
    seeds: &[Binding],
) -> Result<Option<Seq<Seq<Datum>>>, NoMemory>
    requires visit { IsVisit visit.now }
    requires seeds { (f : Values) → Contains (values_of seeds.now) f → IsSeedOf visit.now.rel.now f }
    ensures { IfOk result (λ o. IfSome o (λ rows. (f : Values) → Contains (values_of seeds.now) f
        → HasPartnersFrom visit.now.program.now visit.now.models.now visit.now.rel.now joins.now rows f)) }
{
    let most = most_rows(visit.models);
    let mut rows = Seq::new(visit.alloc);
    for seed in seeds {
        if !add_from(visit, joins, seed, most, &mut rows)? {
            return Ok(None);
        }
    }
    Ok(Some(rows))
}

// ---- tables

/// The table of the relation of the visit by these seeds.
fn table_from(
    visit: &Visit<'_, '_>,
    joins: &[Join<'_>],
    seeds: &[Binding],
) -> Result<Option<MatchTable>, NoMemory>
    requires visit { IsVisit visit.now }
    requires sound { AreSound visit.now.program.now visit.now.models.now visit.now.rel.now.whens joins.now }
    requires listed { has_primitive visit.now.rel.now ≡ false }
    requires seeds { AreSeeds visit.now.program.now visit.now.models.now visit.now.rel.now (values_of seeds.now) }
    ensures { IfOk result (IsTable visit.now.program.now visit.now.models.now visit.now.plan.now.rel) }
{
    match rows_from(visit, joins, seeds)? {
        Some(rows) => Ok(Some(MatchTable::build(visit.alloc, rows)?)),
        None => Ok(None),
    }
}

/// The same, for one object of the source after another.
fn table_with(visit: &Visit<'_, '_>, joins: &[Join<'_>]) -> Result<Option<MatchTable>, NoMemory>
    requires visit { IsVisit visit.now }
    requires sound { AreSound visit.now.program.now visit.now.models.now visit.now.rel.now.whens joins.now }
    requires listed { has_primitive visit.now.rel.now ≡ false }
    ensures { IfOk result (IsTable visit.now.program.now visit.now.models.now visit.now.plan.now.rel) }
{
    let seeds = root_seeds(visit)?;
    table_from(visit, joins, seeds.as_slice())
}

/// The same, with the tables that are kept.
fn table_of(visit: &Visit<'_, '_>, memo: &Memo) -> Result<Option<MatchTable>, NoMemory>
    requires visit { IsVisit visit.now }
    requires told { IsTold visit.now.program.now visit.now.models.now memo.now }
    requires listed { has_primitive visit.now.rel.now ≡ false }
    ensures { IfOk result (IsTable visit.now.program.now visit.now.models.now visit.now.plan.now.rel) }
{
    let joins = joins_of(visit, memo)?;
    table_with(visit, joins.as_slice())
}

/// The table of a relation of the program, with those that are kept.
fn table_at(
    visit: &Visit<'_, '_>,
    memo: &Memo,
    number: u32,
    rel: &Rel,
) -> Result<Option<MatchTable>, NoMemory>
    requires visit { IsVisit visit.now }
    requires told { IsTold visit.now.program.now visit.now.models.now memo.now }
    requires found { slice_get visit.now.program.now.rels number ≡ Some rel.now }
    requires listed { has_primitive rel.now ≡ false }
    ensures { IfOk result (IsTable visit.now.program.now visit.now.models.now number) }
{
    let plan = plan_of(visit.alloc, visit.program, number)?;
    let matching = Visit {
        alloc: visit.alloc,
        program: visit.program,
        models: visit.models,
        rel,
        plan: &plan,
        upto: visit.upto,
    };
    table_of(&matching, memo)
}

// ---- tables of what is called

/// The table of a relation, where those that its when clause calls have theirs first.
#[cycle(tables)]
fn table_behind(
    visit: &Visit<'_, '_>,
    memo: &mut Memo,
    number: u32,
    rel: &Rel,
    depth: u32,
) -> Result<Option<MatchTable>, NoMemory>
    requires visit { IsVisit visit.now }
    requires told { IsTold visit.now.program.now visit.now.models.now memo.old }
    requires found { slice_get visit.now.program.now.rels number ≡ Some rel.now }
    ensures value { IfOk result (IsTable visit.now.program.now visit.now.models.now number) }
    ensures told { IsTold visit.now.program.now visit.now.models.now memo.new }
{
    if has_primitive(rel) {
        return Ok(None);
    }
    make_tables(visit, memo, rel.whens.as_slice(), depth)?;
    table_at(visit, memo, number, rel)
}

/// The table of the relation of that number, through so many calls within one another.
#[cycle(tables)]
fn table_anew(
    visit: &Visit<'_, '_>,
    memo: &mut Memo,
    number: u32,
    depth: u32,
) -> Result<Option<MatchTable>, NoMemory>
    requires visit { IsVisit visit.now }
    requires told { IsTold visit.now.program.now visit.now.models.now memo.old }
    ensures value { IfOk result (IsTable visit.now.program.now visit.now.models.now number) }
    ensures told { IsTold visit.now.program.now visit.now.models.now memo.new }
{
    if depth == 0 {
        return Ok(None);
    }
    match visit.program.rels.as_slice().get(number as usize) {
        Some(rel) => table_behind(visit, memo, number, rel, depth - 1),
        None => Ok(None),
    }
}

/// Makes it and keeps it.
#[cycle(tables)]
fn make_anew(
    visit: &Visit<'_, '_>,
    memo: &mut Memo,
    number: u32,
    depth: u32,
) -> Result<(), NoMemory>
    requires visit { IsVisit visit.now }
    requires told { IsTold visit.now.program.now visit.now.models.now memo.old }
    ensures told { IsTold visit.now.program.now visit.now.models.now memo.new }
{
    let table = table_anew(visit, memo, number, depth)?;
    memo.keep_table(number, table)
}

/// Makes the table of the relation that a conjunct calls, if none was made.
#[cycle(tables)]
fn make_table(
    visit: &Visit<'_, '_>,
    memo: &mut Memo,
    conjunct: &Conj,
    depth: u32,
) -> Result<(), NoMemory>
    requires visit { IsVisit visit.now }
    requires told { IsTold visit.now.program.now visit.now.models.now memo.old }
    ensures told { IsTold visit.now.program.now visit.now.models.now memo.new }
{
    match conjunct {
        Conj::Call(number, _) => if memo.has_table(*number) {
            Ok(())
        } else {
            make_anew(visit, memo, *number, depth)
        },
        _ => Ok(()),
    }
}

/// Makes the tables of the relations that a clause calls, but for those that were made. Behind so many calls
/// within one another none is made.
#[cycle(tables)]
pub(crate) fn make_tables(
    visit: &Visit<'_, '_>,
    memo: &mut Memo,
    clause: &[Conj],
    depth: u32,
) -> Result<(), NoMemory>
    requires visit { IsVisit visit.now }
    requires told { IsTold visit.now.program.now visit.now.models.now memo.old }
    ensures told { IsTold visit.now.program.now visit.now.models.now memo.new }
{
    for conjunct in clause {
        make_table(visit, memo, conjunct, depth)?;
    }
    Ok(())
}
