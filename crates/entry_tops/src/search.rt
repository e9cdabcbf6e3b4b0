ghost use Rattle.std.specs.Prelude.{◌≡◌, ◌++◌, List, [], None, replicate, IfOk, OnOk, MatchOption};
ghost use Rattle.mof_metamodel.specs.declared.desc.MetaDesc.{MetaDesc};
ghost use Rattle.qv_syntax.specs.declared.program.Rel.{Rel};
ghost use Rattle.qvtr_semantics.specs.Satisfaction.{IsTop};
ghost use Rattle.term_table.specs.TermTables.{IsGrown};
ghost use Rattle.entry_bindings.specs.Asked.{AreMatchesWithin};
ghost use Rattle.entry_finding.specs.Premises.{CanBeEnforced};
ghost use Rattle.entry_finding.specs.Prepared.{ArePreparations};
ghost use Rattle.entry_tops.specs.Tops.{AreTopsFound, IsUnmetTop, IfTopsMet, IfTopsUnmet};
ghost use Rattle.entry_tops.specs.TopOrder.{numbers_of, AreTopsInOrder};
ghost use Rattle.entry_tops.specs.Steps.{IsWithFound, IsWithRelation, IsUnmetWith};

use crate::names::add_names;
use crate::order::tops_in_order;
use crate::ranked::Ranked;
use crate::tops::{Tops, TopsEnd};
use entry_bindings::MatchTable;
use entry_finding::{Finding, Found, NumberedEntry, Rooted, UnmetEntry, World, entries_with};
use entry_making::NumberedCall;
use mof_metamodel::{NoMemory, Seq};
use qv_syntax::Dom;
use std::alloc::Global;
use term_table::{NumberedValue, TermTable};

/// Puts these entries behind the others.
fn append_entries(
    entries: &mut Seq<NumberedEntry>,
    more: Seq<NumberedEntry>,
) -> Result<(), NoMemory>
    ensures { OnOk result (entries.new ≡ entries.old ++ more) }
{
    for e in more.into_vec() {
        entries.push(e)?;
    }
    Ok(())
}

/// Puts these calls behind the others.
fn append_calls(calls: &mut Seq<NumberedCall>, more: Seq<NumberedCall>) -> Result<(), NoMemory>
    ensures { OnOk result (calls.new ≡ calls.old ++ more) }
{
    for call in more.into_vec() {
        calls.push(call)?;
    }
    Ok(())
}

/// Puts what was found for a relation with these domains behind the others.
fn append_found(
    alloc: Global,
    domains: &[Dom],
    found: Found,
    tops: &mut Tops,
) -> Result<(), NoMemory>
    ensures { OnOk result (IsWithFound domains.now found tops.old tops.new) }
{
    let Found { entries, calls } = found;
    add_names(alloc, domains, entries.as_slice(), &mut tops.matches)?;
    append_entries(&mut tops.entries, entries)?;
    append_calls(&mut tops.calls, calls)
}

/// No value for each of so many variables.
fn no_roots(alloc: Global, count: usize) -> Result<Seq<Option<NumberedValue>>, NoMemory>
    ensures { IfOk result (λ roots. roots ≡ replicate count None) }
{
    let mut roots = Seq::new(alloc);
    for i in 0..count {
        roots.push(None)?;
    }
    Ok(roots)
}

/// Puts the entries of a top relation behind the others, or tells the first of them that is unmet.
fn add_relation(
    world: &World<'_, '_, '_>,
    number: u32,
    table: &mut TermTable,
    tops: &mut Tops,
) -> Result<Option<UnmetEntry>, NoMemory>
    requires premises { (metas : List MetaDesc) × CanBeEnforced metas world.now.program.now world.now.models.now }
    requires prepared { ArePreparations world.now.program.now world.now.models.now world.now.preparations.now }
    requires top { (rel : Rel) × IsTop world.now.program.now number rel }
    requires names { AreMatchesWithin table.old tops.old.matches }
    ensures found { IfOk result (λ unmet. MatchOption unmet (IsWithRelation world.now.program.now world.now.models.now table.new number tops.old tops.new) (IsUnmetWith world.now.program.now world.now.models.now table.new number tops.old)) }
    ensures grown { IsGrown table.old table.new }
{
    let rel = &world.program.rels.as_slice()[number as usize];
    let roots = no_roots(world.alloc, rel.vars.len())?;
    let rooted = Rooted {
        rel: number,
        called: false,
        roots: roots.as_slice(),
    };
    match entries_with(world, &rooted, table, &tops.matches)? {
        Finding::Met(found) => {
            append_found(world.alloc, rel.domains.as_slice(), found, tops)?;
            Ok(None)
        }
        Finding::Unmet(unmet) => Ok(Some(unmet)),
    }
}

/// Puts the entries of top relations in this order behind one another, or tells the first of them that is unmet.
fn add_relations(
    world: &World<'_, '_, '_>,
    order: &[Ranked],
    table: &mut TermTable,
    tops: &mut Tops,
) -> Result<Option<UnmetEntry>, NoMemory>
    requires premises { (metas : List MetaDesc) × CanBeEnforced metas world.now.program.now world.now.models.now }
    requires prepared { ArePreparations world.now.program.now world.now.models.now world.now.preparations.now }
    requires ordered { AreTopsInOrder world.now.program.now (numbers_of order.now) }
    requires none { (tops.old.entries ≡ []) × (tops.old.calls ≡ []) × (tops.old.matches ≡ []) }
    ensures found { IfOk result (λ unmet. MatchOption unmet (AreTopsFound world.now.program.now world.now.models.now table.new tops.new) (IsUnmetTop world.now.program.now world.now.models.now table.new)) }
    ensures grown { IsGrown table.old table.new }
{
    for i in 0..order.len() {
        if let Some(unmet) = add_relation(world, order[i].number, table, tops)? {
            return Ok(Some(unmet));
        }
    }
    Ok(None)
}

/// The entries of top relations by the strata of their when clauses, or the first of them that is unmet (QVT 1.3, sections 7.2 and 7.10.2).
///
/// # Errors
/// `NoMemory` where memory runs out.
pub fn top_entries(world: &World<'_, '_, '_>, table: &mut TermTable) -> Result<TopsEnd, NoMemory>
    requires premises { (metas : List MetaDesc) × CanBeEnforced metas world.now.program.now world.now.models.now }
    requires prepared { ArePreparations world.now.program.now world.now.models.now world.now.preparations.now }
    ensures met { IfOk result (IfTopsMet (AreTopsFound world.now.program.now world.now.models.now table.new)) }
    ensures unmet { IfOk result (IfTopsUnmet (IsUnmetTop world.now.program.now world.now.models.now table.new)) }
    ensures grown { IsGrown table.old table.new }
{
    let order = tops_in_order(world.alloc, world.program)?;
    let mut tops = Tops {
        entries: Seq::new(world.alloc),
        calls: Seq::new(world.alloc),
        matches: MatchTable::new(world.alloc),
    };
    match add_relations(world, order.as_slice(), table, &mut tops)? {
        Some(unmet) => Ok(TopsEnd::Unmet(unmet)),
        None => Ok(TopsEnd::Met(tops)),
    }
}
