ghost use Rattle.std.specs.Prelude.{◌≡◌, ◌<◌, map, length, All, IfOk, MatchOption};
ghost use Rattle.mof_metamodel.specs.Tables.{IsPropOf};
ghost use Rattle.repair_semantics.specs.declared.demand.Demand.{Demand};
ghost use Rattle.repair_semantics.specs.Conflicts.{AreAtPeace, IsClash};
ghost use Rattle.repair_semantics.specs.Demands.{demanded_terms};
ghost use Rattle.term_table.specs.TermTables.{term_at, AreDistinct};
ghost use Rattle.demand_conflicts.specs.NumberedDemands.{demands_in, IsDemandWithin};
ghost use Rattle.entry_finding.specs.Found.{entries_in, IsEntryWithin};
ghost use Rattle.demand_set.specs.Listings.{listed_from};

use crate::clash::clash_of;
use crate::listing::{ListedEntry, Listing, listing_of};
use crate::terms::demanded_numbers;
use crate::trees::{demands_trees, entries_trees, terms_trees};
use demand_conflicts::{NumberedDemand, conflict_among};
use entry_finding::NumberedEntry;
use mof_metamodel::{MetaModel, NoMemory, Seq};
use repair_semantics::{Clash, Demand, Entry, Term};
use std::alloc::Global;
use std::marker::Model;
use term_table::TermTable;

/// All entries of a program in their order, what they demand, and the objects of the target that are demanded. Contracts see it as these
/// three lists.
#[derive(Drop)]
pub struct DemandSet {
    table: TermTable,
    entries: Seq<ListedEntry>,
    list: Seq<NumberedDemand>,
    numbers: Seq<usize>,
}

/// The demands by the numbers that a table gives to terms, and the numbers of the terms that are demanded.
#[derive(Clone, Copy)]
pub struct NumberedDemands<'a> {
    pub table: &'a TermTable,
    pub list: &'a [NumberedDemand],
    pub terms: &'a [usize],
}

impl Model for DemandSet {
    ghost use Rattle.demand_set.specs.DemandSets.{DemandData};

    ghost Value = { DemandData };

    ghost use Rattle.std.specs.Coded.{codes};
    ghost use Rattle.repair_semantics.specs.contracts.term.Term as term;
    ghost use Rattle.repair_semantics.specs.contracts.term.TermValue as value;

    ghost coded = { Prim.hlevel (codes, term.the_row.coded, value.the_row.coded) };

    ghost use Rattle.std.specs.Prelude.{map};
    ghost use Rattle.term_table.specs.TermTables.{term_at};
    ghost use Rattle.demand_conflicts.specs.NumberedDemands.{demands_in};
    ghost use Rattle.demand_set.specs.Listings.{listed_in, AreKept};

    ghost view = { λ d. record { entries = map (listed_in d.table) d.entries; list = demands_in d.table d.list; terms = map (term_at d.table) d.numbers } };

    ghost invariant = { λ d. AreKept d.table d.entries d.list d.numbers };
}

impl DemandSet {
    /// Entries that are sorted, with what they demand.
    pub(crate) fn of_entries(
        alloc: Global,
        table: TermTable,
        entries: Seq<NumberedEntry>,
    ) -> Result<DemandSet, NoMemory>
        requires { All (IsEntryWithin table) entries }
        ensures entries { IfOk result (λ d. d.entries ≡ entries_in table entries) }
        ensures list { IfOk result (λ d. d.list ≡ demands_in table (listed_from 0 entries)) }
        ensures terms { IfOk result (λ d. d.terms ≡ demanded_terms d.list) }
    {
        let Listing {
            entries,
            demands: list,
        } = listing_of(alloc, entries)?;
        let numbers = demanded_numbers(alloc, &table, list.as_slice())?;
        Ok(DemandSet {
            table,
            entries,
            list,
            numbers,
        })
    }

    /// All entries in their order, as trees.
    pub fn entries(&self, alloc: Global) -> Result<Seq<Entry>, NoMemory>
        ensures { IfOk result (λ es. es ≡ self.now.entries) }
    {
        entries_trees(alloc, &self.table, self.entries.as_slice())
    }

    /// What they demand, in the order of the entries and of the text, as trees.
    pub fn list(&self, alloc: Global) -> Result<Seq<Demand>, NoMemory>
        ensures { IfOk result (λ ds. ds ≡ self.now.list) }
    {
        demands_trees(alloc, &self.table, self.list.as_slice())
    }

    /// The terms that are demanded, each once in their order, as trees.
    pub fn terms(&self, alloc: Global) -> Result<Seq<Term>, NoMemory>
        ensures { IfOk result (λ ts. ts ≡ self.now.terms) }
    {
        terms_trees(alloc, &self.table, self.numbers.as_slice())
    }

    /// The demands and the terms by number.
    pub fn numbered(&self) -> NumberedDemands<'_>
        ensures list { demands_in result.table.now result.list.now ≡ self.now.list }
        ensures terms { map (term_at result.table.now) result.terms.now ≡ self.now.terms }
        ensures list_within { All (IsDemandWithin result.table.now) result.list.now }
        ensures terms_within { All (λ n. n < length result.table.now) result.terms.now }
        ensures placed { All (λ (d : Demand). d.entry < length self.now.entries) self.now.list }
    {
        NumberedDemands {
            table: &self.table,
            list: self.list.as_slice(),
            terms: self.numbers.as_slice(),
        }
    }

    /// A conflict between two of the demands, if there is one.
    pub(crate) fn conflict(
        &self,
        alloc: Global,
        meta: &MetaModel,
    ) -> Result<Option<Clash>, NoMemory>
        requires { All (λ (d : Demand). IsPropOf meta.now d.prop) self.now.list }
        ensures { IfOk result (λ clash. MatchOption clash (AreAtPeace meta.now self.now.list) (IsClash meta.now self.now.entries self.now.list)) }
    {
        let _count = self.table.len(); // says that its terms are distinct
        let list = self.list.as_slice();
        match conflict_among(alloc, meta, list)? {
            None => Ok(None),
            Some(found) => {
                let entries = self.entries.as_slice();
                Ok(Some(clash_of(alloc, &self.table, entries, list, found)?))
            }
        }
    }
}
