ghost use Rattle.std.specs.Prelude.{◌≡◌, ℕ, List, true, false, Some, slice_get, Contains};
ghost use Rattle.mof_metamodel.specs.declared.desc.MetaDesc.{MetaDesc};
ghost use Rattle.object_tables.specs.Models.{ModelData};
ghost use Rattle.qv_syntax.specs.declared.program.Program.{Program};
ghost use Rattle.qv_syntax.specs.declared.program.Rel.{Rel};
ghost use Rattle.qv_syntax.specs.WellFormed.{IsWellFormed};
ghost use Rattle.qvtr_semantics.specs.Templates.{Values};
ghost use Rattle.qvtr_semantics.specs.Bindings.{Target};
ghost use Rattle.qvtr_semantics.specs.Calls.{RelationCall, SourceMatches, TargetHolds, MatchesWithin, Holds, free, calls_of};
ghost use Rattle.qvtr_semantics.specs.Satisfaction.{IsTop, Satisfied};
ghost use Rattle.qvtr_semantics.specs.Chains.{Chain, IsCyclic, IsDeep};
ghost use Rattle.repair_semantics.specs.declared.term.Term.{Term};
ghost use Rattle.repair_semantics.specs.declared.entry.Entry.{Entry};
ghost use Rattle.repair_semantics.specs.declared.entry.EntryName.{EntryName};
ghost use Rattle.repair_semantics.specs.EntryValues.{TermValues, root_values, known};
ghost use Rattle.repair_semantics.specs.Making.{entry_known};
ghost use Rattle.repair_semantics.specs.Entries.{calls_in, entry_of, entry_calls, IsEntry};
ghost use Rattle.repair_semantics.specs.EntryChains.{IsUnmet};
ghost use Rattle.reading_laws.specs.Readings.{Numbering, IsReading, AreOver, HaveObjects, Reads};
ghost use Rattle.reading_laws.specs.ReadCalls.{AreReadCalls};
ghost use Rattle.reading_laws.specs.EntryPremises.{EntriesHaveTerms, EntriesAreMet, EntriesStand, HasNoBadChain};

/// The calls of an entry are read as those that its binding makes over the models: of its when clause by the entry's own values, of its where
/// clause by all that it knows, for a partner of its binding. One isn't made exactly where the other isn't (QVT 1.3, sections 7.3 and 7.10.2).
pub fn calls_are_read()
    ensures whens { (metas : List MetaDesc) (program : Program) (sources models : List ModelData) (m : ModelData) (terms : List Term) (number : Numbering)
        → AreOver metas program sources models m → IsReading program m terms number → EntriesHaveTerms program sources m terms → EntriesAreMet program sources
        → (e : Entry) (rel : Rel) → IsEntry program sources e → slice_get program.rels e.rel ≡ Some rel → (c : Values) → Reads program number e.values c
        → AreReadCalls program number (calls_in program sources (known e.values) rel.whens) (calls_of program models c rel.whens) }
    ensures wheres { (metas : List MetaDesc) (program : Program) (sources models : List ModelData) (m : ModelData) (terms : List Term) (number : Numbering)
        → AreOver metas program sources models m → IsReading program m terms number → EntriesHaveTerms program sources m terms → EntriesAreMet program sources
        → (e : Entry) (rel : Rel) → IsEntry program sources e → slice_get program.rels e.rel ≡ Some rel → (c g : Values) → Reads program number e.values c → Target program models rel c g
        → Reads program number (entry_known program sources rel e.values).values g
        → AreReadCalls program number (calls_in program sources (entry_known program sources rel e.values) rel.wheres) (calls_of program models g rel.wheres) }
{}

/// A binding over the models that meets the source of a top relation, and whose calls in the when clause match, is an entry, as it is read. So is
/// one of a relation that an entry calls in its where clause, with the roots of the call as they are read (QVT 1.3, sections 7.3 and 7.10.2).
pub fn matches_are_entries()
    ensures top { (metas : List MetaDesc) (program : Program) (sources models : List ModelData) (m : ModelData) (terms : List Term) (number : Numbering)
        → AreOver metas program sources models m → IsReading program m terms number → EntriesHaveTerms program sources m terms → EntriesAreMet program sources
        → (s place : ℕ) (rel : Rel) → IsTop program place rel → (c : Values) → SourceMatches (MatchesWithin program models s) program models rel (free rel) c
        → (b : TermValues) × Reads program number b c × IsEntry program sources (entry_of program sources place rel false b) }
    ensures called { (metas : List MetaDesc) (program : Program) (sources models : List ModelData) (m : ModelData) (terms : List Term) (number : Numbering)
        → AreOver metas program sources models m → IsReading program m terms number → EntriesHaveTerms program sources m terms → EntriesAreMet program sources
        → (s : ℕ) (e : Entry) → IsEntry program sources e → (from : EntryName) → Contains (entry_calls program sources e) from
        → (rel : Rel) → slice_get program.rels from.rel ≡ Some rel → (roots : Values) → Reads program number (root_values rel from.roots) roots
        → (c : Values) → SourceMatches (MatchesWithin program models s) program models rel roots c
        → (b : TermValues) × Reads program number b c × IsEntry program sources (entry_of program sources from.rel rel true b) }
{}

/// Where no chain of calls between entries comes back to a call or is too long, and no entry is unmet of those that count, none is unmet: each that
/// is called is called in time (QVT 1.3, section 7.10.2).
pub fn called_entries_come_in_time()
    ensures { (metas : List MetaDesc) (program : Program) (sources : List ModelData) → IsWellFormed metas program → HasNoBadChain program sources
        → ((e : Entry) → ¬ IsUnmet program sources e) → EntriesAreMet program sources }
{}

/// Where the terms of a reading have objects, the demands of all entries stand, no chain of their calls comes back to a call or is too long and no
/// entry is unmet, each entry that isn't called has a partner whose calls hold; the relations are satisfied, and no chain of calls over the
/// models comes back to a call or is too long (QVT 1.3, sections 7.2, 7.2.1 and 7.10.2).
pub fn readings_satisfy()
    ensures partners { (metas : List MetaDesc) (program : Program) (sources models : List ModelData) (m : ModelData) (terms : List Term) (number : Numbering)
        → AreOver metas program sources models m → IsReading program m terms number → HaveObjects terms number → EntriesHaveTerms program sources m terms → EntriesStand program sources m number
        → HasNoBadChain program sources → ((e : Entry) → ¬ IsUnmet program sources e)
        → (e : Entry) (rel : Rel) → IsEntry program sources e → slice_get program.rels e.rel ≡ Some rel → e.called ≡ false → (c : Values) → Reads program number e.values c
        → (g : Values) × TargetHolds (Holds program models) program models rel c g }
    ensures satisfied { (metas : List MetaDesc) (program : Program) (sources models : List ModelData) (m : ModelData) (terms : List Term) (number : Numbering)
        → AreOver metas program sources models m → IsReading program m terms number → HaveObjects terms number → EntriesHaveTerms program sources m terms → EntriesStand program sources m number
        → HasNoBadChain program sources → ((e : Entry) → ¬ IsUnmet program sources e) → Satisfied program models }
    ensures chains { (metas : List MetaDesc) (program : Program) (sources models : List ModelData) (m : ModelData) (terms : List Term) (number : Numbering)
        → AreOver metas program sources models m → IsReading program m terms number → HaveObjects terms number → EntriesHaveTerms program sources m terms → EntriesStand program sources m number
        → HasNoBadChain program sources → ((e : Entry) → ¬ IsUnmet program sources e)
        → (chain : List RelationCall) → Chain program models chain → (¬ IsCyclic chain) × (¬ IsDeep chain) }
{}
