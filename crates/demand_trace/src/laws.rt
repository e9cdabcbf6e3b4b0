//! Which variables of an entry have values, and of which it makes them.
ghost use Rattle.std.specs.Prelude.{◌≡◌, ◌<◌, ◌↔◌, ℕ, List, length, Some, IsSome, slice_get};
ghost use Rattle.mof_metamodel.specs.declared.desc.MetaDesc.{MetaDesc};
ghost use Rattle.object_tables.specs.Models.{ModelData};
ghost use Rattle.object_tables.specs.Validity.{Valid};
ghost use Rattle.qv_syntax.specs.declared.program.Program.{Program};
ghost use Rattle.qv_syntax.specs.declared.program.Rel.{Rel};
ghost use Rattle.repair_semantics.specs.declared.entry.Entry.{Entry};
ghost use Rattle.repair_semantics.specs.EntryValues.{value_of};
ghost use Rattle.repair_semantics.specs.Entries.{IsEntry};
ghost use Rattle.entry_finding.specs.Premises.{CanBeEnforced};
ghost use Rattle.demand_set.specs.DemandSets.{DemandData, IsDemandSet};
ghost use Rattle.demand_trace.specs.Givens.{IsGiven};

/// An entry has values of the variables that are given: the universal ones, and where it is called the root of its target domain. It makes values of
/// all others, where there is a set of demands and the target is valid. So a trace tells each variable once.
pub fn variables_are_told_once()
    ensures values { (metas : List MetaDesc) (program : Program) (models : List ModelData) → CanBeEnforced metas program models
        → (e : Entry) (rel : Rel) → IsEntry program models e → slice_get program.rels e.rel ≡ Some rel
        → (v : ℕ) → IsSome (value_of e.values v) ↔ IsGiven program rel e.called v }
    ensures made { (metas : List MetaDesc) (program : Program) (models : List ModelData) → CanBeEnforced metas program models
        → (m : ModelData) → slice_get models program.target ≡ Some m → Valid m → (d : DemandData) → IsDemandSet program models d
        → (e : Entry) (rel : Rel) → IsEntry program models e → slice_get program.rels e.rel ≡ Some rel
        → (v : ℕ) → v < length rel.vars → IsSome (value_of e.made v) ↔ (¬ IsGiven program rel e.called v) }
{}
