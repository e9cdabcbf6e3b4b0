ghost use Rattle.std.specs.Prelude.{◌≡◌, ℕ, List, true, Some, slice_get, Contains};
ghost use Rattle.mof_metamodel.specs.declared.desc.MetaDesc.{MetaDesc};
ghost use Rattle.object_tables.specs.Models.{ModelData};
ghost use Rattle.qv_syntax.specs.declared.program.Program.{Program};
ghost use Rattle.qv_syntax.specs.declared.program.Rel.{Rel};
ghost use Rattle.repair_semantics.specs.declared.term.Term.{Term};
ghost use Rattle.repair_semantics.specs.declared.entry.Entry.{Entry};
ghost use Rattle.repair_semantics.specs.declared.demand.Demand.{Demand};
ghost use Rattle.repair_semantics.specs.Making.{entry_known};
ghost use Rattle.repair_semantics.specs.Entries.{IsUniversalTarget, calls_in, AreMatches, IsEntry};
ghost use Rattle.repair_semantics.specs.EntryValues.{TermValues, value_of, known};
ghost use Rattle.repair_semantics.specs.declared.term.TermValue.TheVariants as values;
ghost use Rattle.qv_syntax.specs.WellFormed.{IsWellFormed};
ghost use Rattle.enforcement_rules.specs.Rules.{IsEnforceable};
ghost use Rattle.repair_semantics.specs.Demands.{demands_of, demanded_terms};
ghost use Rattle.reading_laws.specs.Readings.{HasTermsAmong};
ghost use Rattle.repair_laws.specs.DemandedKeys.{IsDemandedByKey};
ghost use Rattle.repair_laws.specs.Going.{GoesInto};
ghost use Rattle.repair_laws.specs.Enforced.{AreEnforced};

/// Where no entry is unmet, each term that an entry has is demanded, and of a class that is a kind of its variable's; and each demanded term
/// is of a class of which enforcement makes objects, and its key values are demanded (QVT 1.3, section 7.10.2).
pub fn terms_of_entries_are_demanded()
    ensures terms { (metas : List MetaDesc) (program : Program) (sources : List ModelData) (m : ModelData) (entries : List Entry) → AreEnforced metas program sources m entries
        → (e : Entry) (rel : Rel) → IsEntry program sources e → slice_get program.rels e.rel ≡ Some rel
        → HasTermsAmong program m (demanded_terms (demands_of program sources entries)) rel (entry_known program sources rel e.values).values }
    ensures keys { (metas : List MetaDesc) (program : Program) (sources : List ModelData) (m : ModelData) (entries : List Entry) → AreEnforced metas program sources m entries
        → (t : Term) → Contains (demanded_terms (demands_of program sources entries)) t → IsDemandedByKey program m.meta (demands_of program sources entries) t }
{}

/// What is demanded goes into its slot: the property is one of the owner's class, a reference
/// for an object, and an attribute for a datum, as one of the target's values is seen.
pub fn demands_go_into_slots()
    ensures { (metas : List MetaDesc) (program : Program) (sources : List ModelData) (m : ModelData) (entries : List Entry) → AreEnforced metas program sources m entries
        → (d : Demand) → Contains (demands_of program sources entries) d → GoesInto program m d }
{}

/// The term of a universal variable for objects of the target is that of a variable of a match: the variable stands alone as an argument of a call
/// in the when clause (QVT 1.3, sections 7.2 and 7.10.2).
pub fn universal_terms_have_matches()
    ensures { (metas : List MetaDesc) (program : Program) (sources : List ModelData) (number : ℕ) (rel : Rel) → IsWellFormed metas program → IsEnforceable metas program
        → slice_get program.rels number ≡ Some rel → rel.in_direction ≡ true → (b : TermValues) (matches : List Entry) → AreMatches program (calls_in program sources (known b) rel.whens) matches
        → ((e : Entry) → Contains matches e → IsEntry program sources e) → (v : ℕ) (t : Term) → IsUniversalTarget program rel v → value_of b v ≡ Some (values.Term t)
        → (e : Entry) × (called : Rel) × (w : ℕ) × Contains matches e × (slice_get program.rels e.rel ≡ Some called)
        × (value_of (entry_known program sources called e.values).values w ≡ Some (values.Term t)) }
{}
