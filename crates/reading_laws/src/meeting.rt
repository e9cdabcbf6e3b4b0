ghost use Rattle.std.specs.Prelude.{◌≡◌, ◌<◌, ℕ, List, true, false, length, Some, slice_get, Contains};
ghost use Rattle.mof_metamodel.specs.declared.desc.MetaDesc.{MetaDesc};
ghost use Rattle.object_tables.specs.Models.{ModelData};
ghost use Rattle.qv_syntax.specs.declared.program.Program.{Program};
ghost use Rattle.qv_syntax.specs.declared.program.Rel.{Rel};
ghost use Rattle.qv_syntax.specs.declared.program.Conj.TheVariants.{Equation};
ghost use Rattle.qv_syntax.specs.declared.typed.Typed.{Typed};
ghost use Rattle.qvtr_semantics.specs.Expressions.{value, variable};
ghost use Rattle.qvtr_semantics.specs.Templates.{Values};
ghost use Rattle.qvtr_semantics.specs.Bindings.{Source, Target};
ghost use Rattle.repair_semantics.specs.declared.term.Term.{Term};
ghost use Rattle.repair_semantics.specs.declared.term.TermValue.{TermValue};
ghost use Rattle.repair_semantics.specs.EntryValues.{TermValues, value_of};
ghost use Rattle.repair_semantics.specs.Making.{entry_known, entry_scope};
ghost use Rattle.repair_semantics.specs.Unmet.{is_unmet};
ghost use Rattle.repair_semantics.specs.Entries.{TermSource};
ghost use Rattle.repair_semantics.specs.Demands.{demands_where};
ghost use Rattle.enforcement_rules.specs.Rules.{IsEnforceable};
ghost use Rattle.evaluation_laws.specs.Evaluable.{IsEvaluable};
ghost use Rattle.reading_laws.specs.Readings.{Numbering, IsReading, AreOver, HasTermsAmong, AllStand, Reads};
ghost use Rattle.reading_laws.specs.Roots.{HasRootsOf};

/// The values of an entry, as they are read over a model of the target in which its terms have objects, meet the source of its relation
/// (QVT 1.3, sections 7.2 and 7.10.2).
pub fn entries_meet_their_sources()
    ensures { (metas : List MetaDesc) (program : Program) (sources models : List ModelData) (m : ModelData) (terms : List Term) (number : Numbering)
        → AreOver metas program sources models m → IsReading program m terms number
        → (place : ℕ) (rel : Rel) → slice_get program.rels place ≡ Some rel → rel.in_direction ≡ true
        → (roots b : TermValues) → TermSource program sources rel roots b → HasRootsOf metas program sources rel roots → HasTermsAmong program m terms rel b
        → (croots c : Values) → Reads program number roots croots → Reads program number b c → Source program models rel croots c }
{}

/// The equations of an entry hold among its data, and each variable of one that is not unmet has a value: no more equations wait for one another
/// than there are conjuncts, and no more terms than there are variables (QVT 1.3, sections 7.10.1 and 7.10.2).
pub fn entries_are_complete()
    ensures equations { (metas : List MetaDesc) (program : Program) (sources : List ModelData) → IsEvaluable metas program sources → IsEnforceable metas program
        → (place : ℕ) (rel : Rel) → slice_get program.rels place ≡ Some rel → rel.in_direction ≡ true
        → (roots b : TermValues) → TermSource program sources rel roots b → HasRootsOf metas program sources rel roots
        → (v : ℕ) (e : Typed) → Contains rel.wheres (Equation v e)
        → variable (entry_scope program sources rel b) v ≡ value program sources e (entry_scope program sources rel b) }
    ensures values { (metas : List MetaDesc) (program : Program) (sources models : List ModelData) (m : ModelData) → AreOver metas program sources models m
        → (place : ℕ) (rel : Rel) → slice_get program.rels place ≡ Some rel → rel.in_direction ≡ true
        → (roots b : TermValues) → TermSource program sources rel roots b → HasRootsOf metas program sources rel roots
        → is_unmet program sources rel (entry_known program sources rel b) ≡ false
        → (v : ℕ) → v < length rel.vars → (x : TermValue) × (value_of (entry_known program sources rel b).values v ≡ Some x) }
{}

/// Where the demands of an entry stand that is not unmet, its values and those that it makes, as they are read over the model, meet the target
/// of its relation (QVT 1.3, sections 7.2, 7.2.3 and 7.10.1).
pub fn entries_meet_their_targets()
    ensures { (metas : List MetaDesc) (program : Program) (sources models : List ModelData) (m : ModelData) (terms : List Term) (number : Numbering)
        → AreOver metas program sources models m → IsReading program m terms number
        → (place : ℕ) (rel : Rel) → slice_get program.rels place ≡ Some rel → rel.in_direction ≡ true
        → (roots b : TermValues) → TermSource program sources rel roots b → HasRootsOf metas program sources rel roots
        → is_unmet program sources rel (entry_known program sources rel b) ≡ false
        → HasTermsAmong program m terms rel (entry_known program sources rel b).values
        → (k : ℕ) → AllStand program m number (demands_where program sources k rel (entry_known program sources rel b))
        → (c g : Values) → Reads program number b c → Reads program number (entry_known program sources rel b).values g → Target program models rel c g }
{}
