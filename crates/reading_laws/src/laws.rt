ghost use Rattle.std.specs.Prelude.{◌≡◌, ℕ, List, false, Some, Contains};
ghost use Rattle.mof_metamodel.specs.declared.desc.MetaDesc.{MetaDesc};
ghost use Rattle.object_tables.specs.Models.{ModelData};
ghost use Rattle.qv_syntax.specs.declared.program.Program.{Program};
ghost use Rattle.qv_syntax.specs.declared.program.Rel.{Rel};
ghost use Rattle.qvtr_semantics.specs.Expressions.{variable, scope_of};
ghost use Rattle.qvtr_semantics.specs.Templates.{Values};
ghost use Rattle.template_match.specs.Sources.{is_target_variable};
ghost use Rattle.repair_semantics.specs.declared.term.Term.{Term};
ghost use Rattle.repair_semantics.specs.EntryValues.{TermValues, term_of};
ghost use Rattle.repair_semantics.specs.Making.{entry_known};
ghost use Rattle.repair_semantics.specs.Unmet.{is_unmet};
ghost use Rattle.reading_laws.specs.Readings.{Numbering, Reads};
ghost use Rattle.reading_laws.specs.Partners.{HasPartner};

/// A partner of an entry's binding, over a model of the target in which terms have objects, has the values that the entry makes, as they are
/// read: data by the equations of the where clause, and terms by the objects that hold their key values. So the terms that the entry makes are
/// among those that have objects (QVT 1.3, sections 7.2.1, 7.2.3 and 7.10.2).
pub fn partners_are_read()
    ensures read { (metas : List MetaDesc) (program : Program) (sources models : List ModelData) (m : ModelData) (terms : List Term) (number : Numbering) (rel : Rel) (roots b : TermValues) (c g : Values)
        → HasPartner metas program sources models m terms number rel roots b c g → is_unmet program sources rel (entry_known program sources rel b) ≡ false
        → Reads program number (entry_known program sources rel b).values g }
    ensures among { (metas : List MetaDesc) (program : Program) (sources models : List ModelData) (m : ModelData) (terms : List Term) (number : Numbering) (rel : Rel) (roots b : TermValues) (c g : Values)
        → HasPartner metas program sources models m terms number rel roots b c g → (v : ℕ) (t : Term) → term_of (entry_known program sources rel b).values v ≡ Some t → Contains terms t }
    ensures scopes { (metas : List MetaDesc) (program : Program) (sources models : List ModelData) (m : ModelData) (terms : List Term) (number : Numbering) (rel : Rel) (roots b : TermValues) (c g : Values)
        → HasPartner metas program sources models m terms number rel roots b c g → (v : ℕ) → is_target_variable program rel v ≡ false
        → variable (entry_known program sources rel b).scope v ≡ variable (scope_of g) v }
{}
