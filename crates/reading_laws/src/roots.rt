ghost use Rattle.std.specs.Prelude.{◌≡◌, List, true, Some, slice_get};
ghost use Rattle.mof_metamodel.specs.declared.desc.MetaDesc.{MetaDesc};
ghost use Rattle.object_tables.specs.Models.{ModelData};
ghost use Rattle.qv_syntax.specs.declared.program.Program.{Program};
ghost use Rattle.qv_syntax.specs.declared.program.Rel.{Rel};
ghost use Rattle.enforcement_rules.specs.Rules.{IsEnforceable};
ghost use Rattle.evaluation_laws.specs.Evaluable.{IsEvaluable};
ghost use Rattle.repair_semantics.specs.declared.entry.Entry.{Entry};
ghost use Rattle.repair_semantics.specs.EntryValues.{TermValues};
ghost use Rattle.repair_semantics.specs.Entries.{TermSource, IsEntry};
ghost use Rattle.reading_laws.specs.Roots.{HasRootsOf};

/// An entry is one of a relation of the direction, with roots that have terms for objects of the target and data of their types for others; where
/// the relation isn't top its caller hands them all on (QVT 1.3, sections 7.10.2 and 7.11.1.4).
pub fn entries_have_their_roots()
    ensures { (metas : List MetaDesc) (program : Program) (sources : List ModelData) → IsEvaluable metas program sources → IsEnforceable metas program
        → (e : Entry) → IsEntry program sources e → (rel : Rel) → slice_get program.rels e.rel ≡ Some rel
        → (rel.in_direction ≡ true) × (roots : TermValues) × TermSource program sources rel roots e.values × HasRootsOf metas program sources rel roots }
{}
