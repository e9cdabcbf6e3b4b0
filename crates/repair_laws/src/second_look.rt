ghost use Rattle.std.specs.Prelude.{◌≡◌, ℕ, List, false};
ghost use Rattle.mof_metamodel.specs.declared.desc.MetaDesc.{MetaDesc};
ghost use Rattle.object_tables.specs.Models.{ModelData};
ghost use Rattle.object_tables.specs.Validity.{Valid};
ghost use Rattle.object_tables.specs.Sameness.{IsSame};
ghost use Rattle.qv_syntax.specs.declared.program.Program.{Program};
ghost use Rattle.qvtr_semantics.specs.Calls.{RelationCall};
ghost use Rattle.qvtr_semantics.specs.Satisfaction.{Satisfied};
ghost use Rattle.qvtr_semantics.specs.Chains.{Chain, IsCyclic, IsDeep};
ghost use Rattle.repair_semantics.specs.declared.entry.Entry.{Entry};
ghost use Rattle.repair_semantics.specs.EntryOrder.{AreEntries};
ghost use Rattle.repair_semantics.specs.Demands.{demands_of, demanded_terms};
ghost use Rattle.repair_semantics.specs.Deletions.{managed_classes, images_of, is_unneeded};
ghost use Rattle.repair_semantics.specs.Candidates.{candidate};
ghost use Rattle.repair_laws.specs.Repairs.{CanBeRepaired, with_target, repaired_models};

/// The model that enforcement makes satisfies the relations, and no chain of calls over it comes back to a call or is too long (QVT 1.3,
/// sections 7.2 and 7.10.2).
pub fn repaired_models_satisfy()
    ensures satisfied { (metas : List MetaDesc) (program : Program) (models : List ModelData) (m : ModelData) (entries : List Entry) → CanBeRepaired metas program models m entries
        → Satisfied program (repaired_models program models m entries) }
    ensures chains { (metas : List MetaDesc) (program : Program) (models : List ModelData) (m : ModelData) (entries : List Entry) → CanBeRepaired metas program models m entries
        → (chain : List RelationCall) → Chain program (repaired_models program models m entries) chain → (¬ IsCyclic chain) × (¬ IsDeep chain) }
{}

/// Where a target satisfies the relations and none of its objects is unneeded, enforcement makes the same model of it.
pub fn satisfied_targets_stay()
    ensures equal { (metas : List MetaDesc) (program : Program) (models : List ModelData) (m : ModelData) (entries : List Entry) → CanBeRepaired metas program models m entries
        → Satisfied program models
        → ((o : ℕ) → is_unneeded m (managed_classes program) (images_of program m (demanded_terms (demands_of program models entries))) o ≡ false)
        → candidate program m (demands_of program models entries) ≡ m }
    ensures same { (metas : List MetaDesc) (program : Program) (models : List ModelData) (m : ModelData) (entries : List Entry) → CanBeRepaired metas program models m entries
        → Satisfied program models
        → ((o : ℕ) → is_unneeded m (managed_classes program) (images_of program m (demanded_terms (demands_of program models entries))) o ≡ false)
        → IsSame m (candidate program m (demands_of program models entries)) }
{}

/// Of a model that is the same as one that enforcement made, enforcement makes that model again.
pub fn repairs_stay()
    ensures { (metas : List MetaDesc) (program : Program) (models : List ModelData) (m : ModelData) (entries : List Entry) → CanBeRepaired metas program models m entries
        → (n : ModelData) → IsSame (candidate program m (demands_of program models entries)) n → Valid n
        → (others : List Entry) → AreEntries program (with_target program models n) others
        → candidate program n (demands_of program (with_target program models n) others) ≡ n }
{}
