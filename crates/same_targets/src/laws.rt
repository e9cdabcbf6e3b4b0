ghost use Rattle.std.specs.Prelude.{◌≡◌, List, Some, slice_get};
ghost use Rattle.mof_metamodel.specs.declared.desc.MetaDesc.{MetaDesc};
ghost use Rattle.object_tables.specs.Kept.{Kept};
ghost use Rattle.object_tables.specs.Models.{ModelData};
ghost use Rattle.object_tables.specs.Sameness.{IsSame};
ghost use Rattle.qv_syntax.specs.declared.program.Program.{Program};
ghost use Rattle.qv_syntax.specs.WellFormed.{IsWellFormed};
ghost use Rattle.qvtr_semantics.specs.Calls.{RelationCall};
ghost use Rattle.qvtr_semantics.specs.Satisfaction.{Satisfied};
ghost use Rattle.qvtr_semantics.specs.Chains.{Chain, IsCyclic, IsDeep};
ghost use Rattle.enforcement_rules.specs.Rules.{IsEnforceable};
ghost use Rattle.source_laws.specs.Agreement.{AgreeBut};

/// Where a program can be enforced and its relations are satisfied over some models, they are satisfied over models that agree but for the target,
/// whose target is the same: it differs in the numbers of its objects alone (QVT 1.3, sections 7.2.1, 7.3 and 7.10.2). And where no chain of
/// calls comes back to a call or is too long over the one, none does or is over the others.
pub fn same_targets_are_alike()
    ensures satisfied { (metas : List MetaDesc) (program : Program) (ms ns : List ModelData) (m n : ModelData) → IsWellFormed metas program → IsEnforceable metas program
        → AgreeBut program.target ms ns → slice_get ms program.target ≡ Some m → slice_get ns program.target ≡ Some n → Kept m → IsSame m n
        → Satisfied program ms → Satisfied program ns }
    ensures chains { (metas : List MetaDesc) (program : Program) (ms ns : List ModelData) (m n : ModelData) → IsWellFormed metas program → IsEnforceable metas program
        → AgreeBut program.target ms ns → slice_get ms program.target ≡ Some m → slice_get ns program.target ≡ Some n → Kept m → IsSame m n
        → ((chain : List RelationCall) → Chain program ms chain → (¬ IsCyclic chain) × (¬ IsDeep chain))
        → (chain : List RelationCall) → Chain program ns chain → (¬ IsCyclic chain) × (¬ IsDeep chain) }
{}
