ghost use Rattle.std.specs.Prelude.{◌≡◌, ◌≤◌, List, length, Some, slice_get};
ghost use Rattle.mof_metamodel.specs.declared.desc.MetaDesc.{MetaDesc};
ghost use Rattle.object_tables.specs.Kept.{Kept};
ghost use Rattle.object_tables.specs.Models.{ModelData};
ghost use Rattle.object_tables.specs.Sameness.{IsSame};
ghost use Rattle.object_tables.specs.Validity.{Valid};
ghost use Rattle.qv_syntax.specs.declared.program.Program.{Program};
ghost use Rattle.qvtr_semantics.specs.Calls.{RelationCall};
ghost use Rattle.qvtr_semantics.specs.Satisfaction.{Satisfied};
ghost use Rattle.qvtr_semantics.specs.Chains.{Chain, IsCyclic, IsDeep};
ghost use Rattle.repair_semantics.specs.Candidates.{candidate};
ghost use Rattle.repair_laws.specs.Repairs.{with_target};
ghost use Rattle.entry_finding.specs.Premises.{CanBeEnforced};
ghost use Rattle.demand_set.specs.DemandSets.{DemandData, IsDemandSet};
ghost use Rattle.enforce_mode.specs.Made.{IsSound};

use repair_laws::{repaired_models_satisfy, repairs_stay};
use same_targets::same_targets_are_alike;

/// The model that is made of what is demanded satisfies the relations, and no chain of calls over it comes back to a call or is too long (QVT 1.3,
/// sections 7.2 and 7.10.2).
pub fn made_models_satisfy()
    ensures satisfied { (metas : List MetaDesc) (program : Program) (models : List ModelData) (m : ModelData) (d : DemandData) → CanBeEnforced metas program models
        → slice_get models program.target ≡ Some m → Valid m → IsDemandSet program models d → length m.objects ≤ 3_999_000_000 → IsSound (candidate program m d.list)
        → Satisfied program (with_target program models (candidate program m d.list)) }
    ensures chains { (metas : List MetaDesc) (program : Program) (models : List ModelData) (m : ModelData) (d : DemandData) → CanBeEnforced metas program models
        → slice_get models program.target ≡ Some m → Valid m → IsDemandSet program models d → length m.objects ≤ 3_999_000_000 → IsSound (candidate program m d.list)
        → (chain : List RelationCall) → Chain program (with_target program models (candidate program m d.list)) chain → (¬ IsCyclic chain) × (¬ IsDeep chain) }
{
    repaired_models_satisfy()
}

/// So it is where the demands were found with another target of the same metamodel.
pub fn other_targets_satisfy()
    ensures satisfied { (metas : List MetaDesc) (program : Program) (sources : List ModelData) (before m : ModelData) (d : DemandData) → CanBeEnforced metas program sources
        → slice_get sources program.target ≡ Some before → IsDemandSet program sources d → Valid m → m.meta ≡ before.meta → length m.objects ≤ 3_999_000_000
        → IsSound (candidate program m d.list) → Satisfied program (with_target program sources (candidate program m d.list)) }
    ensures chains { (metas : List MetaDesc) (program : Program) (sources : List ModelData) (before m : ModelData) (d : DemandData) → CanBeEnforced metas program sources
        → slice_get sources program.target ≡ Some before → IsDemandSet program sources d → Valid m → m.meta ≡ before.meta → length m.objects ≤ 3_999_000_000
        → IsSound (candidate program m d.list) → (chain : List RelationCall) → Chain program (with_target program sources (candidate program m d.list)) chain
        → (¬ IsCyclic chain) × (¬ IsDeep chain) }
{
    made_models_satisfy()
}

/// Each valid model that is the same as what is made satisfies the relations too, as what is read back of its file: it differs in the numbers of its
/// objects alone.
pub fn read_back_models_satisfy()
    ensures satisfied { (metas : List MetaDesc) (program : Program) (models : List ModelData) (m : ModelData) (d : DemandData) → CanBeEnforced metas program models
        → slice_get models program.target ≡ Some m → Valid m → IsDemandSet program models d → length m.objects ≤ 3_999_000_000 → IsSound (candidate program m d.list)
        → (n : ModelData) → IsSame (candidate program m d.list) n → Valid n → length n.objects ≤ 3_999_000_000
        → Satisfied program (with_target program models n) }
    ensures chains { (metas : List MetaDesc) (program : Program) (models : List ModelData) (m : ModelData) (d : DemandData) → CanBeEnforced metas program models
        → slice_get models program.target ≡ Some m → Valid m → IsDemandSet program models d → length m.objects ≤ 3_999_000_000 → IsSound (candidate program m d.list)
        → (n : ModelData) → IsSame (candidate program m d.list) n → Valid n → length n.objects ≤ 3_999_000_000
        → (chain : List RelationCall) → Chain program (with_target program models n) chain → (¬ IsCyclic chain) × (¬ IsDeep chain) }
{
    repairs_stay();
    repaired_models_satisfy()
}

/// Where a target satisfies the relations, so does each model that is the same; and where no chain of calls over it comes back to a call or is too
/// long, none does or is over that one.
pub fn satisfied_over_same()
    ensures satisfied { (metas : List MetaDesc) (program : Program) (models : List ModelData) (m n : ModelData) → CanBeEnforced metas program models
        → slice_get models program.target ≡ Some m → Kept m → IsSame m n → Satisfied program models → Satisfied program (with_target program models n) }
    ensures chains { (metas : List MetaDesc) (program : Program) (models : List ModelData) (m n : ModelData) → CanBeEnforced metas program models
        → slice_get models program.target ≡ Some m → Kept m → IsSame m n
        → ((chain : List RelationCall) → Chain program models chain → (¬ IsCyclic chain) × (¬ IsDeep chain))
        → (chain : List RelationCall) → Chain program (with_target program models n) chain → (¬ IsCyclic chain) × (¬ IsDeep chain) }
{
    same_targets_are_alike()
}
