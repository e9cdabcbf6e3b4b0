ghost use Rattle.std.specs.Prelude.{◌≡◌, ◌≤◌, ℕ, true, false, List, length, Some, slice_get};
ghost use Rattle.mof_metamodel.specs.declared.desc.MetaDesc.{MetaDesc};
ghost use Rattle.object_tables.specs.Models.{ModelData};
ghost use Rattle.object_tables.specs.Sameness.{IsSame};
ghost use Rattle.object_tables.specs.Validity.{Valid};
ghost use Rattle.qv_syntax.specs.declared.program.Program.{Program};
ghost use Rattle.qvtr_semantics.specs.Satisfaction.{Satisfied};
ghost use Rattle.repair_semantics.specs.declared.report.Report.{Report};
ghost use Rattle.repair_semantics.specs.Deletions.{managed_classes, images_of, is_unneeded};
ghost use Rattle.repair_semantics.specs.Candidates.{candidate};
ghost use Rattle.repair_semantics.specs.Reports.{IsReport};
ghost use Rattle.repair_laws.specs.Repairs.{with_target};
ghost use Rattle.entry_finding.specs.Premises.{CanBeEnforced};
ghost use Rattle.demand_set.specs.DemandSets.{DemandData, IsDemandSet};
ghost use Rattle.enforce_mode.specs.Made.{IsSound};

use repair_laws::{repairs_stay, satisfied_targets_stay};

/// Where the relations are satisfied and no object of the target is unneeded, the target stays as it is, and the report says so.
pub fn satisfied_models_stay()
    ensures equal { (metas : List MetaDesc) (program : Program) (models : List ModelData) (m : ModelData) (d : DemandData) → CanBeEnforced metas program models
        → slice_get models program.target ≡ Some m → Valid m → IsDemandSet program models d → length m.objects ≤ 3_999_000_000 → IsSound (candidate program m d.list)
        → Satisfied program models → ((o : ℕ) → is_unneeded m (managed_classes program) (images_of program m d.terms) o ≡ false)
        → candidate program m d.list ≡ m }
    ensures same { (metas : List MetaDesc) (program : Program) (models : List ModelData) (m : ModelData) (d : DemandData) → CanBeEnforced metas program models
        → slice_get models program.target ≡ Some m → Valid m → IsDemandSet program models d → length m.objects ≤ 3_999_000_000 → IsSound (candidate program m d.list)
        → Satisfied program models → ((o : ℕ) → is_unneeded m (managed_classes program) (images_of program m d.terms) o ≡ false)
        → IsSame m (candidate program m d.list) }
    ensures report { (metas : List MetaDesc) (program : Program) (models : List ModelData) (m : ModelData) (d : DemandData) (report : Report) → CanBeEnforced metas program models
        → slice_get models program.target ≡ Some m → Valid m → IsDemandSet program models d → length m.objects ≤ 3_999_000_000 → IsSound (candidate program m d.list)
        → Satisfied program models → ((o : ℕ) → is_unneeded m (managed_classes program) (images_of program m d.terms) o ≡ false)
        → IsReport program m d.list report → report.unchanged ≡ true }
{
    satisfied_targets_stay()
}

/// A second run changes nothing: of a valid model that is the same as what was made, as what is read back of its file, that model is made again, and
/// the report says so.
pub fn made_models_stay()
    ensures equal { (metas : List MetaDesc) (program : Program) (models : List ModelData) (m : ModelData) (d : DemandData) → CanBeEnforced metas program models
        → slice_get models program.target ≡ Some m → Valid m → IsDemandSet program models d → length m.objects ≤ 3_999_000_000 → IsSound (candidate program m d.list)
        → (n : ModelData) → IsSame (candidate program m d.list) n → Valid n
        → (again : DemandData) → IsDemandSet program (with_target program models n) again → candidate program n again.list ≡ n }
    ensures report { (metas : List MetaDesc) (program : Program) (models : List ModelData) (m : ModelData) (d : DemandData) → CanBeEnforced metas program models
        → slice_get models program.target ≡ Some m → Valid m → IsDemandSet program models d → length m.objects ≤ 3_999_000_000 → IsSound (candidate program m d.list)
        → (n : ModelData) → IsSame (candidate program m d.list) n → Valid n → length n.objects ≤ 3_999_000_000
        → (again : DemandData) (report : Report) → IsDemandSet program (with_target program models n) again → IsReport program n again.list report → report.unchanged ≡ true }
{
    repairs_stay()
}
