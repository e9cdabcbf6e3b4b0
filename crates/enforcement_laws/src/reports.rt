ghost use Rattle.std.specs.Prelude.{◌≡◌, ◌↔◌, ◌≤◌, true, List, length};
ghost use Rattle.object_tables.specs.Models.{ModelData};
ghost use Rattle.object_tables.specs.Sameness.{IsSame};
ghost use Rattle.object_tables.specs.Validity.{Valid};
ghost use Rattle.qv_syntax.specs.declared.program.Program.{Program};
ghost use Rattle.repair_semantics.specs.declared.demand.Demand.{Demand};
ghost use Rattle.repair_semantics.specs.declared.report.Report.{Report};
ghost use Rattle.repair_semantics.specs.Candidates.{candidate};
ghost use Rattle.repair_semantics.specs.Reports.{IsReport};
ghost use Rattle.enforce_mode.specs.Made.{IsSound};

/// A report says that the target stays as it is exactly where the model that is made is the target.
pub fn unchanged_reports_are_exact()
    ensures { (program : Program) (m : ModelData) (demands : List Demand) (report : Report) → Valid m → length m.objects ≤ 3_999_000_000 → IsSound (candidate program m demands)
        → IsReport program m demands report → report.unchanged ≡ true ↔ (candidate program m demands ≡ m) }
{}

/// Where the model that is made is the same as the target, it is the target: the numbers of its objects are the same too.
pub fn same_models_are_unchanged()
    ensures { (program : Program) (m : ModelData) (demands : List Demand) → Valid m → length m.objects ≤ 3_999_000_000 → IsSound (candidate program m demands)
        → IsSame m (candidate program m demands) → candidate program m demands ≡ m }
{}
