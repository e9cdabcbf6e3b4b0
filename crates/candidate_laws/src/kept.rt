ghost use Rattle.std.specs.Prelude.{List};
ghost use Rattle.object_tables.specs.Models.{ModelData};
ghost use Rattle.object_tables.specs.Kept.{Kept};
ghost use Rattle.qv_syntax.specs.declared.program.Program.{Program};
ghost use Rattle.repair_semantics.specs.declared.demand.Demand.{Demand};
ghost use Rattle.repair_semantics.specs.Candidates.{candidate};
ghost use Rattle.candidate_laws.specs.Placing.{Placeable};

/// Where the demands can be placed in the target, the model that enforcement makes keeps what every model keeps.
pub fn candidates_are_kept()
    ensures { (program : Program) (m : ModelData) (demands : List Demand) → Placeable program m demands → Kept (candidate program m demands) }
{}
