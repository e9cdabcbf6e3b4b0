ghost use Rattle.std.specs.Prelude.{◌≡◌, List, Some, slice_get};
ghost use Rattle.mof_metamodel.specs.declared.desc.MetaDesc.{MetaDesc};
ghost use Rattle.object_tables.specs.Kept.{Kept};
ghost use Rattle.object_tables.specs.Models.{ModelData};
ghost use Rattle.qv_syntax.specs.declared.program.Program.{Program};
ghost use Rattle.repair_laws.specs.Repairs.{with_target};
ghost use Rattle.entry_finding.specs.Premises.{CanBeEnforced};
ghost use Rattle.demand_set.specs.DemandSets.{DemandData, IsDemandSet};

/// A program that can be enforced over models can be enforced with another target of the same metamodel.
pub fn targets_are_replaced()
    ensures { (metas : List MetaDesc) (program : Program) (models : List ModelData) (m n : ModelData) → CanBeEnforced metas program models
        → slice_get models program.target ≡ Some m → Kept n → n.meta ≡ m.meta → CanBeEnforced metas program (with_target program models n) }
{}

/// What is demanded depends on the sources alone: it is the same with another target of the same metamodel.
pub fn demand_sets_are_of_sources()
    ensures { (metas : List MetaDesc) (program : Program) (models : List ModelData) (m n : ModelData) (d : DemandData) → CanBeEnforced metas program models
        → slice_get models program.target ≡ Some m → n.meta ≡ m.meta → IsDemandSet program models d → IsDemandSet program (with_target program models n) d }
{}
