ghost use Rattle.std.specs.Prelude.{◌≡◌, List, Some, slice_get};
ghost use Rattle.mof_metamodel.specs.declared.desc.MetaDesc.{MetaDesc};
ghost use Rattle.object_tables.specs.Models.{ModelData};
ghost use Rattle.qv_syntax.specs.declared.program.Program.{Program};
ghost use Rattle.entry_finding.specs.Premises.{CanBeEnforced};
ghost use Rattle.demand_set.specs.DemandSets.{DemandData, IsDemandSet};
ghost use Rattle.enforce_mode.specs.Premises.{AreDemands};

/// What is demanded over the models of a program that can be enforced can be made of its target (QVT 1.3, sections 7.2 and 7.10.2).
pub fn demand_sets_are_demands()
    ensures { (metas : List MetaDesc) (program : Program) (models : List ModelData) (m : ModelData) (d : DemandData) → CanBeEnforced metas program models
        → slice_get models program.target ≡ Some m → IsDemandSet program models d → AreDemands program m d }
{}

/// Of a program and models there is one set of demands at most.
pub fn demand_sets_are_one()
    ensures { (program : Program) (models : List ModelData) (d e : DemandData) → IsDemandSet program models d → IsDemandSet program models e → d ≡ e }
{}
