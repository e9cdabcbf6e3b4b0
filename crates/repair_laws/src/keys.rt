ghost use Rattle.std.specs.Prelude.{◌≡◌, List};
ghost use Rattle.mof_metamodel.specs.declared.desc.MetaDesc.{MetaDesc};
ghost use Rattle.mof_metamodel.specs.WellMeta.{WellMeta};
ghost use Rattle.object_tables.specs.Models.{ModelData};
ghost use Rattle.qv_syntax.specs.declared.program.Program.{Program};
ghost use Rattle.qv_syntax.specs.WellFormed.{IsWellFormed};
ghost use Rattle.enforcement_rules.specs.TargetParts.{target_desc};
ghost use Rattle.enforcement_rules.specs.Rules.{IsEnforceable};
ghost use Rattle.reading_laws.specs.Keyed.{TellsByKeys};

/// Where a program can be enforced, keys tell the objects of a model of the target's metamodel apart (QVT 1.3, section 7.10.2).
pub fn keys_tell_objects_apart()
    ensures { (metas : List MetaDesc) (program : Program) (m : ModelData) → IsWellFormed metas program → IsEnforceable metas program
        → target_desc metas program ≡ m.meta → WellMeta m.meta → TellsByKeys program m }
{}
