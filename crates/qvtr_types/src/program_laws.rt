ghost use Rattle.std.specs.Prelude.{◌≡◌, ℕ, List};
ghost use Rattle.mof_metamodel.specs.declared.desc.MetaDesc.{MetaDesc};
ghost use Rattle.qv_syntax.specs.declared.program.Program.{Program};
ghost use Rattle.qv_syntax.specs.declared.script.Script.{Script};
ghost use Rattle.ocl_environments.specs.declared.fault.TypeFault.{TypeFault};
ghost use Rattle.ocl_environments.specs.Environments.{AreWell};
ghost use Rattle.script_scopes.specs.Resolutions.{IsResolution};
ghost use Rattle.qvtr_types.specs.ResolvedScripts.{setting_of, IsFaultOf};

/// Over well metamodels a script in which no fault stands resolves to one program at most (QVT 1.3, section 7.11).
pub fn programs_are_one()
    ensures { (metas : List MetaDesc) (script : Script) (target : List ℕ) (p q : Program) → AreWell metas → ((f : TypeFault) → ¬ IsFaultOf metas script target f)
        → IsResolution (setting_of metas script target p.queries) p → IsResolution (setting_of metas script target q.queries) q → p ≡ q }
{}
