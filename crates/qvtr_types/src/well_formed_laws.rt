ghost use Rattle.std.specs.Prelude.{List};
ghost use Rattle.std.specs.List.{AllZip};
ghost use Rattle.qv_syntax.specs.declared.program.Program.{Program};
ghost use Rattle.qv_syntax.specs.WellFormed.{IsWellFormed};
ghost use Rattle.ocl_environments.specs.declared.fault.TypeFault.{TypeFault};
ghost use Rattle.ocl_environments.specs.Environments.{IsInOrder};
ghost use Rattle.script_scopes.specs.Occurrences.{relations_of};
ghost use Rattle.script_scopes.specs.Environments.{Setting, in_script};
ghost use Rattle.script_scopes.specs.Resolutions.{IsProgramOf};
ghost use Rattle.script_scopes.specs.Faults.{StandsInScript};
ghost use Rattle.script_variables.specs.SettledRelations.{IsSettled};

/// What a script resolves to is well formed, where no fault stands in the script: its numbers name what is there, the rules on types hold,
/// its queries call each other without a cycle, its relations are as a transformation means them, and its keys are keys (QVT 1.3, section
/// 7.11).
pub fn resolutions_are_well_formed()
    ensures { (s : Setting) (program : Program) → IsInOrder (in_script s) → ((f : TypeFault) → ¬ StandsInScript s f) → IsProgramOf s program
        → AllZip (λ r rel. IsSettled s r rel.vars) (relations_of s.script) program.rels → IsWellFormed s.metas program }
{}
