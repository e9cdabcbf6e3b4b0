ghost use Rattle.std.specs.Prelude.{◌≡◌, List};
ghost use Rattle.object_tables.specs.Models.{ModelData};
ghost use Rattle.qv_syntax.specs.declared.program.Program.{Program};
ghost use Rattle.check_mode.specs.declared.verdict.Verdict.{Verdict};
ghost use Rattle.check_mode.specs.Verdicts.{IsVerdict};

/// A program has one verdict over its models.
pub fn verdicts_are_one()
    ensures { (program : Program) (models : List ModelData) (verdict other : Verdict) → IsVerdict program models verdict → IsVerdict program models other → verdict ≡ other }
{}
