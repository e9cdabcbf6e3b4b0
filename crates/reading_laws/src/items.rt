ghost use Rattle.std.specs.Prelude.{◌≡◌, ◌↔◌, true, List};
ghost use Rattle.object_tables.specs.Models.{ModelData};
ghost use Rattle.qv_syntax.specs.declared.program.Program.{Program};
ghost use Rattle.qv_syntax.specs.declared.program.Tmpl.{Tmpl};
ghost use Rattle.qvtr_semantics.specs.Templates.{Values, meets};
ghost use Rattle.reading_laws.specs.Matching.{HoldsThroughout};

/// A template matches exactly where each template in it has its object and each item in it holds.
pub fn templates_match_by_items()
    ensures { (program : Program) (models : List ModelData) (g : Values) (t : Tmpl) → meets program models t g ≡ true ↔ HoldsThroughout program models g t }
{}
