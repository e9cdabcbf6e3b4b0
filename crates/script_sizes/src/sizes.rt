ghost use Rattle.std.specs.Prelude.{◌<◌, ◌≤◌, ◌^◌, ℕ, List, length, All, Contains};
ghost use Rattle.qv_syntax.specs.declared.program.Program.{Program};
ghost use Rattle.qv_syntax.specs.declared.program.Rel.{Rel};
ghost use Rattle.script_files.specs.Scripts.{SpellsScript};
ghost use Rattle.script_scopes.specs.Environments.{Setting};
ghost use Rattle.script_scopes.specs.Resolutions.{IsProgramOf};

/// The where clause of a relation has no more conjuncts than the text of its script has bytes; so numbers of 32 bits count them.
pub fn clauses_are_short()
    ensures short { (bytes : List ℕ) (s : Setting) (program : Program) → SpellsScript bytes s.script → IsProgramOf s program → (rel : Rel) → Contains program.rels rel
        → length rel.wheres ≤ length bytes }
    ensures few { (bytes : List ℕ) (s : Setting) (program : Program) → SpellsScript bytes s.script → IsProgramOf s program
        → All (λ rel. length rel.wheres < 2 ^ 32) program.rels }
{}
