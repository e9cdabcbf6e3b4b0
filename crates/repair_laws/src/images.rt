ghost use Rattle.std.specs.Prelude.{◌≡◌, ℕ, List, Some, Contains};
ghost use Rattle.object_tables.specs.Models.{ModelData};
ghost use Rattle.object_tables.specs.Validity.{Valid};
ghost use Rattle.qv_syntax.specs.declared.program.Program.{Program};
ghost use Rattle.repair_semantics.specs.declared.term.Term.{Term};
ghost use Rattle.repair_semantics.specs.Images.{image};
ghost use Rattle.reading_laws.specs.Keyed.{TellsByKeys};
ghost use Rattle.repair_laws.specs.Closed.{AreClosed};

/// Over a valid model of which keys tell the objects apart, of terms that are closed, two terms with one image are one term.
pub fn different_terms_have_different_images()
    ensures { (program : Program) (m : ModelData) (terms : List Term) (t u : Term) (o : ℕ) → Valid m → TellsByKeys program m → AreClosed program terms → Contains terms t
        → image program m t ≡ Some o → image program m u ≡ Some o → t ≡ u }
{}
