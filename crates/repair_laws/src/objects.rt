ghost use Rattle.std.specs.Prelude.{◌≡◌, ℕ, List, true, Some, Contains};
ghost use Rattle.object_tables.specs.Models.{ModelData};
ghost use Rattle.object_tables.specs.Validity.{Valid};
ghost use Rattle.qv_syntax.specs.declared.program.Program.{Program};
ghost use Rattle.repair_semantics.specs.declared.term.Term.{Term};
ghost use Rattle.repair_semantics.specs.CandidateObjects.{CandidateObject, number_of, object_of, term_number};
ghost use Rattle.repair_semantics.specs.Images.{image};
ghost use Rattle.repair_semantics.specs.Deletions.{images_of, stays};
ghost use Rattle.reading_laws.specs.Keyed.{TellsByKeys};
ghost use Rattle.repair_laws.specs.Closed.{AreClosed};

/// Each demanded term has an object in the model that enforcement makes.
pub fn demanded_terms_have_objects()
    ensures { (program : Program) (m : ModelData) (terms : List Term) (t : Term) → Contains terms t → (n : ℕ) × (term_number program m terms t ≡ Some n) }
{}

/// The image of a demanded term stays, whatever the managed classes.
pub fn images_stay()
    ensures { (program : Program) (m : ModelData) (terms : List Term) (classes : List ℕ) (t : Term) (o : ℕ) → Contains terms t → image program m t ≡ Some o
        → stays m classes (images_of program m terms) o ≡ true }
{}

/// The number of a fresh object leads back to it.
pub fn numbers_of_fresh_objects_lead_back()
    ensures { (program : Program) (m : ModelData) (terms : List Term) (t : Term) (n : ℕ) → number_of program m terms (CandidateObject.fresh t) ≡ Some n
        → object_of program m terms n ≡ Some (CandidateObject.fresh t) }
{}

/// Over a valid target of which keys tell the objects apart, of terms that are closed, two terms with one object in the model that enforcement makes are one term.
pub fn different_terms_have_different_objects()
    ensures { (program : Program) (m : ModelData) (terms : List Term) (t u : Term) (n : ℕ) → Valid m → TellsByKeys program m → AreClosed program terms → Contains terms t
        → term_number program m terms t ≡ Some n → term_number program m terms u ≡ Some n → t ≡ u }
{}
