ghost use Rattle.std.specs.Prelude.{◌≡◌, ◌<◌, ◌≤◌, ◌+◌, ◌^◌, ℕ, List, true, false, length, is_some, None, Some, Contains};
ghost use Rattle.object_tables.specs.Models.{ModelData, object_at, class_at, id_at};
ghost use Rattle.qv_syntax.specs.declared.program.Program.{Program};
ghost use Rattle.repair_semantics.specs.declared.term.Term.{Term};
ghost use Rattle.repair_semantics.specs.declared.demand.Demand.{Demand};
ghost use Rattle.repair_semantics.specs.Demands.{demanded_terms};
ghost use Rattle.repair_semantics.specs.CandidateObjects.{fresh_terms, term_number, unused_ids};
ghost use Rattle.mof_metamodel.specs.Metamodels.{props_of};
ghost use Rattle.object_tables.specs.Objects.{Object};
ghost use Rattle.repair_semantics.specs.Claims.{Held};
ghost use Rattle.repair_semantics.specs.Images.{holds};
ghost use Rattle.repair_semantics.specs.Candidates.{claimed_at, held_by_number, claims_by_number, candidate};
ghost use Rattle.repair_semantics.specs.Conflicts.{fact_of};
ghost use Rattle.repair_laws.specs.Standing.{FitsAt};
ghost use Rattle.repair_laws.specs.Staying.{is_staying};

/// As many identifiers as are asked for are unused.
pub fn unused_identifiers_are_enough()
    ensures { (m : ModelData) (count : ℕ) → count + length m.objects ≤ 2 ^ 64 → length (unused_ids m count) ≡ count }
{}

/// An object that stays keeps its class and its identifier, and one that doesn't is gone.
pub fn objects_stay_or_are_gone()
    ensures class { (program : Program) (m : ModelData) (demands : List Demand) (o : ℕ) → o < length m.objects → is_staying program m demands o ≡ true
        → class_at (candidate program m demands) o ≡ class_at m o }
    ensures identifier { (program : Program) (m : ModelData) (demands : List Demand) (o : ℕ) → o < length m.objects → is_staying program m demands o ≡ true
        → id_at (candidate program m demands) o ≡ id_at m o }
    ensures gone { (program : Program) (m : ModelData) (demands : List Demand) (o : ℕ) → o < length m.objects → is_staying program m demands o ≡ false
        → object_at (candidate program m demands) o ≡ None }
{}

/// The object of each demanded term is there in the model that enforcement makes.
pub fn demanded_terms_are_live()
    ensures { (program : Program) (m : ModelData) (demands : List Demand) (t : Term) (n : ℕ) → Contains (demanded_terms demands) t
        → length (fresh_terms program m (demanded_terms demands)) + length m.objects ≤ 2 ^ 64
        → term_number program m (demanded_terms demands) t ≡ Some n → is_some (object_at (candidate program m demands) n) ≡ true }
{}

/// What demands claim of a slot of an object stands in it: a link, or a value as one of the target's is seen.
pub fn claims_stand()
    ensures { (program : Program) (m : ModelData) (demands : List Demand) (o p : ℕ) (object : Object) (h : Held ℕ)
        → object_at (candidate program m demands) o ≡ Some object → Contains (props_of m.meta object.class) p
        → Contains (claimed_at (claims_by_number m.meta (term_number program m (demanded_terms demands)) demands) o p) h → FitsAt program m p h
        → holds program (candidate program m demands) o p h ≡ true }
{}

/// Each demand stands in the model that enforcement makes: its object holds its value, a link, or a value as one of the target's is seen.
pub fn demands_stand()
    ensures { (program : Program) (m : ModelData) (demands : List Demand) (d : Demand) (o : ℕ) (object : Object) (h : Held ℕ) → Contains demands d
        → term_number program m (demanded_terms demands) d.owner ≡ Some o → held_by_number (term_number program m (demanded_terms demands)) (fact_of d).holds ≡ Some h
        → object_at (candidate program m demands) o ≡ Some object → Contains (props_of m.meta object.class) d.prop.0 → FitsAt program m d.prop.0 h
        → holds program (candidate program m demands) o d.prop.0 h ≡ true }
{}
