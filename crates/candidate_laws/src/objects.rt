ghost use Rattle.std.specs.Prelude.{◌≡◌, ℕ, List, Some, Contains};
ghost use Rattle.object_tables.specs.Models.{ModelData};
ghost use Rattle.qv_syntax.specs.declared.program.Program.{Program};
ghost use Rattle.repair_semantics.specs.declared.term.Term.{Term};
ghost use Rattle.repair_semantics.specs.declared.demand.Demand.{Demand};
ghost use Rattle.repair_semantics.specs.Demands.{demanded_terms};
ghost use Rattle.candidate_laws.specs.Placing.{Placeable};
ghost use Rattle.candidate_laws.specs.Parts.{IsObjectOf, demanded_number};

/// Two demanded terms with one number are one term.
pub fn numbers_are_apart()
    ensures { (program : Program) (m : ModelData) (demands : List Demand) → Placeable program m demands → (t u : Term) (n : ℕ)
        → Contains (demanded_terms demands) t → Contains (demanded_terms demands) u
        → demanded_number program m demands t ≡ Some n → demanded_number program m demands u ≡ Some n → t ≡ u }
{}

/// The number of a demanded term is that of an object of the model that enforcement makes, of a class that conforms to the term's.
pub fn objects_conform_to_their_terms()
    ensures { (program : Program) (m : ModelData) (demands : List Demand) → Placeable program m demands → (t : Term) (n : ℕ)
        → Contains (demanded_terms demands) t → demanded_number program m demands t ≡ Some n → IsObjectOf program m demands t n }
{}
