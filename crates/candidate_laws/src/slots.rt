ghost use Rattle.std.specs.Prelude.{◌≡◌, ◌≢◌, ◌↔◌, ◌⊎◌, ℕ, List, Some, AllPairs, Contains};
ghost use Rattle.std.specs.List.{filter_map};
ghost use Rattle.mof_metamodel.specs.Metamodels.{props_of};
ghost use Rattle.object_tables.specs.Models.{ModelData, class_at, values_at, partners_at};
ghost use Rattle.qv_syntax.specs.declared.program.Program.{Program};
ghost use Rattle.repair_semantics.specs.declared.demand.Demand.{Demand};
ghost use Rattle.repair_semantics.specs.Claims.{Held};
ghost use Rattle.repair_semantics.specs.Candidates.{value_held, partner_held, candidate};
ghost use Rattle.candidate_laws.specs.Placing.{Placeable};
ghost use Rattle.candidate_laws.specs.Parts.{IsKeptIn, IsClaimedIn, made_contents};

/// At a property of its class an object of the model that enforcement makes has the values and the partners that its slot holds, each once.
pub fn slots_of_candidates()
    ensures values { (program : Program) (m : ModelData) (demands : List Demand) → Placeable program m demands → (o p class : ℕ)
        → class_at (candidate program m demands) o ≡ Some class → Contains (props_of m.meta class) p
        → values_at (candidate program m demands) o p ≡ filter_map value_held (made_contents program m demands o p) }
    ensures partners { (program : Program) (m : ModelData) (demands : List Demand) → Placeable program m demands → (o p class : ℕ)
        → class_at (candidate program m demands) o ≡ Some class → Contains (props_of m.meta class) p
        → partners_at (candidate program m demands) o p ≡ filter_map partner_held (made_contents program m demands o p) }
    ensures once { (program : Program) (m : ModelData) (demands : List Demand) → Placeable program m demands → (o p class : ℕ)
        → class_at (candidate program m demands) o ≡ Some class → Contains (props_of m.meta class) p
        → AllPairs (λ h i. h ≢ i) (made_contents program m demands o p) }
{}

/// A slot holds what is kept of the target, and what is claimed of it, and nothing else.
pub fn slots_are_kept_or_claimed()
    ensures { (program : Program) (m : ModelData) (demands : List Demand) (o p : ℕ) (h : Held ℕ)
        → Contains (made_contents program m demands o p) h ↔ (IsKeptIn program m demands o p h ⊎ IsClaimedIn program m demands o p h) }
{}
