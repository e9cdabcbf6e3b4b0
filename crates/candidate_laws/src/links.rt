ghost use Rattle.std.specs.Prelude.{◌≡◌, ℕ, List, Some, Contains};
ghost use Rattle.mof_metamodel.specs.Metamodels.{opposite_of};
ghost use Rattle.object_tables.specs.Models.{ModelData};
ghost use Rattle.qv_syntax.specs.declared.program.Program.{Program};
ghost use Rattle.repair_semantics.specs.declared.demand.Demand.{Demand};
ghost use Rattle.repair_semantics.specs.Claims.{Held, Spot, Said};
ghost use Rattle.candidate_laws.specs.Placing.{IsAttributeFor, Placeable};
ghost use Rattle.qvtr_semantics.specs.declared.datum.Datum.{Datum};
ghost use Rattle.candidate_laws.specs.Parts.{IsClaimedIn, IsPair, demanded_claims};

/// What is claimed at one end of a link is claimed at the other (MOF 2.5.1, Reflection).
pub fn links_are_claimed_at_both_ends()
    ensures { (program : Program) (m : ModelData) (demands : List Demand) → Placeable program m demands → (p q a b : ℕ) → opposite_of m.meta p ≡ Some q
        → IsClaimedIn program m demands a p (Held.object b) → IsClaimedIn program m demands b q (Held.object a) }
{}

/// A link that is claimed is one of the objects of two demanded terms, by a reference of the one's class, to a class that conforms to its type.
pub fn claimed_links_are_typed()
    ensures { (program : Program) (m : ModelData) (demands : List Demand) → Placeable program m demands → (a p b : ℕ)
        → IsClaimedIn program m demands a p (Held.object b) → IsPair program m demands a p b }
{}

/// Of an object one container is claimed at most, by one property (UML 2.5.1, 9.5.3).
pub fn containers_are_claimed_once()
    ensures { (program : Program) (m : ModelData) (demands : List Demand) → Placeable program m demands → (o a b p q : ℕ)
        → Contains (demanded_claims program m demands) (record { spot = Spot.container o; said = Said.within a p })
        → Contains (demanded_claims program m demands) (record { spot = Spot.container o; said = Said.within b q }) → (a ≡ b) × (p ≡ q) }
{}

/// A datum that is claimed of a slot is one that its property can hold, an attribute: a value of its type, as one of the target's is seen.
pub fn claimed_values_are_typed()
    ensures { (program : Program) (m : ModelData) (demands : List Demand) → Placeable program m demands → (a p : ℕ) (x : Datum)
        → IsClaimedIn program m demands a p (Held.datum x) → IsAttributeFor program m.meta p x }
{}
