ghost use Rattle.std.specs.Prelude.{◌≡◌, ◌<◌, ℕ, Bool, List, length, Option, All};
ghost use Rattle.mof_metamodel.specs.declared.desc.MetaDesc.{MetaDesc};
ghost use Rattle.object_tables.specs.Models.{ModelData};
ghost use Rattle.qv_syntax.specs.declared.program.Program.{Program};
ghost use Rattle.repair_semantics.specs.declared.term.Term.{Term};
ghost use Rattle.repair_semantics.specs.Terms.{each_once};
ghost use Rattle.repair_semantics.specs.Claims.{Claim};
ghost use Rattle.repair_semantics.specs.Candidates.{claims_by_number, contents_at, candidate_with};
ghost use Rattle.term_table.specs.TermTables.{term_at};
ghost use Rattle.demand_conflicts.specs.declared.demand.NumberedDemand.{NumberedDemand};
ghost use Rattle.demand_conflicts.specs.NumberedDemands.{demands_in, IsDemandWithin};
ghost use Rattle.slot_claims.specs.DemandClaims.{ObjectNumbers, number_at, all_claims};
ghost use Rattle.slot_claims.specs.ClaimOrder.{claim_order};

/// Where a list has the number of the object that each term of a table is, the claims of numbered demands are those of the demands between
/// terms.
pub fn claims_are_the_demands()
    ensures { (table : List Term) (numbers : ObjectNumbers) (number : Term → Option ℕ) → ((n : ℕ) → n < length table → number_at numbers n ≡ number (term_at table n))
        → (meta : MetaDesc) (demands : List NumberedDemand) → All (IsDemandWithin table) demands → all_claims meta numbers demands ≡ claims_by_number meta number (demands_in table demands) }
{}

/// What a slot holds after a repair, and the model that it makes, depend on which claims there are alone: they may stand in their order,
/// each once.
pub fn claims_stand_in_order()
    ensures contents { (program : Program) (m : ModelData) (live : ℕ → Bool) (claims : List (Claim ℕ)) (o p : ℕ)
        → contents_at program m live (each_once claim_order claims) o p ≡ contents_at program m live claims o p }
    ensures candidate { (program : Program) (m : ModelData) (live : ℕ → Bool) (claims : List (Claim ℕ)) (fresh : List Term)
        → candidate_with program m live (each_once claim_order claims) fresh ≡ candidate_with program m live claims fresh }
{}
