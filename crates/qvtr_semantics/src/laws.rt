ghost use Rattle.std.specs.Prelude.{◌≡◌, ◌≤◌, ◌↔◌, ℕ, suc, List, [], ◌∷◌, Some, length, slice_get};
ghost use Rattle.qv_syntax.specs.declared.query.Query.{Query};
ghost use Rattle.qv_syntax.specs.QueryCalls.{AreAcyclic};
ghost use Rattle.qvtr_semantics.specs.declared.out.Out.{Out};
ghost use Rattle.qvtr_semantics.specs.Objects.{Setting};
ghost use Rattle.qvtr_semantics.specs.Expressions.{meaning, queries_within};
ghost use Rattle.qvtr_semantics.specs.Satisfaction.{Satisfied, LeastFailing};
ghost use Rattle.qvtr_semantics.specs.SmallModels.{program, models, both, one_only, b_alone, package_call, other_call, looping, again_call, metas, packages_alone};
ghost use Rattle.qv_syntax.specs.WellFormed.{IsWellFormed};
ghost use Rattle.qvtr_semantics.specs.Calls.{Match, Holds, RelationCall, MatchesWithin, HoldsWithin};
ghost use Rattle.qvtr_semantics.specs.Strata.{HasFewer};
ghost use Rattle.qv_syntax.specs.declared.program.Program.{Program};
ghost use Rattle.object_tables.specs.Models.{ModelData};
ghost use Rattle.qvtr_semantics.specs.Chains.{CyclicChain};

/// Two packages with two schemas of their names are satisfied; with one schema the second package is the least failing binding. A package
/// and the schema of its name match where a when clause calls for them; a call in a where clause holds for them, and not for the other
/// schema; a relation that calls itself with its own roots is a cyclic chain.
pub fn small_models_are_told()
    ensures satisfied { Satisfied program both }
    ensures least { LeastFailing program one_only 0 b_alone }
    ensures matches { Match program models package_call }
    ensures holds { Holds program both package_call }
    ensures fails { ¬ Holds program both other_call }
    ensures cycle { CyclicChain looping models (again_call ∷ again_call ∷ []) }
{}

/// Where queries call each other without a cycle, as many calls within one another as there are queries are enough: more change
/// nothing, and a call has the value of the query's body.
pub fn calls_have_values_of_bodies()
    ensures enough { (queries : List Query) (s : Setting) → AreAcyclic queries → (n q : ℕ) (args : List Out) → length queries ≤ n
        → queries_within queries s n q args ≡ queries_within queries s (length queries) q args }
    ensures body { (queries : List Query) (s : Setting) → AreAcyclic queries → (q : ℕ) (query : Query) (args : List Out) → slice_get queries q ≡ Some query
        → queries_within queries s (length queries) q args ≡ meaning s (queries_within queries s (length queries)) query.body args }
{}

/// With as many strata as the calls in when clauses from a relation need, a call matches exactly where it does with any more, and a
/// relation holds exactly where it does with any more.
pub fn strata_are_enough()
    ensures matches { (program : Program) (models : List ModelData) (s n : ℕ) (c : RelationCall) → HasFewer program s c.rel → s ≤ n
        → MatchesWithin program models s c ↔ MatchesWithin program models n c }
    ensures holds { (program : Program) (models : List ModelData) (s n calls : ℕ) (c : RelationCall) → HasFewer program (suc s) c.rel → s ≤ n
        → HoldsWithin (MatchesWithin program models s) program models calls c ↔ HoldsWithin (MatchesWithin program models n) program models calls c }
{}

/// A small program is well formed: PackageToSchema alone, with the key of its schemas.
pub fn small_program_is_well_formed()
    ensures { IsWellFormed metas packages_alone }
{}
