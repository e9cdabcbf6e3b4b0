ghost use Rattle.std.specs.Prelude.{◌≤◌, ◌<◌, ◌≡◌, ◌↔◌, ℕ, List, [], Some, length, slice_get};
ghost use Rattle.qvtr_semantics.specs.declared.limits.TheConstants.{MAX_CALLS};
ghost use Rattle.object_tables.specs.Models.{ModelData};
ghost use Rattle.qv_syntax.specs.declared.program.Program.{Program};
ghost use Rattle.qv_syntax.specs.declared.program.Rel.{Rel};
ghost use Rattle.qvtr_semantics.specs.Templates.{Values};
ghost use Rattle.qvtr_semantics.specs.Calls.{RelationCall, SourceMatches, TargetHolds, Match, HoldsFor};
ghost use Rattle.qvtr_semantics.specs.Satisfaction.{LeastFailing};
ghost use Rattle.qvtr_semantics.specs.Chains.{HoldsChain, MatchChain};
ghost use Rattle.relation_calls.specs.Seen.{Seen, SeenBehind, TopChain};
ghost use Rattle.relation_calls.specs.Askable.{IsFormed};
ghost use Rattle.relation_calls.specs.Memos.{IsHeight};

/// Where no chain that begins with a call has more than h calls, the call holds with h calls in where clauses within one another exactly
/// where it holds with any more.
pub fn longest_chain_is_enough()
    ensures { (program : Program) (models : List ModelData) (h n : ℕ) (c : RelationCall) → IsHeight program models c h → h ≤ n
        → HoldsFor program models h c ↔ HoldsFor program models n c }
{}

/// In a well formed program a stratum is below the number of relations, and a match is a binding that meets the source and whose calls
/// match, with a partner that meets the target and whose calls hold.
pub fn matches_need_no_strata()
    ensures strata { (program : Program) (number : ℕ) (rel : Rel) → IsFormed program → slice_get program.rels number ≡ Some rel → rel.stratum < length program.rels }
    ensures matches { (program : Program) (models : List ModelData) (c : RelationCall) (rel : Rel) → IsFormed program → slice_get program.rels c.rel ≡ Some rel
        → Match program models c ↔ ((b g : Values) × SourceMatches (Match program models) program models rel c.roots b × TargetHolds (HoldsFor program models MAX_CALLS) program models rel b g) }
{}

/// The chains that are reached from a call that is asked to match, from one that is asked to hold and from a top relation are those that one
/// comes to by first steps.
pub fn chains_are_seen()
    ensures matches { (program : Program) (models : List ModelData) (c : RelationCall) (chain : List RelationCall) → MatchChain program models c chain ↔ Seen program models [] c chain }
    ensures holds { (program : Program) (models : List ModelData) (c : RelationCall) (chain : List RelationCall) → HoldsChain program models c chain ↔ SeenBehind program models [] c chain }
    ensures tops { (program : Program) (models : List ModelData) (c : RelationCall) (chain : List RelationCall) → TopChain program models c chain ↔ Seen program models [] c chain }
{}

/// At most one relation is the first that fails, and of its failing bindings at most one is the least.
pub fn least_is_one()
    ensures first { (program : Program) (models : List ModelData) (number other : ℕ) (b c : Values)
        → LeastFailing program models number b → LeastFailing program models other c → number ≡ other }
    ensures least { (program : Program) (models : List ModelData) (number : ℕ) (b c : Values)
        → LeastFailing program models number b → LeastFailing program models number c → b ≡ c }
{}
