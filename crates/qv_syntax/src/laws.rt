ghost use Rattle.std.specs.Prelude.{◌≤◌, ℕ, List, length};
ghost use Rattle.qv_syntax.specs.declared.query.Query.{Query};
ghost use Rattle.qv_syntax.specs.QueryCalls.{AreAcyclic, IsCallChain};

/// Where queries call each other without a cycle, no chain of calls within one another is as long as there are queries.
pub fn calls_of_queries_end()
    ensures { (queries : List Query) (n q : ℕ) → AreAcyclic queries → length queries ≤ n → ¬ IsCallChain queries n q }
{}
