ghost use Rattle.std.specs.Prelude.{◌≡◌, [], map, Contains, IfOk, OnOk};
ghost use Rattle.qv_syntax.specs.declared.query.Query.{Query as TypedQuery};
ghost use Rattle.qv_syntax.specs.QueryCalls.{AreAcyclic};
ghost use Rattle.ocl_environments.specs.declared.fault.TypeFault.{TypeFault as Fault};
ghost use Rattle.ocl_environments.specs.Environments.{without_variables, without_queries};
ghost use Rattle.ocl_types.specs.Queries.{AreQueries};
ghost use Rattle.ocl_types.specs.QueryTyping.{signed};
ghost use Rattle.ocl_types.specs.TypedContext.{IsTypedQuery};
ghost use Rattle.ocl_environments.specs.Written.{IfFault};
ghost use Rattle.script_scopes.specs.Declarations.{queries_of as queries_in_script};
ghost use Rattle.script_scopes.specs.ScriptQueries.{StandsInQueries};

use mof_metamodel::Seq;
use ocl_environments::{Env, TypeError};
use ocl_types::{calls_are_told, queries_are_typed, query_typing_is_told, type_queries};
use qv_syntax::{Query, QueryTree, Script};
use script_scopes::queries_of;
use std::alloc::Global;

/// Queries, typed and brought into reach, where none is so far.
fn type_listed(
    alloc: Global,
    env: &mut Env<'_>,
    trees: &[&QueryTree],
) -> Result<Seq<Query>, TypeError>
    requires { env.old.queries ≡ [] }
    ensures typed { IfOk result (λ queries. AreQueries env.old (map (λ t. t.now) trees.now) (without_variables env.new) queries) }
    ensures bodies { IfOk result (λ queries. (q : TypedQuery) → Contains queries q → IsTypedQuery (without_variables env.new) q) }
    ensures in_reach { IfOk result (λ queries. env.new.queries ≡ map signed queries) }
    ensures acyclic { IfOk result (λ queries. AreAcyclic queries) }
    ensures none { OnOk result ((f : Fault) → ¬ StandsInQueries env.old (map (λ t. t.now) trees.now) f) }
    ensures fault { IfFault result (StandsInQueries env.old (map (λ t. t.now) trees.now)) }
    ensures kept { without_queries env.new ≡ without_queries env.old }
{
    query_typing_is_told(env);
    queries_are_typed(env);
    calls_are_told();
    type_queries(alloc, env, trees)
}

/// The queries of a script with the types of their bodies, brought into reach (QVT 1.3, section 7.11.1.4). In a query's body its
/// parameters are in reach, and no other variable; all queries are.
///
/// # Errors
///
/// A fault that stands in the queries, `QueryCycle` with the name of one that comes to itself by calls, and `NoMemory`. Some of the
/// queries may then be in reach. Variables stay as they were.
pub fn resolve_queries(
    alloc: Global,
    env: &mut Env<'_>,
    script: &Script,
) -> Result<Seq<Query>, TypeError>
    requires { env.old.queries ≡ [] }
    ensures typed { IfOk result (λ queries. AreQueries env.old (queries_in_script script.now) (without_variables env.new) queries) }
    ensures bodies { IfOk result (λ queries. (q : TypedQuery) → Contains queries q → IsTypedQuery (without_variables env.new) q) }
    ensures in_reach { IfOk result (λ queries. env.new.queries ≡ map signed queries) }
    ensures acyclic { IfOk result (λ queries. AreAcyclic queries) }
    ensures none { OnOk result ((f : Fault) → ¬ StandsInQueries env.old (queries_in_script script.now) f) }
    ensures fault { IfFault result (StandsInQueries env.old (queries_in_script script.now)) }
    ensures kept { without_queries env.new ≡ without_queries env.old }
{
    let trees = queries_of(alloc, script)?;
    type_listed(alloc, env, trees.as_slice())
}
