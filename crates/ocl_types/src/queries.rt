ghost use Rattle.std.specs.Prelude.{◌≡◌, ◌+◌, ◌<◌, ℕ, [], ◌++◌, map, length, false, IfOk, OnOk, IsTrue, Ok};
ghost use Rattle.mof_metamodel.specs.Giving.{Gives};
ghost use Rattle.call_graph.specs.Graphs.{IsOnCycle};
ghost use Rattle.ocl_environments.specs.Written.{IfFault, fault_in};
ghost use Rattle.ocl_environments.specs.Environments.{is_type, are_types, is_bound as bound, without_variables, without_queries, without_names};
ghost use Rattle.ocl_environments.specs.Outcomes.{asking, wrong_type as wrong};
ghost use Rattle.ocl_environments.specs.Agreement.{fits as fits_by};
ghost use Rattle.ocl_types.specs.TypingScopes.{let_type, declared_type as declared_by};
ghost use Rattle.ocl_types.specs.Typing.{typed as tree_typed};
ghost use Rattle.ocl_types.specs.QueryTyping.{with_param, query_bound, params_from, signature_of, queries_bound, query_typed, queries_from, queries_typed, signed, IsFirstFault};
ghost use Rattle.ocl_environments.specs.QueryCalls.{rows_of};

use crate::typing::type_expr;
use crate::typing_scopes::declared_type;
use mof_metamodel::{NoMemory, Seq, or_drop};
use ocl_environments::{Env, Signature, TypeError, duplicate_name, fits, refuse_cycle, wrong_type};
use qv_syntax::{Expr, ParamTree, Query, QueryTree, Ty, TypeTree, Typed};
use std::alloc::Global;

/// The type that is written for a variable, which a variable may have: no collection of collections.
///
/// # Errors
///
/// `UnknownName` and `WrongType` where they stand in the type, and `NoMemory`.
pub fn variable_type(alloc: Global, env: &Env<'_>, tree: &TypeTree) -> Result<Ty, TypeError>
    ensures given { Gives fault_in (λ x. x) result (declared_by env.now tree.now) }
    ensures typed { IfOk result (λ ty. IsTrue (is_type env.now.metas ty)) }
{
    declared_type(alloc, env, tree)
}

/// The type of a parameter whose name is free.
fn param_type(alloc: Global, env: &Env<'_>, param: &ParamTree) -> Result<Ty, TypeError>
    ensures given { Gives fault_in (λ x. x) result (let_type env.now param.now.name.text param.now.ty) }
    ensures typed { IfOk result (λ ty. IsTrue (is_type env.now.metas ty)) }
    ensures unbound { OnOk result (bound env.now param.now.name.text ≡ false) }
{
    if env.is_bound(&param.name.text) {
        return Err(TypeError::Fault(duplicate_name(alloc, param.name.text.as_str())?));
    }
    variable_type(alloc, env, &param.ty)
}

/// Brings a parameter into reach.
fn bind_param(alloc: Global, env: &mut Env<'_>, param: &ParamTree, ty: &Ty) -> Result<(), NoMemory>
    requires unbound { bound env.old param.now.name.text ≡ false }
    requires typed { IsTrue (is_type env.old.metas ty.now) }
    ensures bound { OnOk result (env.new ≡ with_param env.old param.now.name.text ty.now) }
    ensures kept { without_variables env.new ≡ without_variables env.old }
{
    let ty = ty.duplicate(alloc)?;
    let name = param.name.text.duplicate(alloc)?;
    env.bind(name, ty)
}

/// Brings parameters into reach, and gives their types.
#[tactic(auto, unfolding(crate::specs::QueryTyping::params_from))]
fn bind_params(alloc: Global, env: &mut Env<'_>, params: &[ParamTree]) -> Result<Seq<Ty>, TypeError>
    ensures given { Gives fault_in (λ types. (env.new, types)) result (params_from env.old [] params.now) }
    ensures typed { IfOk result (λ types. IsTrue (are_types env.old.metas types)) }
    ensures kept { without_variables env.new ≡ without_variables env.old }
{
    let mut types = Seq::new(alloc);
    for param in params {
        let ty = or_drop!(param_type(alloc, env, param); types);
        or_drop!(bind_param(alloc, env, param, &ty); ty, types);
        or_drop!(types.push(ty); types);
    }
    Ok(types)
}

/// The types of a query's parameters and of its result.
fn signature(alloc: Global, env: &mut Env<'_>, query: &QueryTree) -> Result<Signature, TypeError>
    requires { without_variables env.old ≡ env.old }
    ensures given { Gives fault_in (λ x. x) result (signature_of env.old query.now) }
    ensures params { IfOk result (λ s. IsTrue (are_types env.old.metas s.params)) }
    ensures result_type { IfOk result (λ s. IsTrue (is_type env.old.metas s.result)) }
    ensures same { OnOk result (env.new ≡ env.old) }
    ensures kept { without_variables env.new ≡ without_variables env.old }
{
    let result = variable_type(alloc, env, &query.result)?;
    let params = or_drop!(bind_params(alloc, env, query.params.as_slice()); result);
    env.forget_variables(alloc);
    Ok(Signature { params, result })
}

/// Brings a query into reach.
fn bind_one(alloc: Global, env: &mut Env<'_>, query: &QueryTree) -> Result<(), TypeError>
    requires { without_variables env.old ≡ env.old }
    ensures given { Gives fault_in (λ u. env.new) result (query_bound env.old query.now) }
    ensures empty { OnOk result (without_variables env.new ≡ env.new) }
    ensures kept { without_names env.new ≡ without_names env.old }
{
    if env.is_query(&query.name.text) {
        return Err(TypeError::Fault(duplicate_name(alloc, query.name.text.as_str())?));
    }
    let Signature { params, result } = signature(alloc, env, query)?;
    let name = or_drop!(query.name.text.duplicate(alloc); params, result);
    Ok(env.bind_query(name, params, result)?)
}

/// Brings queries into reach.
#[tactic(auto, unfolding(crate::specs::QueryTyping::queries_bound))]
fn bind_queries(alloc: Global, env: &mut Env<'_>, queries: &[&QueryTree]) -> Result<(), TypeError>
    requires { without_variables env.old ≡ env.old }
    ensures given { Gives fault_in (λ u. env.new) result (queries_bound env.old (map (λ q. q.now) queries.now)) }
    ensures empty { OnOk result (without_variables env.new ≡ env.new) }
    ensures kept { without_names env.new ≡ without_names env.old }
{
    for query in queries {
        bind_one(alloc, env, query)?;
    }
    Ok(())
}

/// A query of a body that is typed, if it conforms to the result.
fn with_body(
    alloc: Global,
    env: &Env<'_>,
    query: &QueryTree,
    types: Signature,
    body: Typed,
) -> Result<Query, TypeError>
    ensures { Gives fault_in (λ x. x) result (asking (fits_by env.now.metas body.ty types.result) (wrong env.now.metas types.result body.ty) (Ok (record { name = query.now.name.text; params = types.params; result = types.result; body = body }))) }
{
    if !fits(env.metas(), &body.ty, &types.result) {
        let fault = wrong_type(alloc, env.metas(), &types.result, &body.ty);
        drop(types);
        drop(body);
        return Err(TypeError::Fault(fault?));
    }
    let name = or_drop!(query.name.text.duplicate(alloc); types, body);
    let Signature { params, result } = types;
    Ok(Query {
        name,
        params,
        result,
        body,
    })
}

/// The typed tree of a body.
fn body_tree(alloc: Global, env: &Env<'_>, body: &Expr) -> Result<Typed, TypeError>
    ensures { Gives fault_in (λ x. x) result (tree_typed env.now body.now) }
{
    type_expr(alloc, env, body)
}

/// A query, with all of them in reach.
fn type_query(alloc: Global, env: &mut Env<'_>, query: &QueryTree) -> Result<Query, TypeError>
    requires { without_variables env.old ≡ env.old }
    ensures given { Gives fault_in (λ x. x) result (query_typed env.old query.now) }
    ensures same { OnOk result (env.new ≡ env.old) }
    ensures kept { without_variables env.new ≡ without_variables env.old }
{
    let result = variable_type(alloc, env, &query.result)?;
    let params = or_drop!(bind_params(alloc, env, query.params.as_slice()); result);
    let body = or_drop!(body_tree(alloc, env, &query.body); params, result);
    env.forget_variables(alloc);
    with_body(alloc, env, query, Signature { params, result }, body)
}

/// All of these queries, which are in reach.
#[tactic(auto, unfolding(crate::specs::QueryTyping::queries_from))]
fn type_bodies(
    alloc: Global,
    env: &mut Env<'_>,
    queries: &[&QueryTree],
) -> Result<Seq<Query>, TypeError>
    requires { without_variables env.old ≡ env.old }
    ensures given { Gives fault_in (λ x. x) result (queries_from env.old [] (map (λ q. q.now) queries.now)) }
    ensures same { OnOk result (env.new ≡ env.old) }
    ensures kept { without_variables env.new ≡ without_variables env.old }
{
    let mut typed = Seq::new(alloc);
    for query in queries {
        let query = type_query(alloc, env, query)?;
        typed.push(query)?;
    }
    Ok(typed)
}

/// The typed queries, which are brought into reach.
fn type_all(
    alloc: Global,
    env: &mut Env<'_>,
    queries: &[&QueryTree],
) -> Result<Seq<Query>, TypeError>
    requires { without_variables env.old ≡ env.old }
    ensures typed { IfOk result (λ typed. queries_typed env.old (map (λ q. q.now) queries.now) ≡ Ok (env.new, typed)) }
    ensures acyclic { IfOk result (λ typed. (u : ℕ) → IsOnCycle (rows_of (length env.old.queries) typed) u → ⊥) }
    ensures fault { IfFault result (IsFirstFault env.old (map (λ q. q.now) queries.now)) }
    ensures empty { OnOk result (without_variables env.new ≡ env.new) }
    ensures kept { without_names env.new ≡ without_names env.old }
{
    let before = env.query_count();
    bind_queries(alloc, env, queries)?;
    let typed = type_bodies(alloc, env, queries)?;
    refuse_cycle(alloc, before, typed.as_slice())?;
    Ok(typed)
}

/// Brings queries into reach and gives them with the types of their bodies (QVT 1.3, section 7.11.1.4). In a query's
/// body its parameters are in reach, and no other variable; all queries are. Their numbers are behind those of the queries
/// that were in reach before.
///
/// # Errors
///
/// A fault that stands in the queries: in the types of parameters or results, in a body, or `QueryCycle` with the name of a
/// query that comes to itself by calls; and `NoMemory`. Some of the queries may then be in reach. Variables stay as they were.
pub fn type_queries(
    alloc: Global,
    env: &mut Env<'_>,
    queries: &[&QueryTree],
) -> Result<Seq<Query>, TypeError>
    ensures typed { IfOk result (λ typed. queries_typed env.old (map (λ q. q.now) queries.now) ≡ Ok (without_variables env.new, typed)) }
    ensures in_reach { IfOk result (λ typed. env.new.queries ≡ env.old.queries ++ map signed typed) }
    ensures acyclic { IfOk result (λ typed. (u : ℕ) → IsOnCycle (rows_of (length env.old.queries) typed) u → ⊥) }
    ensures fault { IfFault result (IsFirstFault env.old (map (λ q. q.now) queries.now)) }
    ensures kept { without_queries env.new ≡ without_queries env.old }
{
    let variables = env.take_variables(alloc);
    let typed = type_all(alloc, env, queries);
    env.put_variables(variables);
    typed
}
