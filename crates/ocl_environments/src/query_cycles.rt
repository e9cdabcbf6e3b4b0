ghost use Rattle.std.specs.Prelude.{◌<◌, ℕ, length, IfOk, OnOk};
ghost use Rattle.call_graph.specs.Graphs.{IsOnCycle};
ghost use Rattle.ocl_environments.specs.Written.{IfFault};
ghost use Rattle.ocl_environments.specs.QueryCalls.{rows_of, HasNameAt, IsCycleFault};

use crate::fault::{TypeError, TypeFault};
use crate::query_calls::call_rows;
use call_graph::find_cycle;
use mof_metamodel::{NoMemory, Text};
use qv_syntax::Query;
use std::alloc::Global;

/// The name of a query.
fn query_name(alloc: Global, queries: &[Query], place: usize) -> Result<Text, NoMemory>
    requires { place < length queries.now }
    ensures { IfOk result (HasNameAt queries.now place) }
{
    queries[place].name.duplicate(alloc)
}

/// The fault of a query on a cycle of calls, with so many queries before these.
fn cycle_fault(
    alloc: Global,
    before: usize,
    queries: &[Query],
    u: usize,
) -> Result<TypeFault, NoMemory>
    requires { IsOnCycle (rows_of before queries.now) u }
    ensures { IfOk result (IsCycleFault before queries.now) }
{
    let place = u - before;
    let name = query_name(alloc, queries, place)?;
    Ok(TypeFault::QueryCycle(name))
}

/// Refuses queries that call each other in a cycle, with so many queries before them.
pub fn refuse_cycle(alloc: Global, before: usize, queries: &[Query]) -> Result<(), TypeError>
    ensures none { OnOk result ((u : ℕ) → IsOnCycle (rows_of before queries.now) u → ⊥) }
    ensures fault { IfFault result (IsCycleFault before queries.now) }
{
    let rows = call_rows(alloc, before, queries)?;
    match find_cycle(alloc, rows.as_slice())? {
        Some(u) => Err(TypeError::Fault(cycle_fault(alloc, before, queries, u)?)),
        None => Ok(()),
    }
}
