//! Top relations in the order of their strata.
ghost use Rattle.std.specs.Prelude.{◌≡◌, ◌<◌, ◌^◌, length, IfOk};
ghost use Rattle.std.specs.List.Sorted.{IsPermutation, IsNonDecreasingBy};
ghost use Rattle.mof_metamodel.specs.declared.desc.MetaDesc.{MetaDesc};
ghost use Rattle.entry_tops.specs.declared.ranked.Ranked.{Ranked};
ghost use Rattle.entry_tops.specs.TopOrder.{is_top, ranked_from, numbers_of, AreTopsInOrder};

use crate::ranked::Ranked;
use mof_metamodel::NoMemory;
use qv_syntax::{Program, Rel};
use std::alloc::Global;

/// Whether the relation is top and of the direction.
fn is_top(rel: &Rel) -> bool
    ensures { result ≡ is_top rel.now }
{
    rel.top && rel.in_direction
}

/// The top relations in their order.
fn ranked_tops(alloc: Global, rels: &[Rel]) -> Result<Vec<Ranked>, NoMemory>
    requires { length rels.now < 2 ^ 32 }
    ensures { IfOk result (λ rs. rs.items ≡ ranked_from 0 rels.now) }
{
    let mut ranked = Vec::new(alloc);
    for i in 0..rels.len() {
        let rel = &rels[i];
        if is_top(rel) {
            ranked.push(Ranked {
                stratum: rel.stratum,
                number: i as u32,
            })?;
        }
    }
    Ok(ranked)
}

/// The relations in the order of their strata.
fn by_stratum(ranked: Vec<Ranked>) -> Vec<Ranked>
    ensures same { IsPermutation ranked.items result.items }
    ensures sorted { IsNonDecreasingBy (λ r. r.stratum) result.items }
{
    let mut ranked = ranked;
    ranked.sort_unstable_by_key(|r| r.stratum);
    ranked
}

/// The top relations in the order of their strata.
pub(crate) fn tops_in_order(alloc: Global, program: &Program) -> Result<Vec<Ranked>, NoMemory>
    requires { length program.now.rels < 2 ^ 32 }
    ensures { IfOk result (λ rs. AreTopsInOrder program.now (numbers_of rs.items)) }
{
    let ranked = ranked_tops(alloc, program.rels.as_slice())?;
    Ok(by_stratum(ranked))
}
