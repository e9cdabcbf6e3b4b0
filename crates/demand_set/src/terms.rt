ghost use Rattle.std.specs.Prelude.{◌≡◌, ◌++◌, ◌<◌, map, length, All, IfOk, OnOk};
ghost use Rattle.std.specs.List.{flat_map};
ghost use Rattle.repair_semantics.specs.Demands.{demanded_terms};
ghost use Rattle.term_table.specs.TermTables.{term_at};
ghost use Rattle.demand_conflicts.specs.NumberedDemands.{demands_in, IsDemandWithin};
ghost use Rattle.demand_set.specs.Listings.{term_numbers};

use demand_conflicts::NumberedDemand;
use mof_metamodel::{NoMemory, Seq};
use std::alloc::Global;
use term_table::{NumberedValue, TermTable};

/// Puts the number of the owner of a demand behind the others, and that of its value where that is a term.
fn add_numbers(numbers: &mut Seq<usize>, demand: &NumberedDemand) -> Result<(), NoMemory>
    ensures { OnOk result (numbers.new ≡ numbers.old ++ term_numbers demand.now) }
{
    numbers.push(demand.owner)?;
    match &demand.value {
        NumberedValue::Val(_) => Ok(()),
        NumberedValue::Term(number) => numbers.push(*number),
    }
}

/// The numbers of all terms that own a demand or are the value of one.
fn numbers_of(alloc: Global, demands: &[NumberedDemand]) -> Result<Seq<usize>, NoMemory>
    ensures { IfOk result (λ ns. ns ≡ flat_map term_numbers demands.now) }
{
    let mut numbers = Seq::new(alloc);
    for demand in demands {
        add_numbers(&mut numbers, demand)?;
    }
    Ok(numbers)
}

/// The numbers of the terms that are demanded, in the order of the terms, each once.
pub(crate) fn demanded_numbers(
    alloc: Global,
    table: &TermTable,
    demands: &[NumberedDemand],
) -> Result<Seq<usize>, NoMemory>
    requires { All (IsDemandWithin table.now) demands.now }
    ensures terms { IfOk result (λ ns. map (term_at table.now) ns ≡ demanded_terms (demands_in table.now demands.now)) }
    ensures within { IfOk result (λ ns. All (λ n. n < length table.now) ns) }
{
    let numbers = numbers_of(alloc, demands)?;
    Ok(table.sorted(numbers))
}
