ghost use Rattle.std.specs.Prelude.{◌≡◌, ◌<◌, length, replicate, None, List, slice_get, IfOk, OnOk};
ghost use Rattle.std.specs.Option.{option_copied};
ghost use Rattle.mof_metamodel.specs.declared.desc.MetaDesc.{MetaDesc};
ghost use Rattle.term_table.specs.TermTables.{IsGrown};
ghost use Rattle.entry_making.specs.CallNumbers.{with_root, with_numbers, call_of};
ghost use Rattle.entry_finding.specs.Premises.{CanBeEnforced};
ghost use Rattle.entry_finding.specs.Prepared.{ArePreparations};
ghost use Rattle.entry_finding.specs.Found.{IsCallWithin, IfMet, IfUnmet};
ghost use Rattle.entry_tops.specs.Tops.{AreTopsFound};
ghost use Rattle.entry_walk.specs.Explored.{IsMade, IsExplored, IsUnmetOf};

use crate::ground::Ground;
use entry_finding::{Finding, Rooted, entries_with};
use entry_making::NumberedCall;
use mof_metamodel::NoMemory;
use qv_syntax::{Dom, Rel};
use std::alloc::Global;
use term_table::{NumberedValue, TermTable, duplicate_numbered};

/// No value for each of so many variables.
fn no_values(alloc: Global, count: usize) -> Result<Vec<Option<NumberedValue>>, NoMemory>
    ensures { IfOk result (λ values. values.items ≡ replicate count None) }
{
    let mut values = Vec::new(alloc);
    for i in 0..count {
        values.push(None)?;
    }
    Ok(values)
}

/// Gives a variable a value, if there is one.
fn put_root(
    alloc: Global,
    values: &mut [Option<NumberedValue>],
    root: u32,
    value: Option<&NumberedValue>,
) -> Result<(), NoMemory>
    ensures { OnOk result (values.new ≡ with_root values.old root (option_copied value.entry)) }
{
    let place = root as usize;
    match value {
        Some(value) => {
            if place < values.len() {
                values[place] = Some(duplicate_numbered(alloc, value)?);
            }
            Ok(())
        }
        None => Ok(()),
    }
}

/// The value at a place, if there is one.
fn given_at(given: &[NumberedValue], place: usize) -> Option<&NumberedValue>
    ensures { option_copied result ≡ slice_get given.now place }
{
    given.get(place)
}

/// Gives the roots of domains these values, one after another.
fn put_roots(
    alloc: Global,
    values: &mut [Option<NumberedValue>],
    domains: &[Dom],
    given: &[NumberedValue],
) -> Result<(), NoMemory>
    ensures { OnOk result (values.new ≡ with_numbers values.old domains.now given.now) }
{
    for i in 0..domains.len() {
        put_root(alloc, values, domains[i].root, given_at(given, i))?;
    }
    Ok(())
}

/// The values that the roots of a call give to the variables of its relation.
fn root_values(
    alloc: Global,
    rel: &Rel,
    roots: &[NumberedValue],
) -> Result<Vec<Option<NumberedValue>>, NoMemory>
    ensures { IfOk result (λ values. values.items ≡ with_numbers (replicate (length rel.now.vars) None) rel.now.domains roots.now) }
{
    let mut values = no_values(alloc, rel.vars.len())?;
    put_roots(alloc, values.as_mut_slice(), rel.domains.as_slice(), roots)?;
    Ok(values)
}

/// The entries of a call that an entry makes, and the calls that they make; or one of them that is unmet.
pub(crate) fn explored(
    ground: &Ground<'_, '_, '_>,
    table: &mut TermTable,
    call: &NumberedCall,
) -> Result<Finding, NoMemory>
    requires premises { (metas : List MetaDesc) × CanBeEnforced metas ground.now.world.program.now ground.now.world.models.now }
    requires prepared { ArePreparations ground.now.world.program.now ground.now.world.models.now ground.now.world.preparations.now }
    requires tops { AreTopsFound ground.now.world.program.now ground.now.world.models.now table.old ground.now.tops.now }
    requires within { IsCallWithin table.old call.now }
    requires made { IsMade ground.now.world.program.now ground.now.world.models.now (call_of table.old call.now) }
    ensures met { IfOk result (IfMet (IsExplored ground.now.world.program.now ground.now.world.models.now table.new ground.now.tops.now call.now)) }
    ensures unmet { IfOk result (IfUnmet (IsUnmetOf ground.now.world.program.now ground.now.world.models.now table.new ground.now.tops.now call.now)) }
    ensures grown { IsGrown table.old table.new }
{
    let rel = &ground.world.program.rels.as_slice()[call.rel as usize];
    let roots = root_values(ground.world.alloc, rel, call.roots.as_slice())?;
    let rooted = Rooted {
        rel: call.rel,
        called: true,
        roots: roots.as_slice(),
    };
    entries_with(&ground.world, &rooted, table, &ground.tops.matches)
}
