ghost use Rattle.std.specs.Prelude.{◌≡◌, ◌≢◌, ◌++◌, ◌↔◌, map, Some, slice_get, Contains, AllPairs, IfOk, OnOk};
ghost use Rattle.std.specs.List.{flat_map};
ghost use Rattle.qv_syntax.specs.declared.program.Rel.{Rel};
ghost use Rattle.template_match.specs.Plans.{IsPlanOf};
ghost use Rattle.template_match.specs.Search.{values_of};
ghost use Rattle.repair_semantics.specs.EntryValues.{TermValues};
ghost use Rattle.term_table.specs.TermTables.{values_in};
ghost use Rattle.entry_bindings.specs.Matches.{names_in};
ghost use Rattle.entry_bindings.specs.Joins.{joined_for, all_joined};
ghost use Rattle.entry_bindings.specs.Starts.{NumberedValues, data_beside};
ghost use Rattle.entry_bindings.specs.Asked.{IsEnforced, AreRoots, HasPrimitiveRoots, AreWithin, AreMatchesWithin, IsEntryBinding};

use crate::joining::{Joining, Values, joined_for};
use crate::match_table::MatchTable;
use crate::starts::{data_beside, fixed_values};
use mof_metamodel::{NoMemory, Seq};
use ocl_eval::Models;
use qv_syntax::{Program, Rel};
use qvtr_semantics::Binding;
use std::alloc::Global;
use template_match::{Plan, source_bindings};
use term_table::{NumberedValue, TermTable};

/// What bindings are looked for: those of a relation with some roots.
#[derive(Clone, Copy)]
struct Sought<'a, 'm> {
    alloc: Global,
    program: &'a Program,
    models: &'a Models<'m>,
    rel: &'a Rel,
    matches: &'a MatchTable,
    roots: &'a [Option<NumberedValue>],
}

/// Puts these behind the others.
fn append(found: &mut Seq<Values>, more: Seq<Values>) -> Result<(), NoMemory>
    ensures { OnOk result (found.new ≡ found.old ++ more) }
{
    for values in more.into_vec() {
        found.push(values)?;
    }
    Ok(())
}

/// The bindings with the data that were found in the sources.
fn joined_with(sought: &Sought<'_, '_>, source: &Binding) -> Result<Seq<Values>, NoMemory>
    ensures { IfOk result (λ bs. bs ≡ joined_for sought.now.program.now sought.now.models.now sought.now.matches.now sought.now.rel.now sought.now.roots.now (data_beside sought.now.roots.now source.now.values)) }
{
    let data = data_beside(sought.alloc, sought.roots, source.values.as_slice())?;
    let task = Joining {
        alloc: sought.alloc,
        program: sought.program,
        models: sought.models,
        rel: sought.rel,
        matches: sought.matches,
        data: &data,
    };
    joined_for(&task, sought.roots)
}

/// The bindings by all that was found in the sources.
fn all_joined(sought: &Sought<'_, '_>, found: &[Binding]) -> Result<Seq<Values>, NoMemory>
    ensures { IfOk result (λ bs. bs ≡ all_joined sought.now.program.now sought.now.models.now sought.now.matches.now sought.now.rel.now sought.now.roots.now (values_of found.now)) }
{
    let mut bs = Seq::new(sought.alloc);
    for source in found {
        let more = joined_with(sought, source)?;
        append(&mut bs, more)?;
    }
    Ok(bs)
}

/// The bindings of the entries of a relation with these roots, each once: those that meet the source, in which each universal variable for
/// objects of the target has its term, and whose calls in the when clause are among the matches (QVT 1.3, sections 7.2, 7.3 and 7.10.2).
/// It takes the time of the search in the sources, and for each binding and call the logarithm of the number of matches and the number of
/// those whose roots have the same data.
pub fn entry_bindings(
    alloc: Global,
    program: &Program,
    models: &Models<'_>,
    plan: &Plan,
    table: &TermTable,
    matches: &MatchTable,
    roots: &[Option<NumberedValue>],
) -> Result<Seq<Seq<Option<NumberedValue>>>, NoMemory>
    requires planned { (rel : Rel) × IsPlanOf program.now plan.now.rel rel plan.now × IsEnforced program.now rel × AreRoots program.now rel (values_in table.now roots.now) × HasPrimitiveRoots rel (values_in table.now roots.now) }
    requires numbers { AreWithin table.now roots.now }
    requires names { AreMatchesWithin table.now matches.now }
    ensures exact { IfOk result (λ bs. (rel : Rel) → slice_get program.now.rels plan.now.rel ≡ Some rel → (b : TermValues)
        → Contains (map (values_in table.now) bs) b ↔ IsEntryBinding program.now models.now rel (names_in table.now matches.now) (values_in table.now roots.now) b) }
    ensures within { IfOk result (λ bs. (b : NumberedValues) → Contains bs b → AreWithin table.now b) }
    ensures each_once { IfOk result (λ bs. AllPairs (λ a b. a ≢ b) (map (values_in table.now) bs)) }
{
    let rel = &program.rels.as_slice()[plan.rel as usize];
    let fixed = fixed_values(alloc, program.target, roots)?;
    let found = source_bindings(alloc, program, plan, models, &fixed)?;
    // What these say of the tables: no term has two numbers, and no match stands there twice.
    let _terms = table.len();
    let _matches = matches.len();
    let sought = Sought {
        alloc,
        program,
        models,
        rel,
        matches,
        roots,
    };
    all_joined(&sought, found.as_slice())
}
