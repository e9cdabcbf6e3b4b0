//! All that is known in an entry: its values, the data that equations give, and the terms that keys give.
ghost use Rattle.std.specs.Prelude.{◌≡◌, ◌<◌, ◌≤◌, ◌^◌, length, map, List, All, IfOk, OnOk};
ghost use Rattle.std.specs.Option.{option_map};
ghost use Rattle.std.specs.List.{range_with_len};
ghost use Rattle.repair_semantics.specs.declared.term.Term.{Term};
ghost use Rattle.repair_semantics.specs.EntryValues.{known};
ghost use Rattle.repair_semantics.specs.TargetItems.{target_metamodel};
ghost use Rattle.repair_semantics.specs.Making.{entry_known};
ghost use Rattle.term_table.specs.TermTables.{value_in, values_in, IsGrown};
ghost use Rattle.entry_making.specs.Givers.{given_term};
ghost use Rattle.entry_making.specs.Equations.{shown_equation, computed};
ghost use Rattle.entry_making.specs.KeyedVariables.{shown_keyed, with_term_of, terms_made, AreGiven};
ghost use Rattle.entry_making.specs.Numbered.{IsValueWithin, known_of, bound_out, number_or_datum};
ghost use Rattle.entry_making.specs.Recipes.{IsRecipe};

use crate::numbered_known::NumberedKnown;
use crate::origin::{Equation, Keyed};
use crate::recipe::Recipe;
use crate::scopes::{begun_scope, compute_all};
use crate::values::{begun_values, duplicate_values, origin_values};
use crate::world::World;
use mof_metamodel::{NoMemory, Seq};
use ocl_eval::{Models, Scope};
use qv_syntax::Program;
use std::alloc::Global;
use term_table::{NumberedValue, TermTable};

/// The term that a key gives by the values so far, if each of its key properties has a value.
fn term_given(
    world: &World<'_, '_>,
    keyed: &Keyed<'_>,
    table: &mut TermTable,
    values: &[Option<NumberedValue>],
    scope: &mut Scope,
) -> Result<Option<NumberedValue>, NoMemory>
    requires { All (IsValueWithin table.old) values.now }
    ensures value { IfOk result (λ v. option_map (value_in table.new) v ≡ given_term world.now.program.now world.now.models.now (record { values = values_in table.old values.now; scope = scope.old }) (shown_keyed keyed.now).1) }
    ensures within { IfOk result (IsValueWithin table.new) }
    ensures grown { IsGrown table.old table.new }
    ensures scope { OnOk result (scope.new ≡ scope.old) }
{
    match origin_values(world, keyed.keys.as_slice(), values, scope)? {
        Some(keys) => {
            let number = table.intern(world.alloc, keyed.class, keys)?;
            Ok(Some(NumberedValue::Term(number)))
        }
        None => Ok(None),
    }
}

/// A variable that has no value gets the term that its key gives.
fn make_term(
    world: &World<'_, '_>,
    keyed: &Keyed<'_>,
    table: &mut TermTable,
    values: &mut [Option<NumberedValue>],
    scope: &mut Scope,
) -> Result<(), NoMemory>
    requires within { All (IsValueWithin table.old) values.old }
    requires place { keyed.now.variable < length values.old }
    ensures values { OnOk result (values_in table.new values.new ≡ with_term_of world.now.program.now world.now.models.now scope.old (values_in table.old values.old) (shown_keyed keyed.now)) }
    ensures within { OnOk result (All (IsValueWithin table.new) values.new) }
    ensures places { length values.new ≡ length values.old }
    ensures grown { IsGrown table.old table.new }
    ensures scope { OnOk result (scope.new ≡ scope.old) }
{
    if values[keyed.variable].is_none() {
        let value = term_given(world, keyed, table, values, scope)?;
        values[keyed.variable] = value;
    }
    Ok(())
}

/// The same of variables, one after another.
fn make_all(
    world: &World<'_, '_>,
    keyed: &[Keyed<'_>],
    table: &mut TermTable,
    values: &mut [Option<NumberedValue>],
    scope: &mut Scope,
) -> Result<(), NoMemory>
    requires within { All (IsValueWithin table.old) values.old }
    requires places { All (λ k. k.variable < length values.old) keyed.now }
    ensures values { OnOk result (values_in table.new values.new ≡ terms_made world.now.program.now world.now.models.now scope.old (values_in table.old values.old) (map shown_keyed keyed.now)) }
    ensures within { OnOk result (All (IsValueWithin table.new) values.new) }
    ensures grown { IsGrown table.old table.new }
    ensures scope { OnOk result (scope.new ≡ scope.old) }
{
    for one in keyed {
        make_term(world, one, table, values, scope)?;
    }
    Ok(())
}

/// The data of an entry with these values, those that its equations give among them.
fn entry_scope(
    world: &World<'_, '_>,
    equations: &[Equation<'_>],
    b: &[Option<NumberedValue>],
) -> Result<Scope, NoMemory>
    requires { All (λ q. q.variable < length b.now) equations.now }
    ensures { IfOk result (λ scope. scope ≡ computed world.now.program.now world.now.models.now (map bound_out b.now) (map shown_equation equations.now)) }
{
    let mut scope = begun_scope(world.alloc, b)?;
    compute_all(world, equations, &mut scope)?;
    Ok(scope)
}

/// The values of an entry with these values and these data, the terms that its keys give among them.
fn entry_values(
    world: &World<'_, '_>,
    keyed: &[Keyed<'_>],
    table: &mut TermTable,
    b: &[Option<NumberedValue>],
    scope: &mut Scope,
) -> Result<Seq<Option<NumberedValue>>, NoMemory>
    requires few { length b.now ≤ 2 ^ 32 }
    requires within { All (IsValueWithin table.old) b.now }
    requires places { All (λ k. k.variable < length b.now) keyed.now }
    ensures values { IfOk result (λ vs. values_in table.new vs ≡ terms_made world.now.program.now world.now.models.now scope.old (values_in table.old (map (number_or_datum b.now scope.old) (range_with_len 0 (length b.now)))) (map shown_keyed keyed.now)) }
    ensures within { IfOk result (λ vs. All (IsValueWithin table.new) vs) }
    ensures grown { IsGrown table.old table.new }
    ensures scope { OnOk result (scope.new ≡ scope.old) }
{
    let mut values = begun_values(world.alloc, b, scope)?;
    make_all(world, keyed, table, values.as_mut_slice(), scope)?;
    Ok(Seq::from_vec(values))
}

/// All that is known in an entry of a relation with these values of its variables: those that its equations give, and the terms that
/// its keys give. New terms go into the table, which only grows, also where memory runs out.
///
/// # Errors
///
/// `NoMemory` where memory runs out.
pub fn known_in(
    alloc: Global,
    program: &Program,
    models: &Models<'_>,
    recipe: &Recipe<'_>,
    table: &mut TermTable,
    b: &[Option<NumberedValue>],
) -> Result<NumberedKnown, NoMemory>
    requires recipe { IsRecipe program.now (target_metamodel program.now models.now) recipe.now.rel.now recipe.now }
    requires places { length b.now ≡ length recipe.now.rel.now.vars }
    requires few { length b.now ≤ 2 ^ 32 }
    requires within { All (IsValueWithin table.old) b.now }
    requires given { AreGiven program.now recipe.now.rel.now (values_in table.old b.now) }
    ensures known { IfOk result (λ k. known_of table.new k ≡ entry_known program.now models.now recipe.now.rel.now (values_in table.old b.now)) }
    ensures within { IfOk result (λ k. All (IsValueWithin table.new) k.values) }
    ensures grown { IsGrown table.old table.new }
{
    let world = World {
        alloc,
        program,
        models,
    };
    let mut scope = entry_scope(&world, recipe.equations.as_slice(), b)?;
    let values = entry_values(&world, recipe.keyed.as_slice(), table, b, &mut scope)?;
    Ok(NumberedKnown { values, scope })
}

/// What is known by these values alone, before anything is made: that by which calls in when clauses are made.
///
/// # Errors
///
/// `NoMemory` where memory runs out.
pub fn bound_known(alloc: Global, b: &[Option<NumberedValue>]) -> Result<NumberedKnown, NoMemory>
    ensures { IfOk result (λ k. (terms : List Term) → known_of terms k ≡ known (values_in terms b.now)) }
{
    let values = duplicate_values(alloc, b)?;
    let scope = begun_scope(alloc, b)?;
    Ok(NumberedKnown { values, scope })
}
