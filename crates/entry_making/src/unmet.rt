//! The place at which an entry is unmet.
ghost use Rattle.std.specs.Prelude.{◌≡◌, ◌<◌, ◌^◌, List, length, map, not, is_none, IfOk, OnOk};
ghost use Rattle.qvtr_semantics.specs.Equality.{is_known_true};
ghost use Rattle.qvtr_semantics.specs.Expressions.{value};
ghost use Rattle.qvtr_semantics.specs.Outs.{boolean_of, datum_of};
ghost use Rattle.template_match.specs.Sources.{is_target_variable};
ghost use Rattle.repair_semantics.specs.declared.term.Term.{Term};
ghost use Rattle.repair_semantics.specs.EntryValues.{is_target_alone};
ghost use Rattle.repair_semantics.specs.TargetItems.{target_metamodel};
ghost use Rattle.repair_semantics.specs.Unmet.{unmet_at};
ghost use Rattle.entry_making.specs.Items.{shown_content, shown_item};
ghost use Rattle.entry_making.specs.Numbered.{known_of};
ghost use Rattle.entry_making.specs.UnmetNumbers.{lacks, content_lacks, unmet_item, any_lacks, fails, unmet_conjunct};
ghost use Rattle.entry_making.specs.Recipes.{IsRecipe};

use crate::content::{Content, OwnedItem};
use crate::keys::expression_origin;
use crate::numbered_known::NumberedKnown;
use crate::recipe::Recipe;
use crate::values::origin_value;
use crate::world::World;
use mof_metamodel::NoMemory;
use ocl_eval::{Models, boolean_of, datum_of, eval_in};
use qv_syntax::{Conj, Node, Program, Rel, Typed};
use repair_semantics::Place;
use std::alloc::Global;

/// Whether the variable is one for objects of the target.
fn is_target_variable(program: &Program, rel: &Rel, variable: u32) -> bool
    ensures { result ≡ is_target_variable program.now rel.now variable }
{
    match rel.vars.as_slice().get(variable as usize) {
        Some(var) => match var.model {
            Some(model) => model == program.target,
            None => false,
        },
        None => false,
    }
}

/// Whether the expression is a variable for objects of the target.
fn is_target_alone(program: &Program, rel: &Rel, e: &Typed) -> bool
    ensures { result ≡ is_target_alone program.now rel.now e.now }
{
    match &e.node {
        Node::Variable { number } => is_target_variable(program, rel, *number),
        _ => false,
    }
}

/// Whether the value is null or invalid; of a variable of the target it never is.
fn is_lacking(
    world: &World<'_, '_>,
    rel: &Rel,
    e: &Typed,
    known: &mut NumberedKnown,
) -> Result<bool, NoMemory>
    ensures value { IfOk result (λ b. b ≡ lacks world.now.program.now world.now.models.now rel.now known.old e.now) }
    ensures kept { OnOk result (known.new ≡ known.old) }
{
    if is_target_alone(world.program, rel, e) {
        return Ok(false);
    }
    let value = origin_value(
        world,
        expression_origin(e),
        known.values.as_slice(),
        &mut known.scope,
    )?;
    Ok(value.is_none())
}

/// Whether an item's own value is null or invalid.
fn is_content_lacking(
    world: &World<'_, '_>,
    rel: &Rel,
    content: Content<'_>,
    known: &mut NumberedKnown,
) -> Result<bool, NoMemory>
    ensures value { IfOk result (λ b. b ≡ content_lacks world.now.program.now world.now.models.now rel.now known.old (shown_content content.entry)) }
    ensures kept { OnOk result (known.new ≡ known.old) }
{
    match content {
        Content::Empty => Ok(true),
        Content::Expression(e) => is_lacking(world, rel, e, known),
        Content::Template(_) => Ok(false),
    }
}

/// The first item that lacks its value.
fn unmet_item(
    world: &World<'_, '_>,
    rel: &Rel,
    items: &[OwnedItem<'_>],
    known: &mut NumberedKnown,
) -> Result<Option<Place>, NoMemory>
    ensures value { IfOk result (λ p. p ≡ unmet_item world.now.program.now world.now.models.now rel.now known.old (map shown_item items.now)) }
    ensures kept { OnOk result (known.new ≡ known.old) }
{
    for item in items {
        if is_content_lacking(world, rel, item.content, known)? {
            return Ok(Some(Place::Item(item.prop)));
        }
    }
    Ok(None)
}

/// Whether the value of one of the expressions is null or invalid.
fn is_any_lacking(
    world: &World<'_, '_>,
    rel: &Rel,
    args: &[Typed],
    known: &mut NumberedKnown,
) -> Result<bool, NoMemory>
    ensures value { IfOk result (λ b. b ≡ any_lacks world.now.program.now world.now.models.now rel.now known.old args.now) }
    ensures kept { OnOk result (known.new ≡ known.old) }
{
    for arg in args {
        if is_lacking(world, rel, arg, known)? {
            return Ok(true);
        }
    }
    Ok(false)
}

/// Whether a condition isn't true.
fn is_condition_unmet(
    world: &World<'_, '_>,
    e: &Typed,
    known: &mut NumberedKnown,
) -> Result<bool, NoMemory>
    ensures value { IfOk result (λ b. b ≡ not (is_known_true (boolean_of (value world.now.program.now world.now.models.now e.now known.old.scope)))) }
    ensures kept { OnOk result (known.new ≡ known.old) }
{
    let out = eval_in(
        world.alloc,
        world.program,
        e,
        world.models,
        &mut known.scope,
    )?;
    match boolean_of(&out) {
        Some(b) => Ok(!b),
        None => Ok(true),
    }
}

/// Whether an equation lacks its value.
fn is_equation_unmet(
    world: &World<'_, '_>,
    e: &Typed,
    known: &mut NumberedKnown,
) -> Result<bool, NoMemory>
    ensures value { IfOk result (λ b. b ≡ is_none (datum_of (value world.now.program.now world.now.models.now e.now known.old.scope))) }
    ensures kept { OnOk result (known.new ≡ known.old) }
{
    let out = eval_in(
        world.alloc,
        world.program,
        e,
        world.models,
        &mut known.scope,
    )?;
    Ok(datum_of(&out).is_none())
}

/// Whether a condition isn't true, or an equation or an argument lacks its value.
fn is_conjunct_unmet(
    world: &World<'_, '_>,
    rel: &Rel,
    conjunct: &Conj,
    known: &mut NumberedKnown,
) -> Result<bool, NoMemory>
    ensures value { IfOk result (λ b. b ≡ fails world.now.program.now world.now.models.now rel.now known.old conjunct.now) }
    ensures kept { OnOk result (known.new ≡ known.old) }
{
    match conjunct {
        Conj::Cond(e) => is_condition_unmet(world, e, known),
        Conj::Equation(_, e) => is_equation_unmet(world, e, known),
        Conj::Call(_, args) => is_any_lacking(world, rel, args.as_slice(), known),
    }
}

/// The first conjunct that is unmet.
fn unmet_conjunct(
    world: &World<'_, '_>,
    rel: &Rel,
    known: &mut NumberedKnown,
) -> Result<Option<Place>, NoMemory>
    requires { length rel.now.wheres < 2 ^ 32 }
    ensures value { IfOk result (λ p. p ≡ unmet_conjunct world.now.program.now world.now.models.now rel.now known.old 0 rel.now.wheres) }
    ensures kept { OnOk result (known.new ≡ known.old) }
{
    let conjuncts = rel.wheres.as_slice();
    for i in 0..conjuncts.len() {
        if is_conjunct_unmet(world, rel, &conjuncts[i], known)? {
            return Ok(Some(Place::Where((i + 1) as u32)));
        }
    }
    Ok(None)
}

/// The first place in the order of the text at which the entry is unmet, if it is. What is known of it stays, but for want of memory.
///
/// # Errors
///
/// `NoMemory` where memory runs out.
pub fn unmet_place(
    alloc: Global,
    program: &Program,
    models: &Models<'_>,
    recipe: &Recipe<'_>,
    known: &mut NumberedKnown,
) -> Result<Option<Place>, NoMemory>
    requires recipe { IsRecipe program.now (target_metamodel program.now models.now) recipe.now.rel.now recipe.now }
    requires short { length recipe.now.rel.now.wheres < 2 ^ 32 }
    ensures place { IfOk result (λ p. (terms : List Term) → p ≡ unmet_at program.now models.now recipe.now.rel.now (known_of terms known.old)) }
    ensures kept { OnOk result (known.new ≡ known.old) }
{
    let world = World {
        alloc,
        program,
        models,
    };
    match unmet_item(&world, recipe.rel, recipe.items.as_slice(), known)? {
        Some(place) => Ok(Some(place)),
        None => unmet_conjunct(&world, recipe.rel, known),
    }
}
