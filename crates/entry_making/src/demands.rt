//! What the items of the target template demand for an entry.
ghost use Rattle.std.specs.Prelude.{◌≡◌, ℕ, List, ◌++◌, map, slice_index_or, None, IfOk, OnOk};
ghost use Rattle.std.specs.Option.{option_and_then, option_to_list};
ghost use Rattle.repair_semantics.specs.declared.term.Term.{Term};
ghost use Rattle.repair_semantics.specs.TargetItems.{target_items, target_metamodel};
ghost use Rattle.repair_semantics.specs.Demands.{item_demands};
ghost use Rattle.entry_making.specs.Items.{shown_item};
ghost use Rattle.entry_making.specs.Numbered.{known_of};
ghost use Rattle.entry_making.specs.DemandNumbers.{term_number, owner_demand, number_demand, number_demands, demand_of};
ghost use Rattle.entry_making.specs.Recipes.{IsRecipe};

use crate::content::OwnedItem;
use crate::item_demand::ItemDemand;
use crate::keys::content_origin;
use crate::numbered_known::NumberedKnown;
use crate::recipe::Recipe;
use crate::values::origin_value;
use crate::world::World;
use mof_metamodel::{NoMemory, Seq};
use ocl_eval::Models;
use qv_syntax::Program;
use std::alloc::Global;
use term_table::NumberedValue;

/// The number of the term that a value is, if it is one.
fn term_number(value: &Option<NumberedValue>) -> Option<usize>
    ensures { result ≡ option_and_then term_number value.now }
{
    match value {
        Some(value) => match value {
            NumberedValue::Term(number) => Some(*number),
            NumberedValue::Val(_) => None,
        },
        None => None,
    }
}

/// The number of the term that a variable has.
fn owner_number(values: &[Option<NumberedValue>], variable: u32) -> Option<usize>
    ensures { result ≡ option_and_then term_number (slice_index_or values.now variable None) }
{
    let place = variable as usize;
    if place < values.len() {
        term_number(&values[place])
    } else {
        None
    }
}

/// Puts what an item demands of its owner behind other demands, if it has a value.
fn push_demand(
    world: &World<'_, '_>,
    item: &OwnedItem<'_>,
    owner: usize,
    known: &mut NumberedKnown,
    out: &mut Seq<ItemDemand>,
) -> Result<(), NoMemory>
    ensures demand { OnOk result (out.new ≡ out.old ++ option_to_list (owner_demand world.now.program.now world.now.models.now known.old (shown_item item.now) owner)) }
    ensures kept { OnOk result (known.new ≡ known.old) }
{
    let origin = content_origin(item.content);
    match origin_value(world, origin, known.values.as_slice(), &mut known.scope)? {
        Some(value) => out.push(ItemDemand {
            owner,
            prop: item.prop,
            value,
        }),
        None => Ok(()),
    }
}

/// Puts what an item demands behind other demands: that the object of its template has its value.
fn put_demand(
    world: &World<'_, '_>,
    item: &OwnedItem<'_>,
    known: &mut NumberedKnown,
    out: &mut Seq<ItemDemand>,
) -> Result<(), NoMemory>
    ensures demand { OnOk result (out.new ≡ out.old ++ option_to_list (number_demand world.now.program.now world.now.models.now known.old (shown_item item.now))) }
    ensures kept { OnOk result (known.new ≡ known.old) }
{
    match owner_number(known.values.as_slice(), item.owner) {
        Some(owner) => push_demand(world, item, owner, known, out),
        None => Ok(()),
    }
}

/// What the items of the target template demand for an entry, in the order of the text. What is known of it stays, but for want of
/// memory.
///
/// # Errors
///
/// `NoMemory` where memory runs out.
pub fn demands_made(
    alloc: Global,
    program: &Program,
    models: &Models<'_>,
    recipe: &Recipe<'_>,
    known: &mut NumberedKnown,
) -> Result<Seq<ItemDemand>, NoMemory>
    requires recipe { IsRecipe program.now (target_metamodel program.now models.now) recipe.now.rel.now recipe.now }
    ensures demands { IfOk result (λ ds. (terms : List Term) (entry : ℕ) → map (demand_of terms entry) ds ≡ item_demands program.now models.now (known_of terms known.old) entry (target_items program.now recipe.now.rel.now)) }
    ensures kept { OnOk result (known.new ≡ known.old) }
{
    let world = World {
        alloc,
        program,
        models,
    };
    put_demands(&world, recipe.items.as_slice(), known)
}

/// What items demand, in their order.
fn put_demands(
    world: &World<'_, '_>,
    items: &[OwnedItem<'_>],
    known: &mut NumberedKnown,
) -> Result<Seq<ItemDemand>, NoMemory>
    ensures demands { IfOk result (λ ds. ds ≡ number_demands world.now.program.now world.now.models.now known.old (map shown_item items.now)) }
    ensures kept { OnOk result (known.new ≡ known.old) }
{
    let mut out = Seq::new(world.alloc);
    for item in items {
        put_demand(world, item, known, &mut out)?;
    }
    Ok(out)
}
