ghost use Rattle.std.specs.Prelude.{IfOk};
ghost use Rattle.entry_making.specs.Orderable.{IsOrderable};
ghost use Rattle.entry_making.specs.Recipes.{IsRecipe};

use crate::content::OwnedItem;
use crate::equations::equations_of;
use crate::items::target_items;
use crate::keyed::{Making, keyed_of};
use crate::origin::{Equation, Keyed};
use mof_metamodel::{MetaModel, NoMemory, Seq};
use qv_syntax::{Program, Rel};
use std::alloc::Global;

/// What is found once for a relation, so that what its entries make is computed without a search.
#[derive(Drop)]
pub struct Recipe<'p> {
    pub rel: &'p Rel,
    /// The items of its target template, in the order of the text.
    pub items: Seq<OwnedItem<'p>>,
    /// Its equations, each behind those whose variables it names.
    pub(crate) equations: Seq<Equation<'p>>,
    /// The variables for which it makes terms, each behind those that stand in its key values.
    pub(crate) keyed: Seq<Keyed<'p>>,
}

/// The recipe of a relation, towards a target of this metamodel.
///
/// # Errors
///
/// `NoMemory` where memory runs out.
pub fn recipe_of<'p>(
    alloc: Global,
    program: &'p Program,
    meta: &MetaModel,
    rel: &'p Rel,
) -> Result<Recipe<'p>, NoMemory>
    requires { IsOrderable program.now meta.now rel.now }
    ensures { IfOk result (IsRecipe program.now meta.now rel.now) }
{
    let items = target_items(alloc, program, rel)?;
    let keyed = keyed_of(&Making {
        alloc,
        program,
        meta,
        rel,
        items: items.as_slice(),
    })?;
    let equations = equations_of(alloc, rel)?;
    Ok(Recipe {
        rel,
        items,
        equations,
        keyed,
    })
}
