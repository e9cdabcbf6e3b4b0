//! The metamodels and models of a check by their numbers: they are read in the order of the words, and numbered in the order of the script.
ghost use Rattle.std.specs.Prelude.{◌≡◌, ◌≢◌, ℕ, List, true, is_some, All, IfOk, MatchOption};
ghost use Rattle.ocl_environments.specs.Environments.{no_meta};
ghost use Rattle.script_scopes.specs.Declarations.{IsRepeated};
ghost use Rattle.script_scopes.specs.ScriptNames.{model_names};
ghost use Rattle.qvtr_engine.specs.CheckedModels.{no_model};
ghost use Rattle.qvtr_engine.specs.FoundFiles.{item_named, items_named, StandsAt};

use mof_metamodel::{MetaModel, NoMemory, Text, or_drop};
use object_tables::Model;
use ocl_environments::Metas;
use ocl_eval::Models;
use qv_syntax::ModelTree;
use script_scopes::is_name;
use std::alloc::Global;

/// What the file of a name is.
#[derive(Drop)]
pub(crate) struct Found<'w, T> {
    pub name: &'w str,
    pub item: T,
}

/// Where what has a name stands, the first one.
fn place_of<T>(found: &[Found<'_, T>], name: &Text) -> Option<usize>
    ensures { MatchOption result (item_named found.now name.now ≡ None) (StandsAt found.now name.now) }
{
    for (i, file) in found.iter().enumerate() {
        if is_name(name, file.name) {
            return Some(i);
        }
    }
    None
}

/// Takes out what has a name, the first one.
fn take_named<T: Drop>(found: &mut Vec<Found<'_, T>>, name: &Text) -> Option<T>
    ensures item { result ≡ item_named found.old.items name.now }
    ensures others { (other : List ℕ) → other ≢ name.now → item_named found.new.items other ≡ item_named found.old.items other }
{
    match place_of(found, name) {
        Some(i) => Some(found.remove(i).item),
        None => None,
    }
}

/// The metamodels of a script by their numbers: in the order of these names.
pub(crate) fn number_metas(
    alloc: Global,
    names: &[Text],
    mut found: Vec<Found<'_, MetaModel>>,
) -> Result<Metas, NoMemory>
    requires distinct { (name : List ℕ) → ¬ IsRepeated names.now name }
    requires each { All (λ name. is_some (item_named found.items name) ≡ true) names.now }
    ensures { IfOk result (λ metas. metas ≡ items_named no_meta found.entry.items names.now) }
{
    let mut metas = Metas::new(alloc);
    for name in names {
        match take_named(&mut found, name) {
            Some(meta) => metas.push(meta)?,
            None => unreachable!(),
        }
    }
    Ok(metas)
}

/// The models of a script in its order.
fn models_in_order<'m>(
    alloc: Global,
    models: &[ModelTree],
    mut found: Vec<Found<'_, Model<'m>>>,
) -> Result<Models<'m>, NoMemory>
    requires distinct { (name : List ℕ) → ¬ IsRepeated (model_names models.now) name }
    requires each { All (λ name. is_some (item_named found.items name) ≡ true) (model_names models.now) }
    ensures { IfOk result (λ numbered. numbered ≡ items_named no_model found.entry.items (model_names models.now)) }
{
    let mut numbered = Models::new(alloc);
    for model in models {
        match take_named(&mut found, &model.name.text) {
            Some(item) => numbered.push(item)?,
            None => unreachable!(),
        }
    }
    Ok(numbered)
}

/// The models of a script by their numbers: in the order of the script. Each has an index of the values that its
/// objects hold.
pub(crate) fn number_models<'m>(
    alloc: Global,
    models: &[ModelTree],
    found: Vec<Found<'_, Model<'m>>>,
) -> Result<Models<'m>, NoMemory>
    requires distinct { (name : List ℕ) → ¬ IsRepeated (model_names models.now) name }
    requires each { All (λ name. is_some (item_named found.items name) ≡ true) (model_names models.now) }
    ensures { IfOk result (λ numbered. numbered ≡ items_named no_model found.entry.items (model_names models.now)) }
{
    let mut numbered = models_in_order(alloc, models, found)?;
    or_drop!(numbered.index(); numbered);
    Ok(numbered)
}
