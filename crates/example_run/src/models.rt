//! The models of the example.
ghost use Rattle.std.specs.Prelude.{◌≡◌, ◌≤◌, [], ◌∷◌, IfOk};
ghost use Rattle.object_tables.specs.Models.{live_count};
ghost use Rattle.example_models.specs.declared.limits.TheConstants.{MAX_SOURCE_CLASSES};
ghost use Rattle.example_models.specs.RdbTable.{rdb_desc};
ghost use Rattle.example_models.specs.Source.{attributes_before, source_count};
ghost use Rattle.example_laws.specs.ExampleModels.{empty_target};

use mof_metamodel::{MetaModel, NoMemory, or_drop};
use object_tables::Model;
use ocl_eval::Models;
use std::alloc::Global;

/// How many classes the source of an example has, and its seed.
#[derive(Clone, Copy)]
pub(crate) struct Size {
    pub(crate) classes: u32,
    pub(crate) seed: u32,
}

/// How many attributes the classes of a source have: its objects that are neither packages nor classes.
pub(crate) fn attribute_count(source: &Model<'_>, size: Size) -> u32
    requires classes { size.classes ≤ MAX_SOURCE_CLASSES }
    requires count { live_count source.now ≡ source_count size.classes size.seed }
    ensures { result ≡ attributes_before size.seed size.classes }
{
    source.len() - (size.classes + 99) / 100 - size.classes
}

/// The source and the empty target.
pub(crate) fn first_models<'m>(
    alloc: Global,
    source: Model<'m>,
    rdb: &'m MetaModel,
) -> Result<Models<'m>, NoMemory>
    requires { rdb.now ≡ rdb_desc }
    ensures { IfOk result (λ models. models ≡ source.entry ∷ empty_target ∷ []) }
{
    let mut models = Models::new(alloc);
    or_drop!(models.push(source); models);
    or_drop!(models.push(Model::new(alloc, rdb)); models);
    Ok(models)
}
