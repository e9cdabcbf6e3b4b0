//! Laws on models as JSON, each the contract of a function that does nothing.
ghost use Rattle.std.specs.Prelude.{◌≡◌, None};
ghost use Rattle.mof_metamodel.specs.declared.desc.MetaDesc.{MetaDesc};
ghost use Rattle.object_tables.specs.Models.{ModelData};
ghost use Rattle.model_files.specs.CanonJson.{model_data};
ghost use Rattle.model_files.specs.JsonTrees.{NothingStands, HasFewObjects, ModelsAreSpelled, FaultsAreTold};
ghost use Rattle.model_files.specs.Shape.{first_amiss};

/// Where a value of JSON has no fault that is told by its place, none stands at a place in the tree of elements that writes the same.
pub(crate) fn no_place_has_a_fault()
    ensures { (meta : MetaDesc) → NothingStands meta }
{}

/// The tree has no more objects than a model may have, where the value hasn't.
pub(crate) fn trees_are_within_the_limit()
    ensures { (meta : MetaDesc) → HasFewObjects meta }
{}

/// The model of the tree is that of the value.
pub(crate) fn trees_spell_models()
    ensures { (meta : MetaDesc) → ModelsAreSpelled meta }
{}

/// The first fault of the tree is the one that is told of the value.
pub(crate) fn trees_tell_faults()
    ensures { (meta : MetaDesc) → FaultsAreTold meta }
{}

/// The value of JSON that a model is has the form of a model.
pub(crate) fn written_models_have_the_form()
    ensures { (m : ModelData) → first_amiss (model_data m) ≡ None }
{}
