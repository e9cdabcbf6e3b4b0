ghost use Rattle.std.specs.Prelude.{◌≡◌, ◌<◌, IfOk, OnOk, IsTrue};
ghost use Rattle.mof_metamodel.specs.Characters.{is_identifier_text};
ghost use Rattle.mof_metamodel.specs.Metamodels.{class_count};
ghost use Rattle.object_tables.specs.Models.{IsAddable, added};
ghost use Rattle.object_tables.specs.AddFaults.{IsAddFault};
ghost use Rattle.object_tables.specs.Models.{ModelData};
ghost use Rattle.model_assembly.specs.AssemblyObjects.{AreObjects, bare_model};

use mof_metamodel::{ClassId, MetaModel, NoMemory, Text};
use object_tables::{AddFault, HashKey, Model};
use std::alloc::Global;

/// Why an object is not added that may be added: want of memory.
fn want_of_memory(fault: AddFault) -> NoMemory
    requires { fault ≡ AddFault.NoMemory }
{
    match fault {
        AddFault::NoMemory => NoMemory,
        _ => unreachable!(),
    }
}

/// Adds an object that may be added.
fn add(model: &mut Model<'_>, class: ClassId, id: Text) -> Result<(), NoMemory>
    requires class { class.0 < class_count model.old.meta }
    requires identifier { IsTrue (is_identifier_text id) }
    requires addable { IsAddable model.old class.0 id }
    ensures { OnOk result (model.new ≡ added model.old class.0 id) }
{
    match model.add(class, id) {
        Ok(_) => Ok(()),
        Err(fault) => Err(want_of_memory(fault)),
    }
}

/// What the identifiers of a file are hashed after: all of them, so that none can be made that collide.
fn key_of(ids: &[Text]) -> HashKey {
    let mut key = HashKey::none();
    for id in ids {
        key = key.after_text(id.as_str());
    }
    key
}

/// The objects of a file, without values and links, in the order of their numbers.
pub(super) fn bare_model<'m>(
    alloc: Global,
    meta: &'m MetaModel,
    classes: &[ClassId],
    ids: &[Text],
) -> Result<Model<'m>, NoMemory>
    requires { AreObjects meta.now classes.now ids.now }
    ensures { IfOk result (λ m. m ≡ bare_model meta.now classes.now ids.now) }
{
    let mut model = Model::keyed(alloc, meta, key_of(ids));
    for (o, id) in ids.iter().enumerate() {
        add(&mut model, classes[o], id.duplicate(alloc)?)?;
    }
    Ok(model)
}
