//! Objects with a name, that are parts of others.
ghost use Rattle.std.specs.Prelude.{◌≡◌, ◌<◌, IsTrue, IfOk, OnOk, length};
ghost use Rattle.mof_metamodel.specs.Characters.{is_identifier_text};
ghost use Rattle.mof_metamodel.specs.Metamodels.{class_count, type_of};
ghost use Rattle.object_tables.specs.Models.{IsAddable, IsAttributeOf, added, is_value_of};
ghost use Rattle.example_models.specs.Growing.{with_text, with_part};
ghost use Rattle.example_models.specs.Parts.{IsPart};

use mof_metamodel::{ClassId, NoMemory, PropId, Seq, Text};
use object_tables::{AddFault, Model, ObjId, Value};
use std::alloc::Global;

/// An object to be added: with a name, with another text at an attribute, and with a container, to which a
/// reference leads.
#[derive(Drop)]
pub(crate) struct Part {
    pub(crate) class: ClassId,
    pub(crate) id: Text,
    pub(crate) name: Text,
    pub(crate) attribute: PropId,
    pub(crate) text: Text,
    pub(crate) reference: PropId,
    pub(crate) container: ObjId,
}

/// Adds an object that can be added.
pub(crate) fn add_object(model: &mut Model<'_>, class: ClassId, id: Text) -> Result<ObjId, NoMemory>
    requires class { class.0 < class_count model.old.meta }
    requires identifier { IsTrue (is_identifier_text id) }
    requires addable { IsAddable model.old class.0 id }
    ensures { IfOk result (λ o. (o.0 ≡ length model.old.objects) × (model.new ≡ added model.old class.0 id)) }
{
    match model.add(class, id) {
        Ok(object) => Ok(object),
        Err(AddFault::NoMemory) => Err(NoMemory),
        Err(_) => unreachable!(),
    }
}

/// Puts one text at an attribute of an object.
pub(crate) fn set_text(
    alloc: Global,
    model: &mut Model<'_>,
    object: ObjId,
    attribute: PropId,
    text: Text,
) -> Result<(), NoMemory>
    requires attribute { IsAttributeOf model.old object.0 attribute.0 }
    requires text { IsTrue (is_value_of model.old.meta (type_of model.old.meta attribute.0) (Value.Str text)) }
    ensures { OnOk result (model.new ≡ with_text model.old object.0 attribute.0 text) }
{
    let mut values = Seq::new(alloc);
    values.push(Value::Str(text))?;
    model.set_attr(object, attribute, values);
    Ok(())
}

/// Adds an object with its name, its other text and its container.
pub(crate) fn add_part(alloc: Global, model: &mut Model<'_>, part: Part) -> Result<ObjId, NoMemory>
    requires part { IsPart model.old part }
    requires addable { IsAddable model.old part.class.0 part.id }
    ensures { IfOk result (λ o. (o.0 ≡ length model.old.objects) × (model.new ≡ with_part model.old part)) }
{
    let Part {
        class,
        id,
        name,
        attribute,
        text,
        reference,
        container,
    } = part;
    // What every model keeps is known here.
    let _ = model.end();
    let object = add_object(model, class, id)?;
    set_text(alloc, model, object, PropId(0), name)?;
    set_text(alloc, model, object, attribute, text)?;
    model.link(reference, object, container)?;
    Ok(object)
}
