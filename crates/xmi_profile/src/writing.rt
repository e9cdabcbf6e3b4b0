ghost use Rattle.std.specs.Prelude.{◌≡◌, ◌≤◌, ℕ, IfOk, OnOk, IsTrue};
ghost use Rattle.std.specs.List.{flat_map};
ghost use Rattle.object_tables.specs.Models.{IsLive};
ghost use Rattle.object_tables.specs.Containment.{IsDepth};
ghost use Rattle.object_tables.specs.Validity.{Valid};
ghost use Rattle.xmi_text.specs.Calls.{wrote};
ghost use Rattle.model_assembly.specs.Profile as profile;
ghost use Rattle.xmi_profile.specs.Canon as canon;
ghost use Rattle.xmi_profile.specs.Writable.{CanWrite, calls_at, is_top_object};

mod lines;
mod objects;
mod tags;
mod values;
mod words;

use crate::writing::lines::{write_foot, write_head};
use crate::writing::objects::write_object;
use crate::writing::tags::typed_name;
use mof_metamodel::{NoMemory, Seq};
use object_tables::{MAX_DEPTH, Model, ObjId};
use std::alloc::Global;
use xmi_text::Writer;

/// The canonical text of a model (XMI 2.5.1, clause 9), which is valid and no deeper than `MAX_DEPTH`: two lines of head, each
/// object's element with its identifier, its class and then its properties in class order, top objects by number and contained
/// ones in their container, and a line of foot. In time linear in the text and in the properties of the objects.
pub fn write_model(alloc: Global, model: &Model<'_>) -> Result<Seq<u8>, NoMemory>
    requires valid { Valid model.now }
    requires depth { (o depth : ℕ) → IsLive model.now o → IsDepth model.now o depth → depth ≤ MAX_DEPTH }
    ensures { IfOk result (λ bytes. bytes ≡ canon.canon_bytes model.now) }
{
    let mut writer = Writer::new(alloc);
    write_head(&mut writer, model.meta())?;
    write_tops(alloc, &mut writer, model)?;
    write_foot(&mut writer)?;
    Ok(writer.into_bytes())
}

/// Writes the top objects, by number.
fn write_tops(alloc: Global, writer: &mut Writer, model: &Model<'_>) -> Result<(), NoMemory>
    requires { CanWrite writer.old (flat_map (canon.top_calls model.now) (canon.top_numbers model.now)) }
    ensures { OnOk result (writer.new ≡ wrote writer.old (flat_map (canon.top_calls model.now) (canon.top_numbers model.now))) }
{
    let end = model.end();
    for o in 0..end {
        write_if_top(alloc, writer, model, ObjId(o))?;
    }
    Ok(())
}

/// Writes an object, if it is a top object.
fn write_if_top(
    alloc: Global,
    writer: &mut Writer,
    model: &Model<'_>,
    o: ObjId,
) -> Result<(), NoMemory>
    requires { CanWrite writer.old (calls_at model.now o.0) }
    ensures { OnOk result (writer.new ≡ wrote writer.old (calls_at model.now o.0)) }
{
    if is_top_object(model, o) {
        write_top(alloc, writer, model, o)
    } else {
        Ok(())
    }
}

/// Writes a top object.
fn write_top(
    alloc: Global,
    writer: &mut Writer,
    model: &Model<'_>,
    o: ObjId,
) -> Result<(), NoMemory>
    requires top { IsTrue (is_top_object model.now o.0) }
    requires can { CanWrite writer.old (canon.top_calls model.now o.0) }
    ensures { OnOk result (writer.new ≡ wrote writer.old (canon.top_calls model.now o.0)) }
{
    let name = typed_name(alloc, model, o)?;
    write_object(alloc, writer, model, MAX_DEPTH, name.as_str(), o)
}

/// Whether the number has an object, and nothing contains it.
fn is_top_object(model: &Model<'_>, o: ObjId) -> bool
    ensures { result ≡ is_top_object model.now o.0 }
{
    model.is_live(o) && !is_part(model, o)
}

/// Whether an object has a container.
fn is_part(model: &Model<'_>, o: ObjId) -> bool
    requires { IsLive model.now o.0 }
    ensures { result ≡ profile.is_part model.now o.0 }
{
    // What every model keeps is known here.
    let _ = model.end();
    match model.container(o) {
        Some(_) => true,
        None => false,
    }
}
