ghost use Rattle.std.specs.Prelude.{◌≡◌, ◌≤◌, ◌||◌, ◌==◌, not, chars, IfOk, OnOk};
ghost use Rattle.object_tables.specs.Models.{IsLive, IsAttributeOf, IsReferenceOf};
ghost use Rattle.object_tables.specs.Validity.{IsPropertyOf};
ghost use Rattle.xmi_text.specs.Calls.{wrote};
ghost use Rattle.xmi_profile.specs.Canon as canon;
ghost use Rattle.xmi_profile.specs.Writable.{CanWrite, has_some, children_calls, calls_of, value_elements, part_elements};

use crate::writing::lines::{write_each, write_end};
use crate::writing::tags::write_tag;
use crate::writing::values::{form_of, prop_name};
use model_assembly::Form;
use mof_metamodel::{NoMemory, PropId};
use object_tables::{MAX_DEPTH, Model, ObjId};
use std::alloc::Global;
use xmi_text::Writer;

/// Writes an object's element, in which objects may nest so many levels deep.
#[cycle(objects)]
pub(super) fn write_object(
    alloc: Global,
    writer: &mut Writer,
    model: &Model<'_>,
    levels: u32,
    element: &str,
    o: ObjId,
) -> Result<(), NoMemory>
    requires live { IsLive model.now o.0 }
    requires levels { levels ≤ MAX_DEPTH }
    requires can { CanWrite writer.old (canon.object_calls model.now levels (chars element.now) o.0) }
    ensures { OnOk result (writer.new ≡ wrote writer.old (canon.object_calls model.now levels (chars element.now) o.0)) }
{
    if levels == 0 {
        return Ok(());
    }
    let inner = levels - 1;
    let depth = (MAX_DEPTH - inner) as usize;
    writer.line(depth)?;
    write_tag(alloc, writer, model, element, o)?;
    let some = write_children(alloc, writer, model, inner, o)?;
    write_end(writer, depth, some)
}

/// Writes the elements of an object's children, in which objects may nest so many levels deep. Whether there are some.
#[cycle(objects)]
pub(super) fn write_children(
    alloc: Global,
    writer: &mut Writer,
    model: &Model<'_>,
    levels: u32,
    o: ObjId,
) -> Result<bool, NoMemory>
    requires live { IsLive model.now o.0 }
    requires levels { levels ≤ MAX_DEPTH }
    requires can { CanWrite writer.old (children_calls model.now levels o.0) }
    ensures ok { OnOk result (writer.new ≡ wrote writer.old (children_calls model.now levels o.0)) }
    ensures some { IfOk result (λ some. some ≡ has_some (children_calls model.now levels o.0)) }
{
    let props = model.meta().props(model.class_of(o));
    let mut some = false;
    for p in props {
        let more = write_child(alloc, writer, model, levels, (o, *p))?;
        some = is_either(some, more);
    }
    Ok(some)
}

/// Writes the elements of the children at a property. Whether there are some.
#[cycle(objects)]
pub(super) fn write_child(
    alloc: Global,
    writer: &mut Writer,
    model: &Model<'_>,
    levels: u32,
    at: (ObjId, PropId),
) -> Result<bool, NoMemory>
    requires property { IsPropertyOf model.now at.0.0 at.1.0 }
    requires levels { levels ≤ MAX_DEPTH }
    requires can { CanWrite writer.old (calls_of model.now levels at.0.0 at.1.0) }
    ensures ok { OnOk result (writer.new ≡ wrote writer.old (calls_of model.now levels at.0.0 at.1.0)) }
    ensures some { IfOk result (λ some. some ≡ has_some (calls_of model.now levels at.0.0 at.1.0)) }
{
    match form_of(model.meta(), at.1) {
        Form::Elements => write_values(alloc, writer, model, (MAX_DEPTH - levels) as usize + 1, at),
        Form::Parts => write_parts(alloc, writer, model, levels, at),
        Form::Attribute => Ok(false),
        Form::Identifiers => Ok(false),
        Form::Nesting => Ok(false),
    }
}

/// Writes each value of an attribute as an element. Whether there are some.
fn write_values(
    alloc: Global,
    writer: &mut Writer,
    model: &Model<'_>,
    depth: usize,
    at: (ObjId, PropId),
) -> Result<bool, NoMemory>
    requires attribute { IsAttributeOf model.now at.0.0 at.1.0 }
    requires can { CanWrite writer.old (value_elements model.now depth at.0.0 at.1.0) }
    ensures ok { OnOk result (writer.new ≡ wrote writer.old (value_elements model.now depth at.0.0 at.1.0)) }
    ensures some { IfOk result (λ some. some ≡ has_some (value_elements model.now depth at.0.0 at.1.0)) }
{
    // What every model keeps is known here.
    let _ = model.end();
    let name = prop_name(model.meta(), at.1);
    let values = model.attr(at.0, at.1);
    write_each(alloc, writer, model.meta(), depth, name, values)?;
    Ok(!values.is_empty())
}

/// Writes the elements of contained objects. Whether there are some.
#[cycle(objects)]
pub(super) fn write_parts(
    alloc: Global,
    writer: &mut Writer,
    model: &Model<'_>,
    levels: u32,
    at: (ObjId, PropId),
) -> Result<bool, NoMemory>
    requires reference { IsReferenceOf model.now at.0.0 at.1.0 }
    requires levels { levels ≤ MAX_DEPTH }
    requires can { CanWrite writer.old (part_elements model.now levels at.0.0 at.1.0) }
    ensures ok { OnOk result (writer.new ≡ wrote writer.old (part_elements model.now levels at.0.0 at.1.0)) }
    ensures some { IfOk result (λ some. some ≡ has_some (part_elements model.now levels at.0.0 at.1.0)) }
{
    let name = prop_name(model.meta(), at.1);
    let mut left = model.partners(at.0, at.1);
    let mut some = false;
    while let Some(b) = left.next() {
        write_object(alloc, writer, model, levels, name, b)?;
        some = is_either(some, has_levels(levels));
    }
    Ok(some)
}

/// Whether one of two things holds.
fn is_either(one: bool, other: bool) -> bool
    ensures { result ≡ (one || other) }
{
    one || other
}

/// Whether objects may nest deeper.
fn has_levels(levels: u32) -> bool
    ensures { result ≡ not (levels == 0) }
{
    levels != 0
}
