ghost use Rattle.std.specs.Prelude.{◌≡◌, chars, IfOk, OnOk};
ghost use Rattle.std.specs.List.{flat_map};
ghost use Rattle.object_tables.specs.Models.{IsLive, IsAttributeOf, IsReferenceOf, values_at, partners_at};
ghost use Rattle.object_tables.specs.Validity.{IsPropertyOf};
ghost use Rattle.xmi_text.specs.Calls.{wrote};
ghost use Rattle.model_assembly.specs.Profile as profile;
ghost use Rattle.xmi_profile.specs.Canon as canon;
ghost use Rattle.xmi_profile.specs.Writable.{CanWrite, AreLive, ids_of};

use crate::writing::values::{form_of, prop_name, value_text};
use crate::writing::words::{id_name, type_name, type_prefix};
use model_assembly::Form;
use mof_metamodel::{NoMemory, PropId, Text};
use object_tables::{Model, ObjId, Partners};
use std::alloc::Global;
use xmi_text::Writer;

/// The name of an object's class in the metamodel's namespace.
pub(super) fn typed_name(alloc: Global, model: &Model<'_>, o: ObjId) -> Result<Text, NoMemory>
    requires { IsLive model.now o.0 }
    ensures { IfOk result (λ name. name ≡ canon.typed_name model.now o.0) }
{
    let mut name = Text::new(alloc, type_prefix())?;
    name.push_str(model.meta().class_name(model.class_of(o)))?;
    Ok(name)
}

/// Writes the start tag of an object's element.
pub(super) fn write_tag(
    alloc: Global,
    writer: &mut Writer,
    model: &Model<'_>,
    element: &str,
    o: ObjId,
) -> Result<(), NoMemory>
    requires live { IsLive model.now o.0 }
    requires can { CanWrite writer.old (canon.tag_calls model.now (chars element.now) o.0) }
    ensures { OnOk result (writer.new ≡ wrote writer.old (canon.tag_calls model.now (chars element.now) o.0)) }
{
    writer.open(element)?;
    writer.attr(id_name(), model.id_of(o))?;
    let name = typed_name(alloc, model, o)?;
    writer.attr(type_name(), name.as_str())?;
    write_attrs(alloc, writer, model, o)
}

/// Writes what stands of an object's properties in its start tag.
pub(super) fn write_attrs(
    alloc: Global,
    writer: &mut Writer,
    model: &Model<'_>,
    o: ObjId,
) -> Result<(), NoMemory>
    requires live { IsLive model.now o.0 }
    requires can { CanWrite writer.old (flat_map (canon.attr_calls model.now o.0) (profile.object_props model.now o.0)) }
    ensures { OnOk result (writer.new ≡ wrote writer.old (flat_map (canon.attr_calls model.now o.0) (profile.object_props model.now o.0))) }
{
    let props = model.meta().props(model.class_of(o));
    for p in props {
        write_attr(alloc, writer, model, o, *p)?;
    }
    Ok(())
}

/// Writes what stands of a property in its object's start tag.
pub(super) fn write_attr(
    alloc: Global,
    writer: &mut Writer,
    model: &Model<'_>,
    o: ObjId,
    p: PropId,
) -> Result<(), NoMemory>
    requires property { IsPropertyOf model.now o.0 p.0 }
    requires can { CanWrite writer.old (canon.attr_calls model.now o.0 p.0) }
    ensures { OnOk result (writer.new ≡ wrote writer.old (canon.attr_calls model.now o.0 p.0)) }
{
    match form_of(model.meta(), p) {
        Form::Attribute => write_value(alloc, writer, model, o, p),
        Form::Identifiers => write_partners(alloc, writer, model, o, p),
        Form::Elements => Ok(()),
        Form::Parts => Ok(()),
        Form::Nesting => Ok(()),
    }
}

/// Writes an attribute's one value, if it has one.
pub(super) fn write_value(
    alloc: Global,
    writer: &mut Writer,
    model: &Model<'_>,
    o: ObjId,
    p: PropId,
) -> Result<(), NoMemory>
    requires attribute { IsAttributeOf model.now o.0 p.0 }
    requires can { CanWrite writer.old (canon.value_attr model.now.meta p.0 (values_at model.now o.0 p.0)) }
    ensures { OnOk result (writer.new ≡ wrote writer.old (canon.value_attr model.now.meta p.0 (values_at model.now o.0 p.0))) }
{
    // What every model keeps is known here.
    let _ = model.end();
    match model.attr(o, p).first() {
        Some(value) => {
            let text = value_text(alloc, model.meta(), value)?;
            writer.attr(prop_name(model.meta(), p), text.as_str())
        }
        None => Ok(()),
    }
}

/// Writes the identifiers of a reference's partners, if there are some.
pub(super) fn write_partners(
    alloc: Global,
    writer: &mut Writer,
    model: &Model<'_>,
    o: ObjId,
    p: PropId,
) -> Result<(), NoMemory>
    requires reference { IsReferenceOf model.now o.0 p.0 }
    requires can { CanWrite writer.old (canon.partners_attr model.now p.0 (partners_at model.now o.0 p.0)) }
    ensures { OnOk result (writer.new ≡ wrote writer.old (canon.partners_attr model.now p.0 (partners_at model.now o.0 p.0))) }
{
    let mut partners = model.partners(o, p);
    match partners.next() {
        Some(first) => {
            let text = identifiers(alloc, model, first, partners)?;
            writer.attr(prop_name(model.meta(), p), text.as_str())
        }
        None => Ok(()),
    }
}

/// The identifiers of objects, with one space between.
pub(super) fn identifiers(
    alloc: Global,
    model: &Model<'_>,
    first: ObjId,
    others: Partners<'_>,
) -> Result<Text, NoMemory>
    requires first { IsLive model.now first.0 }
    requires others { AreLive model.now others }
    ensures { IfOk result (λ text. text ≡ canon.spaced_behind (profile.id_text model.now first.0) (ids_of model.now others.entry)) }
{
    let mut left = others;
    let mut text = Text::new(alloc, model.id_of(first))?;
    while let Some(b) = left.next() {
        text.push(' ')?;
        text.push_str(model.id_of(b))?;
    }
    Ok(text)
}
