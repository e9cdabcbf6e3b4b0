ghost use Rattle.std.specs.Prelude.{◌≡◌, chars, OnOk, All};
ghost use Rattle.std.specs.List.{flat_map};
ghost use Rattle.xmi_text.specs.Calls.{wrote};
ghost use Rattle.xmi_profile.specs.Canon as canon;
ghost use Rattle.xmi_profile.specs.Writable.{CanWrite, end_calls, text_value, IsTold};

use crate::writing::values::value_text;
use crate::writing::words::{
    document_name, namespace, namespace_name, prefix_name, version, version_name,
};
use mof_metamodel::{MetaModel, NoMemory};
use object_tables::Value;
use std::alloc::Global;
use xmi_text::Writer;

/// Writes the two lines of the head.
pub(super) fn write_head(writer: &mut Writer, meta: &MetaModel) -> Result<(), NoMemory>
    requires { CanWrite writer.old (canon.head meta.now) }
    ensures { OnOk result (writer.new ≡ wrote writer.old (canon.head meta.now)) }
{
    writer.declare()?;
    writer.line(0)?;
    writer.open(document_name())?;
    writer.attr(version_name(), version())?;
    writer.attr(namespace_name(), namespace())?;
    writer.attr(prefix_name(), meta.name())
}

/// Writes the line of the foot.
pub(super) fn write_foot(writer: &mut Writer) -> Result<(), NoMemory>
    requires { CanWrite writer.old canon.foot }
    ensures { OnOk result (writer.new ≡ wrote writer.old canon.foot) }
{
    writer.line(0)?;
    writer.close()?;
    writer.line(0)
}

/// Writes the end of an element that has children, or none.
pub(super) fn write_end(writer: &mut Writer, depth: usize, some: bool) -> Result<(), NoMemory>
    requires { CanWrite writer.old (end_calls depth some) }
    ensures { OnOk result (writer.new ≡ wrote writer.old (end_calls depth some)) }
{
    if some {
        writer.line(depth)?;
    }
    writer.close()
}

/// Writes a value as an element.
fn write_element(
    alloc: Global,
    writer: &mut Writer,
    meta: &MetaModel,
    depth: usize,
    name: &str,
    value: &Value,
) -> Result<(), NoMemory>
    requires told { IsTold meta.now value.now }
    requires can { CanWrite writer.old (text_value meta.now depth (chars name.now) value.now) }
    ensures { OnOk result (writer.new ≡ wrote writer.old (text_value meta.now depth (chars name.now) value.now)) }
{
    writer.line(depth)?;
    writer.open(name)?;
    let text = value_text(alloc, meta, value)?;
    writer.data(text.as_str())?;
    writer.close()
}

/// Writes each value as an element.
pub(super) fn write_each(
    alloc: Global,
    writer: &mut Writer,
    meta: &MetaModel,
    depth: usize,
    name: &str,
    values: &[Value],
) -> Result<(), NoMemory>
    requires told { All (IsTold meta.now) values.now }
    requires can { CanWrite writer.old (flat_map (text_value meta.now depth (chars name.now)) values.now) }
    ensures { OnOk result (writer.new ≡ wrote writer.old (flat_map (text_value meta.now depth (chars name.now)) values.now)) }
{
    for value in values {
        write_element(alloc, writer, meta, depth, name, value)?;
    }
    Ok(())
}
