//! A file as a value of JSON, and its objects.
ghost use Rattle.std.specs.Prelude.{◌≡◌, map, None, Some, IfOk, IfErr};
ghost use Rattle.std.specs.Option.{option_map};
ghost use Rattle.serde_json.specs.View.{view, items_view};
ghost use Rattle.model_files.specs.JsonContent.{items_list, in_list, written_of, objects_of};
ghost use Rattle.model_files.specs.JsonText.{without_mark, in_utf8, value_in};
ghost use Rattle.model_files.specs.JsonFaults.{HasShape, HasObjects, IsUnshaped, IsJsonError, first_fault};

use crate::fault::{FileError, JsonFault};
use crate::json_faults::first_wrong;
use crate::shape::first_amiss;
use model_assembly::ModelFault;
use mof_metamodel::{MetaModel, NoMemory, or_drop};
use object_tables::{LimitKind, MAX_OBJECTS};
use serde_json::Value;
use std::alloc::Global;

/// The bytes behind a byte order mark.
pub(crate) fn without_mark(bytes: &[u8]) -> &[u8]
    ensures { result.now ≡ without_mark bytes.now }
{
    match bytes.strip_prefix(b"\xef\xbb\xbf") {
        Some(rest) => rest,
        None => bytes,
    }
}

/// The text that bytes are.
fn in_utf8(bytes: &[u8]) -> Option<&str>
    ensures { option_map (λ s. s.now) result ≡ in_utf8 bytes.now }
{
    match str::from_utf8(bytes) {
        Ok(text) => Some(text),
        Err(_) => None,
    }
}

/// The value of JSON that a file is.
fn value_in(alloc: Global, bytes: &[u8]) -> Result<Value, FileError>
    ensures ok { IfOk result (λ v. value_in bytes.now ≡ Some (view v)) }
    ensures fault { IfErr result (IsUnshaped bytes.now) }
{
    let Some(text) = in_utf8(without_mark(bytes)) else {
        return Err(FileError::Json(JsonFault::Syntax));
    };
    match Value::from_str(alloc, text) {
        Ok(value) => Ok(value),
        Err(error) => {
            if error.is_memory() {
                Err(FileError::NoMemory)
            } else {
                Err(FileError::Json(JsonFault::Syntax))
            }
        }
    }
}

/// The value of JSON that a file is, if it has the form of a model.
fn shaped_value(alloc: Global, bytes: &[u8]) -> Result<Value, FileError>
    ensures ok { IfOk result (λ v. HasShape bytes.now (view v)) }
    ensures fault { IfErr result (IsUnshaped bytes.now) }
{
    let value = value_in(alloc, bytes)?;
    match or_drop!(first_amiss(alloc, &value); value) {
        Some(path) => {
            drop(value);
            Err(FileError::Json(JsonFault::Shape(path)))
        }
        None => Ok(value),
    }
}

/// The items of a list, or none of another value.
pub(crate) fn in_list(value: &Value) -> &[Value]
    ensures { items_list (items_view result.now) ≡ in_list (view value.now) }
{
    match value {
        Value::Array(values) => values.as_slice(),
        _ => &[],
    }
}

/// The objects of a value that has the form of a model.
pub(crate) fn objects_of(value: &Value) -> &[Value]
    ensures { map (λ v. written_of (view v)) result.now ≡ objects_of (view value.now) }
{
    match value.get("objects") {
        Some(list) => in_list(list),
        None => &[],
    }
}

/// The first fault of objects that is told by its place, after that of too many.
fn first_fault(
    alloc: Global,
    meta: &MetaModel,
    values: &[Value],
) -> Result<Option<ModelFault>, NoMemory>
    ensures { IfOk result (λ f. f ≡ first_fault meta.now (map (λ v. written_of (view v)) values.now)) }
{
    if values.len() > MAX_OBJECTS as usize {
        Ok(Some(ModelFault::Limit(LimitKind::Objects)))
    } else {
        first_wrong(alloc, meta, values)
    }
}

/// The value of JSON that a file is, if it has the form of a model, no more objects than a model may have, and no fault that is told by its place.
pub(crate) fn read_objects(
    alloc: Global,
    meta: &MetaModel,
    bytes: &[u8],
) -> Result<Value, FileError>
    ensures ok { IfOk result (λ v. HasObjects meta.now bytes.now (view v)) }
    ensures fault { IfErr result (IsJsonError meta.now bytes.now) }
{
    let value = shaped_value(alloc, bytes)?;
    match or_drop!(first_fault(alloc, meta, objects_of(&value)); value) {
        Some(fault) => {
            drop(value);
            Err(FileError::Json(JsonFault::Content(fault)))
        }
        None => Ok(value),
    }
}
