ghost use Rattle.std.specs.Prelude.{◌≡◌};

use model_assembly::ModelFault;
use mof_metamodel::{MetaFault, NoMemory, Text};
use xmi_profile::XmiError;
use xmi_text::TextFault;

/// Why a file of JSON is no model.
#[derive(Drop)]
pub enum JsonFault {
    /// It is no value of JSON.
    Syntax,
    /// The value first differs at this path from the form of a model.
    Shape(Text),
    /// Its objects are no model.
    Content(ModelFault),
}

/// Why a file is no model or no metamodel.
#[derive(Drop)]
pub enum FileError {
    /// A file of XMI is no markup.
    Text(TextFault),
    /// A file of JSON is no model.
    Json(JsonFault),
    /// A file of XMI is markup whose content is no model.
    Content(ModelFault),
    /// The description of the Package has a fault.
    Meta(MetaFault),
    /// Not one object, but this many, are a top Package.
    NoPackage(u32),
    /// Memory could not be had.
    NoMemory,
}

impl From<NoMemory> for FileError {
    ghost use Rattle.model_files.specs.declared.fault.FileError.TheVariants as errors;

    ghost from_gives = { λ _ e. e ≡ errors.NoMemory };

    fn from(_error: NoMemory) -> FileError {
        FileError::NoMemory
    }
}

impl From<XmiError> for FileError {
    ghost use Rattle.model_files.specs.FileErrors.{error_of};

    ghost from_gives = { λ given e. e ≡ error_of given };

    fn from(error: XmiError) -> FileError {
        match error {
            XmiError::Text(fault) => FileError::Text(fault),
            XmiError::Content(fault) => FileError::Content(fault),
            XmiError::NoMemory => FileError::NoMemory,
        }
    }
}
