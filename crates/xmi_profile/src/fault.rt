ghost use Rattle.std.specs.Prelude.{◌≡◌};

use model_assembly::{AssemblyError, ModelFault};
use mof_metamodel::NoMemory;
use xmi_text::{TextError, TextFault};

/// Why bytes are no model.
#[derive(Drop)]
pub enum XmiError {
    /// They are no markup.
    Text(TextFault),
    /// They are markup whose content is no model.
    Content(ModelFault),
    /// Memory could not be had.
    NoMemory,
}

impl From<NoMemory> for XmiError {
    ghost use Rattle.xmi_profile.specs.declared.fault.XmiError.TheVariants as errors;

    ghost from_gives = { λ _ e. e ≡ errors.NoMemory };

    fn from(_error: NoMemory) -> XmiError {
        XmiError::NoMemory
    }
}

impl From<TextError> for XmiError {
    ghost use Rattle.xmi_profile.specs.Bytes.{error_of};

    ghost from_gives = { λ given e. e ≡ error_of given };

    fn from(error: TextError) -> XmiError {
        match error {
            TextError::Fault(fault) => XmiError::Text(fault),
            TextError::NoMemory => XmiError::NoMemory,
        }
    }
}

impl From<AssemblyError> for XmiError {
    ghost use Rattle.xmi_profile.specs.Bytes.{read_error};

    ghost from_gives = { λ given e. e ≡ read_error given };

    fn from(error: AssemblyError) -> XmiError {
        match error {
            AssemblyError::Content(fault) => XmiError::Content(fault),
            AssemblyError::NoMemory => XmiError::NoMemory,
        }
    }
}
