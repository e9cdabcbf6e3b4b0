//! Which form a file of a model has.
ghost use Rattle.std.specs.Prelude.{◌≡◌};
ghost use Rattle.model_files.specs.FileForm as forms;

use crate::json_reading::without_mark;
use mof_metamodel::is_blank;

/// The form of a file of a model.
#[derive(Clone, Copy)]
pub enum Form {
    /// Markup (XMI 2.5.1).
    Xmi,
    /// A value of JSON (RFC 8259).
    Json,
}

/// Whether the first byte behind blanks is `{`.
fn begins_object(bytes: &[u8]) -> bool
    ensures { result ≡ forms.begins_object bytes.now }
{
    for byte in bytes {
        if !is_blank(*byte) {
            return *byte == b'{';
        }
    }
    false
}

/// The form of a file: JSON where its first byte behind a byte order mark and blanks is `{`, else XMI.
pub fn form_of(bytes: &[u8]) -> Form
    ensures { result ≡ forms.form_of bytes.now }
{
    if begins_object(without_mark(bytes)) {
        Form::Json
    } else {
        Form::Xmi
    }
}
