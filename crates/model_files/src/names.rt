//! Names, and the fixed texts that they are compared with.
ghost use Rattle.std.specs.Prelude.{◌≡◌, [], IsTrue, IfOk, chars};
ghost use Rattle.mof_metamodel.specs.Metamodels.{same_name, is_primitive};
ghost use Rattle.model_files.specs.Ascii.{is_ascii};

use mof_metamodel::{NoMemory, Text};
use std::alloc::Global;

/// A text of ASCII characters.
#[tactic(auto, using(crate::proofs::AsciiLaws::ascii_characters))]
pub(crate) fn ascii(alloc: Global, text: &str) -> Result<Text, NoMemory>
    requires { IsTrue (is_ascii text.now) }
    ensures { IfOk result (λ t. t ≡ text.now) }
{
    Text::new(alloc, text)
}

/// The text without characters.
#[tactic(auto, using(crate::proofs::AsciiLaws::no_characters))]
pub(crate) fn empty_text() -> &'static str
    ensures { chars result.now ≡ [] }
{
    ""
}

/// Whether a name is a text of ASCII characters.
pub(crate) fn is_named(name: &str, text: &str) -> bool
    requires { IsTrue (is_ascii text.now) }
    ensures { result ≡ same_name (chars name.now) text.now }
{
    name == text
}

/// Whether a name is that of a primitive type.
pub(crate) fn is_primitive(name: &str) -> bool
    ensures { result ≡ is_primitive (chars name.now) }
{
    is_named(name, "String") || is_named(name, "Integer") || is_named(name, "Boolean")
}
