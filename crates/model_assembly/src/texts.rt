ghost use Rattle.std.specs.Prelude.{◌≡◌, []};

use mof_metamodel::Text;
use std::alloc::Global;

/// A text without a character.
pub fn empty_text(alloc: Global) -> Text
    ensures { result ≡ [] }
{
    Text::from_string(String::new(alloc))
}
