//! The names and identifiers of the objects of a source.
ghost use Rattle.std.specs.Prelude.{◌≡◌, ◌++◌, ◌<◌, IsTrue, IfOk};
ghost use Rattle.std.specs.Fmt.{decimal};
ghost use Rattle.example_models.specs.Descriptions.{is_ascii};
ghost use Rattle.example_models.specs.Source.{inside, class_id, attribute_id};

use mof_metamodel::{NoMemory, Text};
use std::alloc::Global;

/// A text with a number behind it.
pub(crate) fn numbered(alloc: Global, text: &str, number: u32) -> Result<Text, NoMemory>
    requires { IsTrue (is_ascii text.now) }
    ensures { IfOk result (λ t. t ≡ text.now ++ decimal number) }
{
    Ok(Text::from_string(format!(in alloc; "{text}{number}")?))
}

/// A name behind an identifier, with a full stop between.
fn inside(outer: Text, name: &Text) -> Result<Text, NoMemory>
    ensures { IfOk result (λ t. t ≡ inside outer name.now) }
{
    let mut id = outer;
    id.push('.')?;
    id.push_str(name.as_str())?;
    Ok(id)
}

/// The identifier of a class, which is in a package of a hundred.
pub(crate) fn class_id(alloc: Global, class: u32) -> Result<Text, NoMemory>
    ensures { IfOk result (λ t. t ≡ class_id class) }
{
    let outer = numbered(alloc, "p", class / 100)?;
    let name = numbered(alloc, "C", class)?;
    inside(outer, &name)
}

/// The identifier of an attribute of a class.
pub(crate) fn attribute_id(alloc: Global, class: u32, attribute: u32) -> Result<Text, NoMemory>
    ensures { IfOk result (λ t. t ≡ attribute_id class attribute) }
{
    let class = class_id(alloc, class)?;
    let name = numbered(alloc, "a", attribute)?;
    inside(class, &name)
}
