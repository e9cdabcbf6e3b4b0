ghost use Rattle.std.specs.Prelude.{◌≡◌, chars, IfOk};
ghost use Rattle.model_assembly.specs.References as references;
ghost use Rattle.xmi_profile.specs.Scanning as scanning;

use crate::names::{begins_with_hash, behind, is_named};
use model_assembly::{Externs, Target};
use mof_metamodel::{NoMemory, Text};
use std::alloc::Global;

/// The primitive types that a file may name.
#[tactic(auto, using(crate::proofs::Literals::string, crate::proofs::Literals::integer, crate::proofs::Literals::boolean))]
pub(crate) fn is_primitive_type(name: &str) -> bool
    ensures { result ≡ references.is_primitive_type (chars name.now) }
{
    is_named(name, "String") || is_named(name, "Integer") || is_named(name, "Boolean")
}

/// What a fragment of another file names.
fn extern_target(
    alloc: Global,
    outside: Externs,
    text: &Text,
    fragment: Text,
) -> Result<Target, NoMemory>
    ensures { IfOk result (λ t. t ≡ references.extern_target outside text.now fragment) }
{
    match outside {
        Externs::Primitives if is_primitive_type(fragment.as_str()) => Ok(Target::Extern(fragment)),
        _ => Ok(Target::Nowhere(text.duplicate(alloc)?)),
    }
}

/// What an `href` names, given what stands behind its first `#`, and whether it begins with that.
fn href_by(
    alloc: Global,
    outside: Externs,
    text: &Text,
    fragment: Option<Text>,
    is_local: bool,
) -> Result<Target, NoMemory>
    ensures { IfOk result (λ t. t ≡ scanning.href_by outside text.now fragment is_local) }
{
    match fragment {
        Some(fragment) => {
            if is_local {
                Ok(Target::Named(fragment))
            } else {
                extern_target(alloc, outside, text, fragment)
            }
        }
        None => Ok(Target::Nowhere(text.duplicate(alloc)?)),
    }
}

/// What an `href` names: its first `#` divides it.
pub(crate) fn href_target(alloc: Global, outside: Externs, text: &Text) -> Result<Target, NoMemory>
    ensures { IfOk result (λ t. t ≡ references.href_target outside text.now) }
{
    let fragment = behind(alloc, text.as_str(), '#')?;
    let is_local = begins_with_hash(text.as_str());
    href_by(alloc, outside, text, fragment, is_local)
}
