ghost use Rattle.std.specs.Prelude.{◌≡◌, chars, codes, IfOk};
ghost use Rattle.mof_metamodel.specs.Characters.{same_name};
ghost use Rattle.model_assembly.specs.Attributes as names;
ghost use Rattle.xmi_text.specs.Markup.{begins};
ghost use Rattle.xmi_profile.specs.Scanning as scanning;
ghost use Rattle.model_assembly.specs.Values as texts;

use model_assembly::empty_text;
use mof_metamodel::{NoMemory, Text, is_blank_character};
use std::alloc::Global;

/// An attribute of XMI's namespace or of schema instances that says something (XMI 2.5.1, 7.6), or `href`.
#[derive(Clone, Copy)]
pub(crate) enum Own {
    Id,
    Type,
    Idref,
    Nil,
    Href,
}

/// Whether two names have the same characters.
pub(crate) fn is_named(name: &str, other: &str) -> bool
    ensures { result ≡ same_name (chars name.now) (chars other.now) }
{
    name == other
}

fn has_xmi_prefix(name: &str) -> bool
    ensures { result ≡ names.has_prefix (codes "xmi") (chars name.now) }
{
    name.starts_with("xmi:")
}

fn has_xsi_prefix(name: &str) -> bool
    ensures { result ≡ names.has_prefix (codes "xsi") (chars name.now) }
{
    name.starts_with("xsi:")
}

fn has_xmlns_prefix(name: &str) -> bool
    ensures { result ≡ names.has_prefix (codes "xmlns") (chars name.now) }
{
    name.starts_with("xmlns:")
}

/// The document.
#[tactic(auto, using(crate::proofs::Literals::document))]
pub(crate) fn is_document_name(name: &str) -> bool
    ensures { result ≡ names.is_document_name (chars name.now) }
{
    is_named(name, "xmi:XMI")
}

/// Extensions and documentation, which are skipped with what they contain (XMI 2.5.1, 7.5).
#[tactic(auto, using(crate::proofs::Literals::extension, crate::proofs::Literals::documentation))]
pub(crate) fn is_skipped_name(name: &str) -> bool
    ensures { result ≡ names.is_skipped_name (chars name.now) }
{
    is_named(name, "xmi:Extension") || is_named(name, "xmi:Documentation")
}

/// Any other element of XMI's namespace, which the profile hasn't.
pub(crate) fn is_alien_name(name: &str) -> bool
    ensures { result ≡ names.is_alien_name (chars name.now) }
{
    has_xmi_prefix(name) && !(is_document_name(name) || is_skipped_name(name))
}

#[tactic(auto, using(crate::proofs::Literals::identifier))]
fn is_id_name(name: &str) -> bool
    ensures { result ≡ names.is_id_name (chars name.now) }
{
    is_named(name, "xmi:id")
}

#[tactic(auto, using(crate::proofs::Literals::xmi_type, crate::proofs::Literals::xsi_type))]
fn is_type_name(name: &str) -> bool
    ensures { result ≡ names.is_type_name (chars name.now) }
{
    is_named(name, "xmi:type") || is_named(name, "xsi:type")
}

#[tactic(auto, using(crate::proofs::Literals::reference))]
fn is_idref_name(name: &str) -> bool
    ensures { result ≡ names.is_idref_name (chars name.now) }
{
    is_named(name, "xmi:idref")
}

#[tactic(auto, using(crate::proofs::Literals::nil))]
fn is_nil_name(name: &str) -> bool
    ensures { result ≡ names.is_nil_name (chars name.now) }
{
    is_named(name, "xsi:nil")
}

#[tactic(auto, using(crate::proofs::Literals::href))]
fn is_href_name(name: &str) -> bool
    ensures { result ≡ names.is_href_name (chars name.now) }
{
    is_named(name, "href")
}

/// Whether an attribute is this one of its own.
pub(crate) fn is_own(own: Own, name: &str) -> bool
    ensures { result ≡ scanning.is_own own (chars name.now) }
{
    match own {
        Own::Id => is_id_name(name),
        Own::Type => is_type_name(name),
        Own::Idref => is_idref_name(name),
        Own::Nil => is_nil_name(name),
        Own::Href => is_href_name(name),
    }
}

/// Those that say something.
pub(crate) fn is_kept_name(name: &str) -> bool
    ensures { result ≡ names.is_kept_name (chars name.now) }
{
    is_id_name(name) || is_type_name(name) || is_idref_name(name) || is_nil_name(name)
}

/// Declarations of namespaces, and all others of the two namespaces, which are passed over.
#[tactic(auto, using(crate::proofs::Literals::declaration))]
pub(crate) fn is_passed_name(name: &str) -> bool
    ensures { result ≡ names.is_passed_name (chars name.now) }
{
    is_named(name, "xmlns")
        || has_xmlns_prefix(name)
        || ((has_xmi_prefix(name) || has_xsi_prefix(name)) && !is_kept_name(name))
}

fn behind_on(
    alloc: Global,
    found: Option<Text>,
    mark: char,
    c: char,
) -> Result<Option<Text>, NoMemory>
    ensures { IfOk result (λ t. t ≡ scanning.behind_on mark found c) }
{
    match found {
        Some(mut text) => {
            text.push(c)?;
            Ok(Some(text))
        }
        None => {
            if c == mark {
                Ok(Some(empty_text(alloc)))
            } else {
                Ok(None)
            }
        }
    }
}

/// Whether each character of a text is a blank.
pub(crate) fn is_all_blank(text: &str) -> bool
    ensures { result ≡ texts.is_all_blank (chars text.now) }
{
    text.chars().all(|c| is_blank_character(c))
}

/// What stands behind the first of these characters.
pub(crate) fn behind(alloc: Global, text: &str, mark: char) -> Result<Option<Text>, NoMemory>
    ensures { IfOk result (λ t. t ≡ names.behind mark (chars text.now)) }
{
    let mut found = None;
    for c in text.chars() {
        found = behind_on(alloc, found, mark, c)?;
    }
    Ok(found)
}

/// Whether a text begins with `#`.
pub(crate) fn begins_with_hash(text: &str) -> bool
    ensures { result ≡ begins (codes "#") (chars text.now) }
{
    text.starts_with("#")
}

/// What stands behind the first colon, or a name without a colon whole.
pub(crate) fn local_part(alloc: Global, name: &str) -> Result<Text, NoMemory>
    ensures { IfOk result (λ t. t ≡ names.local_part (chars name.now)) }
{
    match behind(alloc, name, ':')? {
        Some(text) => Ok(text),
        None => Text::new(alloc, name),
    }
}
