//! What is printed of faults of files.
ghost use Rattle.std.specs.Prelude.{◌≡◌, [], ◌∷◌, codes, ◌<◌, map, string_bytes, IfOk};
ghost use Rattle.std.specs.Fmt.{decimal};
ghost use Rattle.mof_metamodel.specs.Metamodels.{prop_count};
ghost use Rattle.fault_lines.specs.Lines as lines;
ghost use Rattle.model_files.specs.Emof.{emof};
ghost use Rattle.model_files.specs.FaultTexts as texts;

use crate::emof::emof_metamodel;
use crate::fault::{FileError, JsonFault};
use fault_lines::line;
use model_assembly::ModelFault;
use mof_metamodel::{MetaFault, MetaKind, MetaModel, NoMemory, PropId, Seq, Text};
use object_tables::{Breach, LimitKind};
use std::alloc::Global;
use xmi_text::{TextFault, TextKind};

fn is_text_limit(kind: TextKind) -> bool
    ensures { result ≡ texts.is_text_limit kind }
{
    matches!(kind, TextKind::Limit)
}

fn is_meta_limit(kind: MetaKind) -> bool
    ensures { result ≡ texts.is_meta_limit kind }
{
    matches!(kind, MetaKind::Limit)
}

fn is_model_limit(fault: &ModelFault) -> bool
    ensures { result ≡ texts.is_model_limit fault.now }
{
    matches!(fault, ModelFault::Limit(_))
}

fn is_json_limit(fault: &JsonFault) -> bool
    ensures { result ≡ texts.is_json_limit fault.now }
{
    match fault {
        JsonFault::Content(fault) => is_model_limit(fault),
        _ => false,
    }
}

impl FileError {
    /// Whether a limit is passed in the file.
    pub fn is_limit(&self) -> bool
        ensures { result ≡ texts.is_limit self.now }
    {
        match self {
            FileError::Text(fault) => is_text_limit(fault.kind),
            FileError::Json(fault) => is_json_limit(fault),
            FileError::Content(fault) => is_model_limit(fault),
            FileError::Meta(fault) => is_meta_limit(fault.kind),
            _ => false,
        }
    }
}

/// That the file is refused for a fault of a kind, with one detail.
fn refused_line<'a>(
    alloc: Global,
    path: &'a [u8],
    word: &'a [u8],
    detail: &'a [u8],
) -> Result<Seq<u8>, NoMemory>
    ensures { IfOk result (λ text. text ≡ lines.line (lines.refused path.now word.now (detail.now ∷ []))) }
{
    line(alloc, b"refused", &[path, word, detail])
}

/// The same with two details.
fn refused_two<'a>(
    alloc: Global,
    path: &'a [u8],
    word: &'a [u8],
    first: &'a [u8],
    second: &'a [u8],
) -> Result<Seq<u8>, NoMemory>
    ensures { IfOk result (λ text. text ≡ lines.line (lines.refused path.now word.now (first.now ∷ second.now ∷ []))) }
{
    line(alloc, b"refused", &[path, word, first, second])
}

/// The same with three details.
fn refused_three<'a>(
    alloc: Global,
    path: &'a [u8],
    word: &'a [u8],
    first: &'a [u8],
    second: &'a [u8],
    third: &'a [u8],
) -> Result<Seq<u8>, NoMemory>
    ensures { IfOk result (λ text. text ≡ lines.line (lines.refused path.now word.now (first.now ∷ second.now ∷ third.now ∷ []))) }
{
    line(alloc, b"refused", &[path, word, first, second, third])
}

/// That two ends don't match.
fn mismatch_line<'a>(
    alloc: Global,
    path: &'a [u8],
    id: &'a [u8],
    prop: &'a [u8],
    other: &'a [u8],
    other_prop: &'a [u8],
) -> Result<Seq<u8>, NoMemory>
    ensures { IfOk result (λ text. text ≡ lines.line (lines.refused path.now (codes "Mismatch") (id.now ∷ prop.now ∷ other.now ∷ other_prop.now ∷ []))) }
{
    line(
        alloc,
        b"refused",
        &[path, b"Mismatch", id, prop, other, other_prop],
    )
}

/// That elements nest too deep.
fn nesting_line<'a>(alloc: Global, path: &'a [u8], place: &'a [u8]) -> Result<Seq<u8>, NoMemory>
    ensures { IfOk result (λ text. text ≡ lines.line (lines.limit (codes "nesting") path.now (place.now ∷ []))) }
{
    line(alloc, b"limit", &[b"nesting", path, place])
}

/// What is printed of a fault of markup of this kind at this place.
fn text_line(alloc: Global, path: &[u8], kind: TextKind, place: &[u8]) -> Result<Seq<u8>, NoMemory>
    ensures { IfOk result (λ text. text ≡ lines.line (texts.text_words path.now kind place.now)) }
{
    if is_text_limit(kind) {
        nesting_line(alloc, path, place)
    } else {
        refused_line(alloc, path, kind.word().as_bytes(), place)
    }
}

/// What is printed of a fault of markup.
fn text_fault_text(alloc: Global, path: &[u8], fault: TextFault) -> Result<Seq<u8>, NoMemory>
    ensures { IfOk result (λ text. text ≡ lines.line (texts.text_words path.now fault.kind (decimal fault.at))) }
{
    let place = fault.at;
    let place = format!(in alloc; "{place}")?;
    text_line(alloc, path, fault.kind, place.as_bytes())
}

/// What is printed of a fault of a description.
fn meta_fault_text(alloc: Global, path: &[u8], fault: &MetaFault) -> Result<Seq<u8>, NoMemory>
    ensures { IfOk result (λ text. text ≡ lines.line (texts.meta_words path.now fault.now.kind fault.now.name)) }
{
    if is_meta_limit(fault.kind) {
        line(alloc, b"limit", &[b"metamodel", path])
    } else {
        refused_line(
            alloc,
            path,
            fault.kind.word().as_bytes(),
            shown(&fault.name),
        )
    }
}

/// The bytes of a text.
fn shown(text: &Text) -> &[u8]
    ensures { result.now ≡ lines.shown text.now }
{
    text.as_str().as_bytes()
}

/// The name of a property.
fn prop_name(meta: &MetaModel, p: PropId) -> &[u8]
    requires { p.0 < prop_count meta.now }
    ensures { result.now ≡ texts.shown_name meta.now p }
{
    shown(&meta.prop(p).name)
}

/// What is printed of a model that isn't valid.
fn breach_text(
    alloc: Global,
    meta: &MetaModel,
    path: &[u8],
    breach: Breach,
    id: &Text,
) -> Result<Seq<u8>, NoMemory>
    requires { texts.IsKnownProp meta.now breach.prop }
    ensures { IfOk result (λ text. text ≡ lines.line (texts.breach_words meta.now path.now breach id.now)) }
{
    let word = breach.kind.word().as_bytes();
    match breach.prop {
        Some(p) => refused_three(alloc, path, b"Invalid", word, shown(id), prop_name(meta, p)),
        None => refused_two(alloc, path, b"Invalid", word, shown(id)),
    }
}

/// What is printed of a limit of models.
fn limit_text(alloc: Global, path: &[u8], kind: LimitKind) -> Result<Seq<u8>, NoMemory>
    ensures { IfOk result (λ text. text ≡ lines.line (texts.limit_words path.now kind)) }
{
    match kind {
        LimitKind::Objects => line(alloc, b"limit", &[b"objects", path]),
        LimitKind::Depth => line(alloc, b"limit", &[b"depth", path]),
    }
}

/// What is printed of a value that is none.
fn wrong_value_text(
    alloc: Global,
    path: &[u8],
    id: &Text,
    prop: &Option<Text>,
) -> Result<Seq<u8>, NoMemory>
    ensures { IfOk result (λ text. text ≡ lines.line (texts.wrong_value_words path.now id.now prop.now)) }
{
    match prop {
        Some(prop) => refused_two(alloc, path, b"WrongValue", shown(id), shown(prop)),
        None => refused_line(alloc, path, b"WrongValue", shown(id)),
    }
}

/// What is printed of a fault of content.
fn content_text(
    alloc: Global,
    meta: &MetaModel,
    path: &[u8],
    fault: &ModelFault,
) -> Result<Seq<u8>, NoMemory>
    requires { texts.IsKnownFault meta.now fault.now }
    ensures { IfOk result (λ text. text ≡ lines.line (texts.content_words meta.now path.now fault.now)) }
{
    match fault {
        ModelFault::UnknownClass { name } => {
            refused_line(alloc, path, b"UnknownClass", shown(name))
        }
        ModelFault::UnknownProperty { id, prop } => {
            refused_two(alloc, path, b"UnknownProperty", shown(id), shown(prop))
        }
        ModelFault::WrongValue { id, prop } => wrong_value_text(alloc, path, id, prop),
        ModelFault::DuplicateId { id } => refused_line(alloc, path, b"DuplicateId", shown(id)),
        ModelFault::Dangling {
            id,
            prop,
            reference,
        } => refused_three(
            alloc,
            path,
            b"Dangling",
            shown(id),
            shown(prop),
            shown(reference),
        ),
        ModelFault::TwoContainers { id } => refused_line(alloc, path, b"TwoContainers", shown(id)),
        ModelFault::Mismatch {
            id,
            prop,
            other,
            other_prop,
        } => mismatch_line(
            alloc,
            path,
            shown(id),
            shown(prop),
            shown(other),
            shown(other_prop),
        ),
        ModelFault::Invalid(breach, id) => breach_text(alloc, meta, path, *breach, id),
        ModelFault::Limit(kind) => limit_text(alloc, path, *kind),
    }
}

/// What is printed of a fault of a file of JSON.
fn json_fault_text<'a>(
    alloc: Global,
    meta: &MetaModel,
    path: &'a [u8],
    fault: &'a JsonFault,
) -> Result<Seq<u8>, NoMemory>
    requires { texts.IsKnownJsonFault meta.now fault.now }
    ensures { IfOk result (λ text. text ≡ lines.line (texts.json_words meta.now path.now fault.now)) }
{
    match fault {
        JsonFault::Syntax => line(alloc, b"refused", &[path, b"Syntax"]),
        JsonFault::Shape(place) => line(alloc, b"refused", &[path, b"Shape", shown(place)]),
        JsonFault::Content(fault) => content_text(alloc, meta, path, fault),
    }
}

/// What is printed of a file in which so many objects, and not one, are top Packages.
fn package_text(alloc: Global, path: &[u8], number: u32) -> Result<Seq<u8>, NoMemory>
    ensures { IfOk result (λ text. text ≡ lines.line (texts.package_words path.now (decimal number))) }
{
    let number = format!(in alloc; "{number}")?;
    refused_line(alloc, path, b"NoPackage", number.as_bytes())
}

/// What is printed of an error of the file at a path that was read by the metamodel: `refused PATH KIND` and the details of the kind,
/// `limit LIMIT PATH` and the place where it is passed if it is one of nesting, or `no memory`; and a line feed.
pub fn fault_text(
    alloc: Global,
    meta: &MetaModel,
    path: &str,
    error: &FileError,
) -> Result<Seq<u8>, NoMemory>
    requires { texts.IsKnownError meta.now error.now }
    ensures { IfOk result (λ text. text ≡ texts.error_text meta.now path.now error.now) }
{
    let path = path.as_bytes();
    match error {
        FileError::Text(fault) => text_fault_text(alloc, path, *fault),
        FileError::Json(fault) => json_fault_text(alloc, meta, path, fault),
        FileError::Content(fault) => content_text(alloc, meta, path, fault),
        FileError::Meta(fault) => meta_fault_text(alloc, path, fault),
        FileError::NoPackage(number) => package_text(alloc, path, *number),
        FileError::NoMemory => line(alloc, b"no", &[b"memory"]),
    }
}

/// The same of the file of a metamodel, which is read by EMOF.
pub fn metamodel_fault_text(
    alloc: Global,
    path: &str,
    error: &FileError,
) -> Result<Seq<u8>, NoMemory>
    requires { texts.IsKnownError emof error.now }
    ensures { IfOk result (λ text. text ≡ texts.error_text emof path.now error.now) }
{
    let emof = emof_metamodel(alloc)?;
    let text = fault_text(alloc, &emof, path, error);
    drop(emof);
    text
}
