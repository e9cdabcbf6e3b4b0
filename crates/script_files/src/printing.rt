//! What is printed of faults of scripts.
ghost use Rattle.std.specs.Prelude.{◌≡◌, [], ◌∷◌, codes, map, IfOk};
ghost use Rattle.fault_lines.specs.Lines as lines;
ghost use Rattle.std.specs.Fmt.{decimal};
ghost use Rattle.script_files.specs.ScriptTexts as texts;

use crate::error::{ScriptError, is_length};
use fault_lines::line;
use mof_metamodel::{NoMemory, Seq, Text};
use ocl_environments::TypeFault;
use ql_lex::{LexFault, LexKind};
use std::alloc::Global;

/// The bytes of a text.
fn shown(text: &Text) -> &[u8]
    ensures { result.now ≡ lines.shown text.now }
{
    text.as_str().as_bytes()
}

/// That the script is refused for a fault of a kind, with one detail.
fn refused_line<'a>(
    alloc: Global,
    path: &'a [u8],
    word: &'a [u8],
    detail: &'a [u8],
) -> Result<Seq<u8>, NoMemory>
    ensures { IfOk result (λ text. text ≡ lines.line (lines.refused path.now word.now (detail.now ∷ []))) }
{
    line(alloc, b"refused", &[path, word, detail])
}

/// What is printed of a fault of tokens of this kind at this place.
fn token_line(alloc: Global, path: &[u8], kind: LexKind, place: &[u8]) -> Result<Seq<u8>, NoMemory>
    ensures { IfOk result (λ text. text ≡ lines.line (texts.token_words path.now kind place.now)) }
{
    if is_length(kind) {
        line(alloc, b"limit", &[b"bytes", path])
    } else {
        refused_line(alloc, path, kind.word().as_bytes(), place)
    }
}

/// What is printed of a fault of tokens.
fn token_text(alloc: Global, path: &[u8], fault: LexFault) -> Result<Seq<u8>, NoMemory>
    ensures { IfOk result (λ text. text ≡ lines.line (texts.token_words path.now fault.kind (decimal fault.at))) }
{
    let place = fault.at;
    let place = format!(in alloc; "{place}")?;
    token_line(alloc, path, fault.kind, place.as_bytes())
}

/// What is printed of a fault of the grammar at this place.
fn parse_text(alloc: Global, path: &[u8], at: usize) -> Result<Seq<u8>, NoMemory>
    ensures { IfOk result (λ text. text ≡ lines.line (lines.refused path.now (codes "Parse") (decimal at ∷ []))) }
{
    let place = format!(in alloc; "{at}")?;
    refused_line(alloc, path, b"Parse", place.as_bytes())
}

/// What is printed where a script nests too deeply.
fn nesting_text(alloc: Global, path: &[u8], at: usize) -> Result<Seq<u8>, NoMemory>
    ensures { IfOk result (λ text. text ≡ lines.line (lines.limit (codes "nesting") path.now (decimal at ∷ []))) }
{
    let place = format!(in alloc; "{at}")?;
    line(alloc, b"limit", &[b"nesting", path, place.as_bytes()])
}

/// What is printed of an error of the script at a path: `refused PATH KIND PLACE`, `limit bytes PATH`, `limit nesting PATH PLACE`, or
/// `no memory`; and a line feed.
pub fn script_fault_text(
    alloc: Global,
    path: &str,
    error: &ScriptError,
) -> Result<Seq<u8>, NoMemory>
    ensures { IfOk result (λ text. text ≡ texts.script_text path.now error.now) }
{
    let path = path.as_bytes();
    match error {
        ScriptError::Tokens(fault) => token_text(alloc, path, *fault),
        ScriptError::Parse { at } => parse_text(alloc, path, *at),
        ScriptError::Limit { at } => nesting_text(alloc, path, *at),
        ScriptError::NoMemory => line(alloc, b"no", &[b"memory"]),
    }
}

/// What is printed of a fault of types of this kind, which is about a name.
fn name_line(alloc: Global, path: &[u8], word: &[u8], name: &Text) -> Result<Seq<u8>, NoMemory>
    ensures { IfOk result (λ text. text ≡ lines.line (lines.refused path.now word.now (lines.shown name.now ∷ []))) }
{
    refused_line(alloc, path, word, shown(name))
}

/// What is printed of a type in the place of another.
fn wrong_type_line(
    alloc: Global,
    path: &[u8],
    wanted: &Text,
    found: &Text,
) -> Result<Seq<u8>, NoMemory>
    ensures { IfOk result (λ text. text ≡ lines.line (lines.refused path.now (codes "WrongType") (lines.shown wanted.now ∷ lines.shown found.now ∷ []))) }
{
    line(
        alloc,
        b"refused",
        &[path, b"WrongType", shown(wanted), shown(found)],
    )
}

/// What is printed of a fault of types in the script at a path: `refused PATH KIND NAME`, or `refused PATH WrongType WANTED FOUND`; and a
/// line feed.
pub fn type_fault_text(alloc: Global, path: &str, fault: &TypeFault) -> Result<Seq<u8>, NoMemory>
    ensures { IfOk result (λ text. text ≡ texts.type_text path.now fault.now) }
{
    let path = path.as_bytes();
    let word = fault.word().as_bytes();
    match fault {
        TypeFault::WrongType { wanted, found } => wrong_type_line(alloc, path, wanted, found),
        TypeFault::UnknownName(name)
        | TypeFault::WrongCount(name)
        | TypeFault::ModelMix(name)
        | TypeFault::QueryCycle(name)
        | TypeFault::DuplicateName(name)
        | TypeFault::Unbound(name)
        | TypeFault::WhenCycle(name)
        | TypeFault::CallShape(name)
        | TypeFault::KeyShape(name)
        | TypeFault::UnknownModel(name) => name_line(alloc, path, word, name),
    }
}
