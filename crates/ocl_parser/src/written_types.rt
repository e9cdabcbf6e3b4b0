ghost use Rattle.std.specs.Prelude.{◌≡◌, ◌<◌, ◌-◌};
ghost use Rattle.ocl_parser.specs.Readings.{Gives, elements_read, type_by, type_read};

use crate::expecting::{read_opening, read_sign, span_between};
use crate::halt::{Halt, Stop};
use crate::names::read_path;
use crate::types::plain_type;
use mof_metamodel::{Boxed, or_drop};
use ql_lex::{Symbol, Terminal, Tokens, peek, symbol_at};
use qv_syntax::{Kind, TypeTree};
use std::alloc::Global;

/// Reads the type of the elements of a collection in its parentheses, behind the word of the kind, which is the token of
/// number `at`.
#[cycle(read_type)]
fn read_elements(
    alloc: Global,
    tokens: &Tokens<'_>,
    at: usize,
    levels: usize,
    kind: Kind,
) -> Result<(TypeTree, usize), Halt>
    requires { at < usize.MAX }
    ensures { Gives result (elements_read tokens.now.lexemes (type_read tokens.now.lexemes (levels - 1)) levels at kind) }
{
    let open = read_opening(tokens, at + 1, levels, "(")?;
    let (of, close) = read_type(alloc, tokens, open, levels - 1)?;
    let end = or_drop!(read_sign(tokens, close, ")"); of);
    let of = Boxed::new(alloc, of)?;
    let span = span_between(tokens, at, end);
    Ok((TypeTree::Coll { kind, of, span }, end))
}

/// Reads a type that begins with this symbol, the token of number `at`.
#[cycle(read_type)]
fn read_from(
    alloc: Global,
    tokens: &Tokens<'_>,
    at: usize,
    levels: usize,
    terminal: Terminal,
) -> Result<(TypeTree, usize), Halt>
    requires { at < usize.MAX }
    ensures { Gives result (type_by tokens.now.lexemes (type_read tokens.now.lexemes (levels - 1)) levels at terminal) }
{
    let Terminal { symbol, span } = terminal;
    match symbol {
        Symbol::Plain(ty) => Ok((plain_type(ty, span), at + 1)),
        Symbol::Kind(kind) => read_elements(alloc, tokens, at, levels, kind),
        Symbol::Name(_) => {
            let (path, end) = read_path(alloc, tokens, at)?;
            Ok((TypeTree::Named { path }, end))
        }
        _ => Err(Halt::Stop(Stop::Stuck { at })),
    }
}

/// Reads a type from the token of number `at` on, where so many levels of nesting are left, and answers it with the number
/// of the token behind it.
///
/// # Errors
///
/// A `Stop` at the first token with which no type goes on, or that opens a level past the last, and `NoMemory`.
#[cycle(read_type)]
#[tactic(auto, using(crate::proofs::ReadingLaws::type_unrolled, crate::proofs::ReadingLaws::type_nowhere))]
pub fn read_type(
    alloc: Global,
    tokens: &Tokens<'_>,
    at: usize,
    levels: usize,
) -> Result<(TypeTree, usize), Halt>
    ensures { Gives result (type_read tokens.now.lexemes levels at) }
{
    match peek(tokens, at) {
        Some(_) => {
            let terminal = symbol_at(alloc, tokens, at)?;
            read_from(alloc, tokens, at, levels, terminal)
        }
        None => Err(Halt::Stop(Stop::Stuck { at })),
    }
}
