ghost use Rattle.std.specs.Prelude.{◌≡◌};
ghost use Rattle.ocl_parser.specs.Readings.{Gives, name_read, path_behind, path_read};

use crate::expecting::is_sign_at;
use crate::halt::{Halt, Stop};
use crate::parts::{extended, path_of};
use mof_metamodel::or_drop;
use ql_lex::{Tokens, name_text, peek};
use qv_syntax::{Name, Path};
use std::alloc::Global;

/// The most names of a path to a class, as `M::C`.
pub(crate) const CLASS_NAMES: usize = 2;

/// Reads a name, quoted or not.
#[tactic(auto, unfolding(crate::specs::Readings::name_read))]
pub fn read_name(alloc: Global, tokens: &Tokens<'_>, at: usize) -> Result<(Name, usize), Halt>
    ensures { Gives result (name_read tokens.now.lexemes at) }
{
    match peek(tokens, at) {
        Some((token, text)) => match name_text(alloc, token.kind, text)? {
            Some(text) => {
                let span = token.span;
                Ok((Name { text, span }, at + 1))
            }
            None => Err(Halt::Stop(Stop::Stuck { at })),
        },
        None => Err(Halt::Stop(Stop::Stuck { at })),
    }
}

/// What stands behind the first name of a path.
fn read_behind(
    alloc: Global,
    tokens: &Tokens<'_>,
    first: Name,
    at: usize,
) -> Result<(Path, usize), Halt>
    ensures { Gives result (path_behind tokens.now.lexemes (first, at)) }
{
    let path = path_of(alloc, first)?;
    if is_sign_at(tokens, at, "::") {
        let (second, end) = or_drop!(read_name(alloc, tokens, at + 1); path);
        return Ok((extended(path, second)?, end));
    }
    Ok((path, at))
}

/// Reads the path of a class, `C` or `M::C`, from the token of number `at` on, and answers it with the number of the token
/// behind it.
///
/// # Errors
///
/// A `Stop` at the first token with which no path goes on, and `NoMemory`.
#[tactic(auto, unfolding(crate::specs::Readings::path_read))]
pub fn read_path(alloc: Global, tokens: &Tokens<'_>, at: usize) -> Result<(Path, usize), Halt>
    ensures { Gives result (path_read tokens.now.lexemes at) }
{
    let (first, end) = read_name(alloc, tokens, at)?;
    read_behind(alloc, tokens, first, end)
}
