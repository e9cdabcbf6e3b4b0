ghost use Rattle.std.specs.Prelude.{◌≡◌, ◌<◌, ◌-◌, true, length};
ghost use Rattle.ql_lex.specs.Lexemes.{stands};
ghost use Rattle.ocl_parser.specs.Readings.{Gives, name_read};
ghost use Rattle.qvtr_parser.specs.Lists.{more_read};
ghost use Rattle.qvtr_parser.specs.ScriptReadings.{is_any_name, model_read, names_read, param_read};

use mof_metamodel::Seq;
use ocl_parser::{Halt, is_sign_at, read_name, read_sign, read_type};
use ql_lex::{Token, TokenKind, Tokens, peek};
use qv_syntax::{ModelTree, Name, ParamTree};
use std::alloc::Global;

/// Whether a token is a name, quoted or not.
fn is_name(token: Token, _text: &str) -> bool
    ensures { result ≡ is_any_name (record { token = token; text = _text.now }) }
{
    match token.kind {
        TokenKind::Name => true,
        TokenKind::Quoted => true,
        TokenKind::Reserved => false,
        TokenKind::Number => false,
        TokenKind::Str => false,
        TokenKind::Sign => false,
    }
}

/// Whether the token of this number is a name, quoted or not.
#[tactic(auto, using(crate::proofs::StandLaws::stands_there, crate::proofs::StandLaws::stands_nowhere))]
pub(crate) fn is_name_at(tokens: &Tokens<'_>, at: usize) -> bool
    ensures stands { result ≡ stands is_any_name tokens.now.lexemes at }
    ensures within { result ≡ true → at < usize.MAX }
{
    match peek(tokens, at) {
        Some((token, text)) => is_name(token, text),
        None => false,
    }
}

/// The names behind others, each with a comma before it. A name takes a token, so there are no more than tokens are left.
#[tactic(auto, using(crate::proofs::LoopLaws::each_more, crate::proofs::LoopLaws::each_ends, crate::proofs::LoopLaws::each_full, crate::proofs::LoopLaws::each_halts))]
fn read_more_names(
    alloc: Global,
    tokens: &Tokens<'_>,
    names: Seq<Name>,
    at: usize,
) -> Result<(Seq<Name>, usize), Halt>
    ensures { Gives result (more_read tokens.now.lexemes (name_read tokens.now.lexemes) names at) }
{
    let mut names = names;
    let mut end = at;
    for _step in at..tokens.len() {
        if !is_sign_at(tokens, end, ",") {
            return Ok((names, end));
        }
        let (name, next) = read_name(alloc, tokens, end + 1)?;
        names.push(name)?;
        end = next;
    }
    Ok((names, end))
}

/// Names with commas between them.
#[tactic(auto, unfolding(crate::specs::ScriptReadings::names_read))]
pub(crate) fn read_names(
    alloc: Global,
    tokens: &Tokens<'_>,
    at: usize,
) -> Result<(Seq<Name>, usize), Halt>
    ensures { Gives result (names_read tokens.now.lexemes at) }
{
    let (name, next) = read_name(alloc, tokens, at)?;
    let mut names = Seq::new(alloc);
    names.push(name)?;
    read_more_names(alloc, tokens, names, next)
}

/// `name : type`
#[tactic(auto, unfolding(crate::specs::ScriptReadings::param_read))]
pub(crate) fn read_param(
    alloc: Global,
    tokens: &Tokens<'_>,
    at: usize,
    levels: usize,
) -> Result<(ParamTree, usize), Halt>
    ensures { Gives result (param_read tokens.now.lexemes levels at) }
{
    let (name, behind) = read_name(alloc, tokens, at)?;
    let colon = read_sign(tokens, behind, ":")?;
    let (ty, end) = read_type(alloc, tokens, colon, levels)?;
    Ok((ParamTree { name, ty }, end))
}

/// `name : metamodel`
#[tactic(auto, unfolding(crate::specs::ScriptReadings::model_read))]
pub(crate) fn read_model(
    alloc: Global,
    tokens: &Tokens<'_>,
    at: usize,
) -> Result<(ModelTree, usize), Halt>
    ensures { Gives result (model_read tokens.now.lexemes at) }
{
    let (name, behind) = read_name(alloc, tokens, at)?;
    let colon = read_sign(tokens, behind, ":")?;
    let (meta, end) = read_name(alloc, tokens, colon)?;
    Ok((ModelTree { name, meta }, end))
}
