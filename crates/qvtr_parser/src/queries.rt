ghost use Rattle.std.specs.Prelude.{◌≡◌, ◌-◌, codes, length};
ghost use Rattle.ocl_parser.specs.Readings.{Gives};
ghost use Rattle.qvtr_parser.specs.Lists.{any_read, more_read};
ghost use Rattle.qvtr_parser.specs.ScriptReadings.{key_read, param_read, params_read, props_read, query_body_read, query_read};

use crate::exprs::read_expression;
use crate::names::{read_names, read_param};
use mof_metamodel::Seq;
use ocl_parser::{
    Halt, is_sign_at, read_name, read_opening, read_path, read_sign, read_type, read_word,
    span_between,
};
use ql_lex::Tokens;
use qv_syntax::{Expr, KeyTree, Name, ParamTree, QueryTree};
use std::alloc::Global;

/// `{ names }`
#[tactic(auto, unfolding(crate::specs::ScriptReadings::props_read))]
fn read_props(
    alloc: Global,
    tokens: &Tokens<'_>,
    at: usize,
    levels: usize,
) -> Result<(Seq<Name>, usize), Halt>
    ensures { Gives result (props_read tokens.now.lexemes levels at) }
{
    let inside = read_opening(tokens, at, levels, "{")?;
    let (names, close) = read_names(alloc, tokens, inside)?;
    let end = read_sign(tokens, close, "}")?;
    Ok((names, end))
}

/// A key (QVT 1.3, section 7.10.2).
#[tactic(auto, unfolding(crate::specs::ScriptReadings::key_read))]
pub(crate) fn read_key(
    alloc: Global,
    tokens: &Tokens<'_>,
    at: usize,
    levels: usize,
) -> Result<(KeyTree, usize), Halt>
    ensures { Gives result (key_read tokens.now.lexemes levels at) }
{
    let first = read_word(tokens, at, "key")?;
    let (class, brace) = read_path(alloc, tokens, first)?;
    let (props, behind) = read_props(alloc, tokens, brace, levels)?;
    let end = read_sign(tokens, behind, ";")?;
    let span = span_between(tokens, at, end);
    Ok((KeyTree { class, props, span }, end))
}

/// The parameters behind others, each with a comma before it. A parameter takes a token at least, so there are no more than
/// tokens are left.
#[tactic(auto, using(crate::proofs::LoopLaws::each_more, crate::proofs::LoopLaws::each_ends, crate::proofs::LoopLaws::each_full, crate::proofs::LoopLaws::each_halts))]
fn read_more_params(
    alloc: Global,
    tokens: &Tokens<'_>,
    params: Seq<ParamTree>,
    at: usize,
    levels: usize,
) -> Result<(Seq<ParamTree>, usize), Halt>
    ensures { Gives result (more_read tokens.now.lexemes (param_read tokens.now.lexemes levels) params at) }
{
    let mut params = params;
    let mut end = at;
    for _step in at..tokens.len() {
        if !is_sign_at(tokens, end, ",") {
            return Ok((params, end));
        }
        let (param, next) = read_param(alloc, tokens, end + 1, levels)?;
        params.push(param)?;
        end = next;
    }
    Ok((params, end))
}

/// Parameters with commas between them, or none before `)`.
fn read_some_params(
    alloc: Global,
    tokens: &Tokens<'_>,
    at: usize,
    levels: usize,
) -> Result<(Seq<ParamTree>, usize), Halt>
    ensures { Gives result (any_read tokens.now.lexemes (codes ")") (param_read tokens.now.lexemes levels) at) }
{
    let mut params = Seq::new(alloc);
    if is_sign_at(tokens, at, ")") {
        return Ok((params, at));
    }
    let (param, next) = read_param(alloc, tokens, at, levels)?;
    params.push(param)?;
    read_more_params(alloc, tokens, params, next, levels)
}

/// `( params )`
#[tactic(auto, unfolding(crate::specs::ScriptReadings::params_read))]
fn read_params(
    alloc: Global,
    tokens: &Tokens<'_>,
    at: usize,
    levels: usize,
) -> Result<(Seq<ParamTree>, usize), Halt>
    ensures { Gives result (params_read tokens.now.lexemes levels at) }
{
    let inside = read_opening(tokens, at, levels, "(")?;
    let (params, close) = read_some_params(alloc, tokens, inside, levels - 1)?;
    let end = read_sign(tokens, close, ")")?;
    Ok((params, end))
}

/// `{ expression }`
#[tactic(auto, unfolding(crate::specs::ScriptReadings::query_body_read))]
fn read_query_body(
    alloc: Global,
    tokens: &Tokens<'_>,
    at: usize,
    levels: usize,
) -> Result<(Expr, usize), Halt>
    ensures { Gives result (query_body_read tokens.now.lexemes levels at) }
{
    let inside = read_opening(tokens, at, levels, "{")?;
    let (body, close) = read_expression(alloc, tokens, inside, levels - 1)?;
    let end = read_sign(tokens, close, "}")?;
    Ok((body, end))
}

/// A query (QVT 1.3, section 7.11.1.4).
#[tactic(auto, unfolding(crate::specs::ScriptReadings::query_read))]
pub(crate) fn read_query(
    alloc: Global,
    tokens: &Tokens<'_>,
    at: usize,
    levels: usize,
) -> Result<(QueryTree, usize), Halt>
    ensures { Gives result (query_read tokens.now.lexemes levels at) }
{
    let first = read_word(tokens, at, "query")?;
    let (name, paren) = read_name(alloc, tokens, first)?;
    let (params, behind) = read_params(alloc, tokens, paren, levels)?;
    let colon = read_sign(tokens, behind, ":")?;
    let (result, brace) = read_type(alloc, tokens, colon, levels)?;
    let (body, end) = read_query_body(alloc, tokens, brace, levels)?;
    let query = QueryTree {
        name,
        params,
        result,
        body,
    };
    Ok((query, end))
}
