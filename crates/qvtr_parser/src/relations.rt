ghost use Rattle.std.specs.Prelude.{◌≡◌, ◌<◌, ◌-◌, codes, length, true};
ghost use Rattle.ocl_parser.specs.Readings.{Gives};
ghost use Rattle.qvtr_parser.specs.Lists.{each_read, left};
ghost use Rattle.qvtr_parser.specs.ScriptReadings.{all_vars_read, behind_if as behind, block_read, body_read, clause_read, conjunct_read, conjuncts_from, conjuncts_read, goes_on as goes, is_sign_at as sign_stands, is_word_at as word_stands, relation_read, vars_read, is_name_at as name_stands};

use crate::domains::read_domains;
use crate::exprs::read_expression;
use crate::names::{is_name_at, read_names};
use mof_metamodel::Seq;
use ocl_parser::{
    Halt, is_sign_at, is_word_at, read_name, read_opening, read_sign, read_type, read_word,
    span_between,
};
use ql_lex::Tokens;
use qv_syntax::{BlockTree, DomainTree, Expr, RelationTree, VarsTree};
use std::alloc::Global;

/// Variables of one type.
#[tactic(auto, unfolding(crate::specs::ScriptReadings::vars_read))]
fn read_vars(
    alloc: Global,
    tokens: &Tokens<'_>,
    at: usize,
    levels: usize,
) -> Result<(VarsTree, usize), Halt>
    ensures { Gives result (vars_read tokens.now.lexemes levels at) }
{
    let (names, behind) = read_names(alloc, tokens, at)?;
    let colon = read_sign(tokens, behind, ":")?;
    let (ty, last) = read_type(alloc, tokens, colon, levels)?;
    let end = read_sign(tokens, last, ";")?;
    let span = span_between(tokens, at, end);
    Ok((VarsTree { names, ty, span }, end))
}

/// The variables of a relation. A declaration takes a token at least, so there are no more than tokens are left.
#[tactic(auto, using(crate::proofs::LoopLaws::each_more, crate::proofs::LoopLaws::each_ends, crate::proofs::LoopLaws::each_full, crate::proofs::LoopLaws::each_halts))]
fn read_all_vars(
    alloc: Global,
    tokens: &Tokens<'_>,
    at: usize,
    levels: usize,
) -> Result<(Seq<VarsTree>, usize), Halt>
    ensures { Gives result (all_vars_read tokens.now.lexemes levels at) }
{
    let mut all = Seq::new(alloc);
    let mut end = at;
    for _step in at..tokens.len() {
        if !is_name_at(tokens, end) {
            return Ok((all, end));
        }
        let (vars, next) = read_vars(alloc, tokens, end, levels)?;
        all.push(vars)?;
        end = next;
    }
    Ok((all, end))
}

/// Whether one more expression follows: a `;`, and no `}` behind it.
fn goes_on(tokens: &Tokens<'_>, at: usize) -> bool
    ensures goes { result ≡ goes tokens.now.lexemes at }
    ensures within { result ≡ true → at < usize.MAX }
{
    is_sign_at(tokens, at, ";") && !is_sign_at(tokens, at + 1, "}")
}

/// The expressions behind others, each with a `;` before it. An expression takes a token at least, so there are no more
/// than tokens are left.
#[tactic(auto, using(crate::proofs::LoopLaws::each_more, crate::proofs::LoopLaws::each_ends, crate::proofs::LoopLaws::each_full, crate::proofs::LoopLaws::each_halts))]
fn read_more_conjuncts(
    alloc: Global,
    tokens: &Tokens<'_>,
    exprs: Seq<Expr>,
    at: usize,
    levels: usize,
) -> Result<(Seq<Expr>, usize), Halt>
    ensures { Gives result (each_read (goes tokens.now.lexemes) (conjunct_read tokens.now.lexemes levels) (left tokens.now.lexemes at) exprs at) }
{
    let mut exprs = exprs;
    let mut end = at;
    for _step in at..tokens.len() {
        if !goes_on(tokens, end) {
            return Ok((exprs, end));
        }
        let (expr, next) = read_expression(alloc, tokens, end + 1, levels)?;
        exprs.push(expr)?;
        end = next;
    }
    Ok((exprs, end))
}

/// Behind a `;`, if it stands there.
fn behind_semicolon(tokens: &Tokens<'_>, at: usize) -> usize
    ensures { result ≡ behind (sign_stands tokens.now.lexemes (codes ";") at) at }
{
    if is_sign_at(tokens, at, ";") {
        at + 1
    } else {
        at
    }
}

/// Expressions with `;` between them, and behind them or not.
#[tactic(auto, unfolding(crate::specs::ScriptReadings::conjuncts_read))]
fn read_conjuncts(
    alloc: Global,
    tokens: &Tokens<'_>,
    at: usize,
    levels: usize,
) -> Result<(Seq<Expr>, usize), Halt>
    ensures { Gives result (conjuncts_read tokens.now.lexemes levels at) }
{
    let mut exprs = Seq::new(alloc);
    if is_sign_at(tokens, at, "}") {
        return Ok((exprs, at));
    }
    let (expr, next) = read_expression(alloc, tokens, at, levels)?;
    exprs.push(expr)?;
    let (exprs, end) = read_more_conjuncts(alloc, tokens, exprs, next, levels)?;
    Ok((exprs, behind_semicolon(tokens, end)))
}

/// `{ expressions }`
#[tactic(auto, unfolding(crate::specs::ScriptReadings::block_read))]
fn read_block(
    alloc: Global,
    tokens: &Tokens<'_>,
    at: usize,
    levels: usize,
) -> Result<(BlockTree, usize), Halt>
    ensures { Gives result (block_read tokens.now.lexemes levels at) }
{
    let inside = read_opening(tokens, at, levels, "{")?;
    let (exprs, close) = read_conjuncts(alloc, tokens, inside, levels - 1)?;
    let end = read_sign(tokens, close, "}")?;
    let span = span_between(tokens, at, end);
    Ok((BlockTree { exprs, span }, end))
}

/// A when or a where clause, if its word stands there.
#[tactic(auto, unfolding(crate::specs::ScriptReadings::clause_read))]
fn read_clause(
    alloc: Global,
    tokens: &Tokens<'_>,
    at: usize,
    levels: usize,
    word: &str,
) -> Result<(Option<BlockTree>, usize), Halt>
    ensures { Gives result (clause_read tokens.now.lexemes word.now levels at) }
{
    if is_word_at(tokens, at, word) {
        let (block, end) = read_block(alloc, tokens, at + 1, levels)?;
        return Ok((Some(block), end));
    }
    Ok((None, at))
}

/// What stands between the braces of a relation.
#[derive(Drop)]
struct Body {
    vars: Seq<VarsTree>,
    domains: Seq<DomainTree>,
    when: Option<BlockTree>,
    wheres: Option<BlockTree>,
}

/// What stands between the braces of a relation.
#[tactic(auto, unfolding(crate::specs::ScriptReadings::body_read))]
fn read_body(
    alloc: Global,
    tokens: &Tokens<'_>,
    at: usize,
    levels: usize,
) -> Result<(Body, usize), Halt>
    ensures { Gives result (body_read tokens.now.lexemes levels at) }
{
    let (vars, first) = read_all_vars(alloc, tokens, at, levels)?;
    let (domains, second) = read_domains(alloc, tokens, first, levels)?;
    let (when, third) = read_clause(alloc, tokens, second, levels, "when")?;
    let (wheres, end) = read_clause(alloc, tokens, third, levels, "where")?;
    let body = Body {
        vars,
        domains,
        when,
        wheres,
    };
    Ok((body, end))
}

/// Behind the word `top`, if it stands there.
fn behind_top(tokens: &Tokens<'_>, at: usize) -> usize
    ensures { result ≡ behind (word_stands tokens.now.lexemes (codes "top") at) at }
{
    if is_word_at(tokens, at, "top") {
        at + 1
    } else {
        at
    }
}

/// A relation (QVT 1.3, section 7.11.1.4).
#[tactic(auto, unfolding(crate::specs::ScriptReadings::relation_read))]
pub(crate) fn read_relation(
    alloc: Global,
    tokens: &Tokens<'_>,
    at: usize,
    levels: usize,
) -> Result<(RelationTree, usize), Halt>
    ensures { Gives result (relation_read tokens.now.lexemes levels at) }
{
    let first = read_word(tokens, behind_top(tokens, at), "relation")?;
    let (name, brace) = read_name(alloc, tokens, first)?;
    let inside = read_opening(tokens, brace, levels, "{")?;
    let (body, close) = read_body(alloc, tokens, inside, levels - 1)?;
    let end = read_sign(tokens, close, "}")?;
    let Body {
        vars,
        domains,
        when,
        wheres,
    } = body;
    let relation = RelationTree {
        top: is_word_at(tokens, at, "top"),
        name,
        vars,
        domains,
        when,
        wheres,
        span: span_between(tokens, at, end),
    };
    Ok((relation, end))
}
