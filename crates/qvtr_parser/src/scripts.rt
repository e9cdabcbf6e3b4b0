ghost use Rattle.std.specs.Prelude.{◌≡◌, [], ◌-◌, length, IfOk, Ok};
ghost use Rattle.qv_syntax.specs.declared.script.Script.{Script as AnyScript};
ghost use Rattle.ocl_parser.specs.Readings.{Gives};
ghost use Rattle.qvtr_parser.specs.Answers.{Answers, IsAnswered, Tells};
ghost use Rattle.qvtr_parser.specs.Grammar.{IsScript};
ghost use Rattle.qvtr_parser.specs.Lists.{each_read, left, more_read};
ghost use Rattle.qvtr_parser.specs.ScriptReadings.{begins_declaration as begins, declaration_read, declarations_read, model_read, models_read, script_read};

use crate::names::read_model;
use crate::queries::{read_key, read_query};
use crate::relations::read_relation;
use mof_metamodel::Seq;
use ocl_parser::{
    Halt, MAX_NESTING, ParseError, Stop, error_of, is_sign_at, is_word_at, read_name, read_opening,
    read_sign, read_word, span_between,
};
use ql_lex::Tokens;
use qv_syntax::{Declaration, ModelTree, Script};
use std::alloc::Global;

/// The models behind others, each with a comma before it. A model takes a token at least, so there are no more than tokens
/// are left.
#[tactic(auto, using(crate::proofs::LoopLaws::each_more, crate::proofs::LoopLaws::each_ends, crate::proofs::LoopLaws::each_full, crate::proofs::LoopLaws::each_halts))]
fn read_more_models(
    alloc: Global,
    tokens: &Tokens<'_>,
    models: Seq<ModelTree>,
    at: usize,
) -> Result<(Seq<ModelTree>, usize), Halt>
    ensures { Gives result (more_read tokens.now.lexemes (model_read tokens.now.lexemes) models at) }
{
    let mut models = models;
    let mut end = at;
    for _step in at..tokens.len() {
        if !is_sign_at(tokens, end, ",") {
            return Ok((models, end));
        }
        let (model, next) = read_model(alloc, tokens, end + 1)?;
        models.push(model)?;
        end = next;
    }
    Ok((models, end))
}

/// `( models )`
#[tactic(auto, unfolding(crate::specs::ScriptReadings::models_read))]
fn read_models(
    alloc: Global,
    tokens: &Tokens<'_>,
    at: usize,
    levels: usize,
) -> Result<(Seq<ModelTree>, usize), Halt>
    ensures { Gives result (models_read tokens.now.lexemes levels at) }
{
    let inside = read_opening(tokens, at, levels, "(")?;
    let (model, next) = read_model(alloc, tokens, inside)?;
    let mut models = Seq::new(alloc);
    models.push(model)?;
    let (models, close) = read_more_models(alloc, tokens, models, next)?;
    let end = read_sign(tokens, close, ")")?;
    Ok((models, end))
}

/// Whether a declaration begins with the token of this number.
fn begins_declaration(tokens: &Tokens<'_>, at: usize) -> bool
    ensures { result ≡ begins tokens.now.lexemes at }
{
    is_word_at(tokens, at, "key")
        || is_word_at(tokens, at, "query")
        || is_word_at(tokens, at, "top")
        || is_word_at(tokens, at, "relation")
}

/// A key, a query or a relation.
#[tactic(auto, unfolding(crate::specs::ScriptReadings::declaration_read))]
fn read_declaration(
    alloc: Global,
    tokens: &Tokens<'_>,
    at: usize,
    levels: usize,
) -> Result<(Declaration, usize), Halt>
    ensures { Gives result (declaration_read tokens.now.lexemes levels at) }
{
    if is_word_at(tokens, at, "key") {
        let (key, end) = read_key(alloc, tokens, at, levels)?;
        return Ok((Declaration::Key { key }, end));
    }
    if is_word_at(tokens, at, "query") {
        let (query, end) = read_query(alloc, tokens, at, levels)?;
        return Ok((Declaration::Query { query }, end));
    }
    let (relation, end) = read_relation(alloc, tokens, at, levels)?;
    Ok((Declaration::Relation { relation }, end))
}

/// The declarations of a transformation. A declaration takes a token at least, so there are no more than tokens are left.
#[tactic(auto, using(crate::proofs::LoopLaws::each_more, crate::proofs::LoopLaws::each_ends, crate::proofs::LoopLaws::each_full, crate::proofs::LoopLaws::each_halts))]
fn read_each_declaration(
    alloc: Global,
    tokens: &Tokens<'_>,
    at: usize,
    levels: usize,
) -> Result<(Seq<Declaration>, usize), Halt>
    ensures { Gives result (each_read (begins tokens.now.lexemes) (declaration_read tokens.now.lexemes levels) (left tokens.now.lexemes at) [] at) }
{
    let mut declarations = Seq::new(alloc);
    let mut end = at;
    for _step in at..tokens.len() {
        if !begins_declaration(tokens, end) {
            return Ok((declarations, end));
        }
        let (declaration, next) = read_declaration(alloc, tokens, end, levels)?;
        declarations.push(declaration)?;
        end = next;
    }
    Ok((declarations, end))
}

/// `{ declarations }`
#[tactic(auto, unfolding(crate::specs::ScriptReadings::declarations_read))]
fn read_declarations(
    alloc: Global,
    tokens: &Tokens<'_>,
    at: usize,
    levels: usize,
) -> Result<(Seq<Declaration>, usize), Halt>
    ensures { Gives result (declarations_read tokens.now.lexemes levels at) }
{
    let inside = read_opening(tokens, at, levels, "{")?;
    let (declarations, close) = read_each_declaration(alloc, tokens, inside, levels - 1)?;
    let end = read_sign(tokens, close, "}")?;
    Ok((declarations, end))
}

/// A script, where so many levels of nesting may be open, up to the end of the text.
#[tactic(auto, unfolding(crate::specs::ScriptReadings::script_read))]
fn read_script(alloc: Global, tokens: &Tokens<'_>, levels: usize) -> Result<(Script, usize), Halt>
    ensures { Gives result (script_read tokens.now.lexemes levels) }
{
    let first = read_word(tokens, 0, "transformation")?;
    let (name, paren) = read_name(alloc, tokens, first)?;
    let (models, brace) = read_models(alloc, tokens, paren, levels)?;
    let (declarations, end) = read_declarations(alloc, tokens, brace, levels)?;
    if tokens.len() != end {
        return Err(Halt::Stop(Stop::Stuck { at: end }));
    }
    let span = span_between(tokens, 0, end);
    let script = Script {
        name,
        models,
        declarations,
        span,
    };
    Ok((script, end))
}

/// What is answered of a script that nests to at most so many levels.
fn answer_of(alloc: Global, tokens: &Tokens<'_>, levels: usize) -> Result<Script, ParseError>
    ensures { Answers tokens.now (script_read tokens.now.lexemes levels) result }
{
    match read_script(alloc, tokens, levels) {
        Ok(found) => Ok(found.0),
        Err(halt) => Err(error_of(tokens, halt)),
    }
}

/// Reads a script (QVT 1.3, section 7.13, the concrete syntax).
///
/// # Errors
///
/// `Parse` at the start of the first token with which no script goes on, in bytes: some script begins with the tokens before
/// it, and none with those up to and with it; or at the end of the text, where tokens are missing there. `Limit` at the start
/// of the first token that opens a level past `MAX_NESTING`, if that comes before. And `NoMemory`.
pub fn parse_script(alloc: Global, tokens: &Tokens<'_>) -> Result<Script, ParseError>
    // What is answered is what reading the tokens answers, with the place of the token at which it stops.
    ensures reads { Answers tokens.now (script_read tokens.now.lexemes MAX_NESTING) result }
    // What is answered is spelled by all tokens.
    ensures found { IfOk result (λ s. IsScript tokens.now.lexemes s) }
    // A fault that is answered stands at the first token with which no script goes on, or that opens a level past the last.
    ensures tells { Tells tokens.now MAX_NESTING result }
    // What all tokens spell is answered, unless memory could not be had.
    ensures only { (s : AnyScript) → IsScript tokens.now.lexemes s → IsAnswered (Ok s) result }
{
    answer_of(alloc, tokens, MAX_NESTING)
}
