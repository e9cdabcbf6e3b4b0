ghost use Rattle.std.specs.Prelude.{◌≡◌, ◌-◌, length};
ghost use Rattle.ocl_parser.specs.Readings.{Gives};
ghost use Rattle.qvtr_parser.specs.Lists.{each_read, left};
ghost use Rattle.qvtr_parser.specs.ScriptReadings.{begins_domain as begins, domain_read, domains_read, is_marked as marked, mark_at as mark_of, pattern_read, primitive_read, behind_if as behind};

use crate::templates::read_template;
use mof_metamodel::Seq;
use ocl_parser::{Halt, is_word_at, read_name, read_sign, read_type, read_word, span_between};
use ql_lex::Tokens;
use qv_syntax::{DomainMark, DomainTree};
use std::alloc::Global;

/// How the domain is marked that begins with the token of this number.
fn mark_at(tokens: &Tokens<'_>, at: usize) -> Option<DomainMark>
    ensures { result ≡ mark_of tokens.now.lexemes at }
{
    if is_word_at(tokens, at, "checkonly") {
        Some(DomainMark::Checkonly)
    } else if is_word_at(tokens, at, "enforce") {
        Some(DomainMark::Enforce)
    } else {
        None
    }
}

/// Behind the mark of a domain, if it has one.
fn behind_mark(tokens: &Tokens<'_>, at: usize) -> usize
    ensures { result ≡ behind (marked tokens.now.lexemes at) at }
{
    if is_word_at(tokens, at, "checkonly") || is_word_at(tokens, at, "enforce") {
        at + 1
    } else {
        at
    }
}

/// A domain of a model.
#[tactic(auto, unfolding(crate::specs::ScriptReadings::pattern_read))]
fn read_pattern(
    alloc: Global,
    tokens: &Tokens<'_>,
    at: usize,
    levels: usize,
) -> Result<(DomainTree, usize), Halt>
    ensures { Gives result (pattern_read tokens.now.lexemes levels at) }
{
    let mark = mark_at(tokens, at);
    let first = read_word(tokens, behind_mark(tokens, at), "domain")?;
    let (model, second) = read_name(alloc, tokens, first)?;
    let (root, colon) = read_name(alloc, tokens, second)?;
    let (template, behind) = read_template(alloc, tokens, colon, levels)?;
    let end = read_sign(tokens, behind, ";")?;
    let span = span_between(tokens, at, end);
    let domain = DomainTree::Pattern {
        mark,
        model,
        root,
        template,
        span,
    };
    Ok((domain, end))
}

/// A primitive domain.
#[tactic(auto, unfolding(crate::specs::ScriptReadings::primitive_read))]
fn read_primitive(
    alloc: Global,
    tokens: &Tokens<'_>,
    at: usize,
    levels: usize,
) -> Result<(DomainTree, usize), Halt>
    ensures { Gives result (primitive_read tokens.now.lexemes levels at) }
{
    let first = read_word(tokens, at, "primitive")?;
    let second = read_word(tokens, first, "domain")?;
    let (root, behind) = read_name(alloc, tokens, second)?;
    let colon = read_sign(tokens, behind, ":")?;
    let (ty, last) = read_type(alloc, tokens, colon, levels)?;
    let end = read_sign(tokens, last, ";")?;
    let span = span_between(tokens, at, end);
    let domain = DomainTree::Primitive { root, ty, span };
    Ok((domain, end))
}

/// A domain (QVT 1.3, section 7.11.1.6).
fn read_domain(
    alloc: Global,
    tokens: &Tokens<'_>,
    at: usize,
    levels: usize,
) -> Result<(DomainTree, usize), Halt>
    ensures { Gives result (domain_read tokens.now.lexemes levels at) }
{
    if is_word_at(tokens, at, "primitive") {
        read_primitive(alloc, tokens, at, levels)
    } else {
        read_pattern(alloc, tokens, at, levels)
    }
}

/// Whether a domain begins with the token of this number.
fn begins_domain(tokens: &Tokens<'_>, at: usize) -> bool
    ensures { result ≡ begins tokens.now.lexemes at }
{
    is_word_at(tokens, at, "checkonly")
        || is_word_at(tokens, at, "enforce")
        || is_word_at(tokens, at, "domain")
        || is_word_at(tokens, at, "primitive")
}

/// The domains behind others. A domain takes a token at least, so there are no more than tokens are left.
#[tactic(auto, using(crate::proofs::LoopLaws::each_more, crate::proofs::LoopLaws::each_ends, crate::proofs::LoopLaws::each_full, crate::proofs::LoopLaws::each_halts))]
fn read_more_domains(
    alloc: Global,
    tokens: &Tokens<'_>,
    domains: Seq<DomainTree>,
    at: usize,
    levels: usize,
) -> Result<(Seq<DomainTree>, usize), Halt>
    ensures { Gives result (each_read (begins tokens.now.lexemes) (domain_read tokens.now.lexemes levels) (left tokens.now.lexemes at) domains at) }
{
    let mut domains = domains;
    let mut end = at;
    for _step in at..tokens.len() {
        if !begins_domain(tokens, end) {
            return Ok((domains, end));
        }
        let (domain, next) = read_domain(alloc, tokens, end, levels)?;
        domains.push(domain)?;
        end = next;
    }
    Ok((domains, end))
}

/// The domains of a relation, at least one.
#[tactic(auto, unfolding(crate::specs::ScriptReadings::domains_read))]
pub(crate) fn read_domains(
    alloc: Global,
    tokens: &Tokens<'_>,
    at: usize,
    levels: usize,
) -> Result<(Seq<DomainTree>, usize), Halt>
    ensures { Gives result (domains_read tokens.now.lexemes levels at) }
{
    let (domain, next) = read_domain(alloc, tokens, at, levels)?;
    let mut domains = Seq::new(alloc);
    domains.push(domain)?;
    read_more_domains(alloc, tokens, domains, next, levels)
}
