ghost use Rattle.std.specs.Prelude.{◌≡◌, ◌<◌, ◌-◌, length, slice_get};
ghost use Rattle.ocl_parser.specs.Readings.{Gives};
ghost use Rattle.qvtr_parser.specs.Lists.{more_read};
ghost use Rattle.qvtr_parser.specs.ScriptReadings.{begins_template as begins, item_read, items_read, nested_read, template_by, template_read, value_read};

use crate::exprs::read_expression;
use crate::names::is_name_at;
use mof_metamodel::Seq;
use ocl_parser::{Halt, is_sign_at, read_name, read_opening, read_path, read_sign, span_between};
use ql_lex::Tokens;
use qv_syntax::{ItemTree, ItemValueTree, TemplateTree};
use std::alloc::Global;

/// Whether a template begins here, behind the `=` of an item.
fn begins_template(tokens: &Tokens<'_>, at: usize) -> bool
    ensures { result ≡ begins tokens.now.lexemes at }
{
    is_sign_at(tokens, at, ":") || is_name_at(tokens, at) && is_sign_at(tokens, at + 1, ":")
}

/// A template with its variable or without.
#[cycle(read_template)]
fn read_nested(
    alloc: Global,
    tokens: &Tokens<'_>,
    at: usize,
    levels: usize,
) -> Result<(ItemValueTree, usize), Halt>
    ensures { Gives result (nested_read tokens.now.lexemes (template_read tokens.now.lexemes levels) at) }
{
    if is_sign_at(tokens, at, ":") {
        let (template, end) = read_template(alloc, tokens, at, levels)?;
        let variable = None;
        return Ok((ItemValueTree::Nested { variable, template }, end));
    }
    let (name, colon) = read_name(alloc, tokens, at)?;
    let (template, end) = read_template(alloc, tokens, colon, levels)?;
    let variable = Some(name);
    Ok((ItemValueTree::Nested { variable, template }, end))
}

/// What stands behind the `=` of an item.
#[cycle(read_template)]
fn read_value(
    alloc: Global,
    tokens: &Tokens<'_>,
    at: usize,
    levels: usize,
) -> Result<(ItemValueTree, usize), Halt>
    ensures { Gives result (value_read tokens.now.lexemes (template_read tokens.now.lexemes levels) levels at) }
{
    if begins_template(tokens, at) {
        return read_nested(alloc, tokens, at, levels);
    }
    let (value, end) = read_expression(alloc, tokens, at, levels)?;
    Ok((ItemValueTree::Expr { value }, end))
}

/// `prop = value`
#[cycle(read_template)]
#[tactic(auto, unfolding(crate::specs::ScriptReadings::item_by))]
fn read_item(
    alloc: Global,
    tokens: &Tokens<'_>,
    at: usize,
    levels: usize,
) -> Result<(ItemTree, usize), Halt>
    ensures { Gives result (item_read tokens.now.lexemes levels at) }
{
    let (prop, behind) = read_name(alloc, tokens, at)?;
    let equals = read_sign(tokens, behind, "=")?;
    let (value, end) = read_value(alloc, tokens, equals, levels)?;
    Ok((ItemTree { prop, value }, end))
}

/// The items behind others, each with a comma before it. An item takes a token at least, so there are no more than tokens
/// are left.
#[cycle(read_template)]
#[tactic(auto, using(crate::proofs::LoopLaws::each_more, crate::proofs::LoopLaws::each_ends, crate::proofs::LoopLaws::each_full, crate::proofs::LoopLaws::each_halts))]
fn read_more_items(
    alloc: Global,
    tokens: &Tokens<'_>,
    items: Seq<ItemTree>,
    at: usize,
    levels: usize,
) -> Result<(Seq<ItemTree>, usize), Halt>
    ensures { Gives result (more_read tokens.now.lexemes (item_read tokens.now.lexemes levels) items at) }
{
    let mut items = items;
    let mut end = at;
    for _step in at..tokens.len() {
        if !is_sign_at(tokens, end, ",") {
            return Ok((items, end));
        }
        let (item, next) = read_item(alloc, tokens, end + 1, levels)?;
        items.push(item)?;
        end = next;
    }
    Ok((items, end))
}

/// Items with commas between them, or none before `}`.
#[cycle(read_template)]
#[tactic(auto, unfolding(crate::specs::ScriptReadings::items_by))]
fn read_items(
    alloc: Global,
    tokens: &Tokens<'_>,
    at: usize,
    levels: usize,
) -> Result<(Seq<ItemTree>, usize), Halt>
    ensures { Gives result (items_read tokens.now.lexemes levels at) }
{
    let mut items = Seq::new(alloc);
    if is_sign_at(tokens, at, "}") {
        return Ok((items, at));
    }
    let (item, next) = read_item(alloc, tokens, at, levels)?;
    items.push(item)?;
    read_more_items(alloc, tokens, items, next, levels)
}

/// An object template behind its variable, with items where a level is left.
#[cycle(read_template)]
fn read_braces(
    alloc: Global,
    tokens: &Tokens<'_>,
    at: usize,
    levels: usize,
) -> Result<(TemplateTree, usize), Halt>
    ensures { Gives result (template_by tokens.now.lexemes (items_read tokens.now.lexemes (levels - 1)) levels at) }
{
    let colon = read_sign(tokens, at, ":")?;
    let (class, brace) = read_path(alloc, tokens, colon)?;
    let inside = read_opening(tokens, brace, levels, "{")?;
    let (items, close) = read_items(alloc, tokens, inside, levels - 1)?;
    let end = read_sign(tokens, close, "}")?;
    let span = span_between(tokens, at, end);
    Ok((TemplateTree { class, items, span }, end))
}

/// An object template behind its variable, `: class { items }` (QVT 1.3, section 7.11.2.2), where so many levels of nesting
/// are left.
#[cycle(read_template)]
pub(crate) fn read_template(
    alloc: Global,
    tokens: &Tokens<'_>,
    at: usize,
    levels: usize,
) -> Result<(TemplateTree, usize), Halt>
    ensures { Gives result (template_read tokens.now.lexemes levels at) }
{
    read_braces(alloc, tokens, at, levels)
}
