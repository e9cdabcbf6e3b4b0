//! E2: what the expressions of a relation may not say of the target (QVT 1.3, sections 7.10.2 and 7.11.1.4).
ghost use Rattle.std.specs.Prelude.{◌≡◌, ◌↔◌, ◌||◌, true, map, IfOk, IsTrue};
ghost use Rattle.std.specs.List.{list_any};
ghost use Rattle.enforcement_rules.specs.Mentions.{mentions_in};
ghost use Rattle.enforcement_rules.specs.Standings.{shown_standing};
ghost use Rattle.enforcement_rules.specs.Expressions.{TouchesTarget};
ghost use Rattle.enforcement_rules.specs.ReaderTests.{AreReaders};
ghost use Rattle.enforcement_rules.specs.TargetParts.{target_meta};
ghost use Rattle.enforcement_rules.specs.ExpressionTests.{variable_alone, is_touch, touches, item_touches, template_touches, conjunct_touches, touches_target};
ghost use Rattle.qv_syntax.specs.declared.typed.Node.{out-Node};

use crate::known::is_marked;
use crate::mention::Mention;
use crate::mentions::mentions;
use crate::readers::is_of_meta;
use crate::standing::Standing;
use crate::target::is_target_variable;
use crate::task::Task;
use crate::templates::all_templates;
use mof_metamodel::NoMemory;
use qv_syntax::{Conj, Item, ItemValue, Node, Typed};

/// The variable that the expression is.
pub(crate) fn variable_alone(e: &Typed) -> Option<u32>
    ensures { result ≡ variable_alone (out-Node e.now.node) }
{
    match &e.node {
        Node::Variable { number } => Some(*number),
        _ => None,
    }
}

/// Whether what is named is of the target. A variable may stand alone in some places.
fn is_touch(task: &Task<'_>, may_stand: bool, mention: Mention) -> bool
    ensures { result ≡ is_touch task.now.program.now task.now.rel.now task.now.meta task.now.readers.now may_stand mention }
{
    match mention {
        Mention::Variable(v) => !may_stand && is_target_variable(task.program, task.rel, v),
        Mention::Query(q) => is_marked(task.readers, q),
        Mention::Extent(model) => is_of_meta(task.program, task.meta, model),
    }
}

/// Whether one of the mentions is of the target.
fn any_touch(task: &Task<'_>, may_stand: bool, found: &[Mention]) -> bool
    ensures { result ≡ list_any (is_touch task.now.program.now task.now.rel.now task.now.meta task.now.readers.now may_stand) found.now }
{
    for mention in found {
        if is_touch(task, may_stand, *mention) {
            return true;
        }
    }
    false
}

/// Whether an expression says something of the target. In some places a variable may stand alone.
fn touches(task: &Task<'_>, in_object_place: bool, e: &Typed) -> Result<bool, NoMemory>
    ensures { IfOk result (λ b. b ≡ touches task.now.program.now task.now.rel.now task.now.meta task.now.readers.now in_object_place e.now) }
{
    let found = mentions(task.alloc, e)?;
    let may_stand = in_object_place && variable_alone(e).is_some();
    Ok(any_touch(task, may_stand, found.as_slice()))
}

/// The same of an item's value.
fn item_touches(task: &Task<'_>, item: &Item) -> Result<bool, NoMemory>
    ensures { IfOk result (λ b. b ≡ item_touches task.now.program.now task.now.rel.now task.now.meta task.now.readers.now item.now) }
{
    match &item.value {
        ItemValue::Expr { value } => touches(task, true, value),
        ItemValue::Null | ItemValue::Nested { .. } => Ok(false),
    }
}

/// The same of items.
fn items_touch(task: &Task<'_>, items: &[Item]) -> Result<bool, NoMemory>
    ensures { IfOk result (λ b. b ≡ list_any (item_touches task.now.program.now task.now.rel.now task.now.meta task.now.readers.now) items.now) }
{
    for item in items {
        if item_touches(task, item)? {
            return Ok(true);
        }
    }
    Ok(false)
}

/// The same of the items of templates.
fn templates_touch(task: &Task<'_>, templates: &[Standing<'_>]) -> Result<bool, NoMemory>
    ensures { IfOk result (λ b. b ≡ list_any (template_touches task.now.program.now task.now.rel.now task.now.meta task.now.readers.now) (map shown_standing templates.now)) }
{
    for standing in templates {
        if items_touch(task, standing.template.items.as_slice())? {
            return Ok(true);
        }
    }
    Ok(false)
}

/// The same of the arguments of a call.
fn args_touch(task: &Task<'_>, args: &[Typed]) -> Result<bool, NoMemory>
    ensures { IfOk result (λ b. b ≡ list_any (touches task.now.program.now task.now.rel.now task.now.meta task.now.readers.now true) args.now) }
{
    for e in args {
        if touches(task, true, e)? {
            return Ok(true);
        }
    }
    Ok(false)
}

/// The same of a conjunct.
fn conjunct_touches(task: &Task<'_>, conjunct: &Conj) -> Result<bool, NoMemory>
    ensures { IfOk result (λ b. b ≡ conjunct_touches task.now.program.now task.now.rel.now task.now.meta task.now.readers.now conjunct.now) }
{
    match conjunct {
        Conj::Cond(e) => touches(task, false, e),
        Conj::Equation(_, e) => touches(task, false, e),
        Conj::Call(_, args) => args_touch(task, args.as_slice()),
    }
}

/// The same of a clause.
fn clause_touches(task: &Task<'_>, clause: &[Conj]) -> Result<bool, NoMemory>
    ensures { IfOk result (λ b. b ≡ list_any (conjunct_touches task.now.program.now task.now.rel.now task.now.meta task.now.readers.now) clause.now) }
{
    for conjunct in clause {
        if conjunct_touches(task, conjunct)? {
            return Ok(true);
        }
    }
    Ok(false)
}

/// The same of both clauses.
fn clauses_touch(task: &Task<'_>) -> Result<bool, NoMemory>
    ensures { IfOk result (λ b. b ≡ (list_any (conjunct_touches task.now.program.now task.now.rel.now task.now.meta task.now.readers.now) task.now.rel.now.whens
        || list_any (conjunct_touches task.now.program.now task.now.rel.now task.now.meta task.now.readers.now) task.now.rel.now.wheres)) }
{
    if clause_touches(task, task.rel.whens.as_slice())? {
        return Ok(true);
    }
    clause_touches(task, task.rel.wheres.as_slice())
}

/// The same of both clauses and of templates.
fn any_touches(task: &Task<'_>, templates: &[Standing<'_>]) -> Result<bool, NoMemory>
    ensures { IfOk result (λ b. b ≡ touches_target task.now.program.now task.now.rel.now task.now.meta task.now.readers.now (map shown_standing templates.now)) }
{
    if clauses_touch(task)? {
        return Ok(true);
    }
    templates_touch(task, templates)
}

/// E2, broken: whether an expression of the relation touches the target.
pub(crate) fn touches_target(task: &Task<'_>) -> Result<bool, NoMemory>
    requires meta { task.now.meta ≡ target_meta task.now.program.now }
    requires readers { AreReaders task.now.program.now task.now.readers.now }
    ensures { IfOk result (λ b. IsTrue b ↔ TouchesTarget task.now.program.now task.now.rel.now) }
{
    let templates = all_templates(task.alloc, task.rel)?;
    any_touches(task, templates.as_slice())
}
