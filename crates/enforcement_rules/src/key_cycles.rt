//! E8: the variables in key values depend on each other without a cycle (QVT 1.3, section 7.10.2).
ghost use Rattle.std.specs.Prelude.{◌≡◌, ◌↔◌, ◌++◌, ◌<◌, ◌||◌, ℕ, List, Some, map, length, nat_eq, AllPairs, IfOk, OnOk, IsTrue};
ghost use Rattle.mof_metamodel.specs.Metamodels.{prop_count};
ghost use Rattle.mof_metamodel.specs.Tables.{prop_numbers};
ghost use Rattle.ocl_environments.specs.Environments.{meta_at};
ghost use Rattle.qv_syntax.specs.declared.program.ItemValue.{out-ItemValue};
ghost use Rattle.qv_syntax.specs.Keys.{AreOfTwoClasses};
ghost use Rattle.enforcement_rules.specs.declared.standing.Place.{Place};
ghost use Rattle.enforcement_rules.specs.KeyCycles.{is_new, value_variables, new_variables, item_variables, given_parent, parent_variable, key_variables, template_variables, template_edges, key_edges};
ghost use Rattle.enforcement_rules.specs.Keys.{HasKeyCycle};
ghost use Rattle.enforcement_rules.specs.KeyTests.{item_props, AreKeyNumbers, IsKeyTable, HaveVariables};
ghost use Rattle.enforcement_rules.specs.Mentions.{variables_of};
ghost use Rattle.enforcement_rules.specs.NumberSets.{is_among, has};
ghost use Rattle.enforcement_rules.specs.PatternTests.{AreSound, IsSound};
ghost use Rattle.enforcement_rules.specs.Standings.{shown_standing, AreTargetTemplates};
ghost use Rattle.enforcement_rules.specs.TargetParts.{target_meta};
ghost use Rattle.enforcement_rules.specs.Tasks.{IsRelationOf};

use crate::class_key::ClassKey;
use crate::edges::{put_edges_from, rows_of};
use crate::keys::{is_made, key_of, key_props, opposite_at};
use crate::number_set::NumberSet;
use crate::standing::{Place, Standing};
use crate::task::Task;
use crate::variables::variables_of;
use call_graph::find_cycle;
use mof_metamodel::{NoMemory, PropId, Seq};
use qv_syntax::{Item, ItemValue, Typed};
use std::alloc::Global;

// ---- items

/// Puts numbers behind others.
fn append(numbers: &[u32], out: &mut Seq<u32>) -> Result<(), NoMemory>
    ensures { OnOk result (out.new ≡ out.old ++ numbers.now) }
{
    for n in numbers {
        out.push(*n)?;
    }
    Ok(())
}

/// The variables that an expression names.
fn put_expression(task: &Task<'_>, e: &Typed, out: &mut Seq<u32>) -> Result<(), NoMemory>
    ensures { OnOk result (out.new ≡ out.old ++ variables_of (length task.now.rel.now.vars) e.now) }
{
    let variables = variables_of(task.alloc, task.rel.vars.len(), e)?;
    append(variables.as_slice(), out)
}

/// The variables of an item's value.
fn put_value(task: &Task<'_>, value: &ItemValue, out: &mut Seq<u32>) -> Result<(), NoMemory>
    ensures { OnOk result (out.new ≡ out.old ++ value_variables (length task.now.rel.now.vars) (out-ItemValue value.now)) }
{
    match value {
        ItemValue::Null => Ok(()),
        ItemValue::Expr { value } => put_expression(task, value, out),
        ItemValue::Nested { template } => out.push(template.var),
    }
}

/// Whether a property is asked for and no item before gives it.
fn is_new(asked: &NumberSet, taken: &NumberSet, p: u32) -> bool
    ensures { result ≡ is_new (has asked.now) (has taken.now) p }
{
    asked.contains(p) && !taken.contains(p)
}

/// The variables of an item's value, if its property is new.
fn put_new(
    task: &Task<'_>,
    asked: &NumberSet,
    taken: &NumberSet,
    item: &Item,
    out: &mut Seq<u32>,
) -> Result<(), NoMemory>
    ensures { OnOk result (out.new ≡ out.old ++ new_variables (length task.now.rel.now.vars) (has asked.now) (has taken.now) item.now) }
{
    if is_new(asked, taken, item.prop.0) {
        return put_value(task, &item.value, out);
    }
    Ok(())
}

/// The same; the property is then taken.
fn put_item(
    task: &Task<'_>,
    asked: &NumberSet,
    taken: &mut NumberSet,
    item: &Item,
    out: &mut Seq<u32>,
) -> Result<(), NoMemory>
    ensures out { OnOk result (out.new ≡ out.old ++ new_variables (length task.now.rel.now.vars) (has asked.now) (has taken.old) item.now) }
    ensures taken { OnOk result ((q : ℕ) → has taken.new q ≡ (nat_eq q item.now.prop.0 || has taken.old q)) }
{
    put_new(task, asked, taken, item, out)?;
    taken.put(item.prop.0)
}

/// The variables of the first items at the properties that are asked for.
fn put_items(
    task: &Task<'_>,
    asked: &NumberSet,
    taken: &mut NumberSet,
    items: &[Item],
    out: &mut Seq<u32>,
) -> Result<(), NoMemory>
    ensures out { OnOk result (out.new ≡ out.old ++ item_variables (length task.now.rel.now.vars) (has asked.now) (has taken.old) items.now) }
    ensures taken { OnOk result ((q : ℕ) → has taken.new q ≡ (has taken.old q || is_among (item_props items.now) q)) }
{
    for item in items {
        put_item(task, asked, taken, item, out)?;
    }
    Ok(())
}

// ---- the parent

/// The parent's variable, if the property is new.
fn put_given(
    asked: &NumberSet,
    taken: &NumberSet,
    parent: u32,
    p: u32,
    out: &mut Seq<u32>,
) -> Result<(), NoMemory>
    ensures { OnOk result (out.new ≡ out.old ++ given_parent (has asked.now) (has taken.now) parent p) }
{
    if is_new(asked, taken, p) {
        return out.push(parent);
    }
    Ok(())
}

/// The parent's variable, if the opposite of its property is new.
fn put_parent(
    task: &Task<'_>,
    asked: &NumberSet,
    taken: &NumberSet,
    at: Option<Place>,
    out: &mut Seq<u32>,
) -> Result<(), NoMemory>
    requires meta { task.now.meta < length task.now.metas.now }
    requires place { (place : Place) → at ≡ Some place → place.prop.0 < prop_count (meta_at task.now.metas.now task.now.meta) }
    ensures { OnOk result (out.new ≡ out.old ++ parent_variable (meta_at task.now.metas.now task.now.meta) (has asked.now) (has taken.now) at) }
{
    match at {
        Some(place) => match opposite_at(task, at) {
            Some(p) => put_given(asked, taken, place.parent, p.0, out),
            None => Ok(()),
        },
        None => Ok(()),
    }
}

// ---- templates

/// The numbers of properties.
fn put_numbers(props: &[PropId], out: &mut Seq<u32>) -> Result<(), NoMemory>
    ensures { OnOk result (out.new ≡ out.old ++ prop_numbers props.now) }
{
    for p in props {
        out.push(p.0)?;
    }
    Ok(())
}

/// The same as a set.
fn numbers_of(alloc: Global, props: &[PropId]) -> Result<NumberSet, NoMemory>
    ensures { IfOk result (λ set. (q : ℕ) → has set q ≡ is_among (prop_numbers props.now) q) }
{
    let mut numbers = Seq::new(alloc);
    put_numbers(props, &mut numbers)?;
    NumberSet::of(alloc, numbers.as_slice())
}

/// The variables in the key values of a template.
fn key_variables(
    task: &Task<'_>,
    key: ClassKey,
    standing: &Standing<'_>,
) -> Result<Seq<u32>, NoMemory>
    requires meta { task.now.meta < length task.now.metas.now }
    requires sound { IsSound (meta_at task.now.metas.now task.now.meta) (shown_standing standing.now) }
    requires number { key.key < length task.now.program.now.keys }
    ensures { IfOk result (λ out. out ≡ key_variables task.now.metas.now task.now.program.now task.now.rel.now task.now.meta (shown_standing standing.now) key) }
{
    let asked = numbers_of(task.alloc, key_props(task.program, key))?;
    let mut taken = NumberSet::new(task.alloc);
    let mut out = Seq::new(task.alloc);
    put_items(
        task,
        &asked,
        &mut taken,
        standing.template.items.as_slice(),
        &mut out,
    )?;
    put_parent(task, &asked, &taken, standing.at, &mut out)?;
    Ok(out)
}

/// The same, if the relation makes the template's objects.
fn template_variables(
    task: &Task<'_>,
    existential: &NumberSet,
    standing: &Standing<'_>,
) -> Result<Seq<u32>, NoMemory>
    requires meta { task.now.meta < length task.now.metas.now }
    requires sound { IsSound (meta_at task.now.metas.now task.now.meta) (shown_standing standing.now) }
    requires keys { AreKeyNumbers task.now.program.now task.now.keys.now }
    ensures { IfOk result (λ out. out ≡ template_variables task.now.metas.now task.now.program.now task.now.rel.now task.now.meta task.now.keys.now (has existential.now) (shown_standing standing.now)) }
{
    if !is_made(task, existential, standing) {
        return Ok(Seq::new(task.alloc));
    }
    match key_of(task.keys, standing.template.class) {
        Some(key) => key_variables(task, key, standing),
        None => Ok(Seq::new(task.alloc)),
    }
}

/// Edges from the variable of a template to those in its key values.
fn put_template(
    task: &Task<'_>,
    existential: &NumberSet,
    standing: &Standing<'_>,
    edges: &mut Seq<(u32, u32)>,
) -> Result<(), NoMemory>
    requires meta { task.now.meta < length task.now.metas.now }
    requires sound { IsSound (meta_at task.now.metas.now task.now.meta) (shown_standing standing.now) }
    requires keys { AreKeyNumbers task.now.program.now task.now.keys.now }
    ensures { OnOk result (edges.new ≡ edges.old ++ template_edges task.now.metas.now task.now.program.now task.now.rel.now task.now.meta task.now.keys.now (has existential.now) (shown_standing standing.now)) }
{
    let variables = template_variables(task, existential, standing)?;
    put_edges_from(standing.template.var, variables.as_slice(), edges)
}

/// The same of all templates.
fn key_edges(
    task: &Task<'_>,
    existential: &NumberSet,
    templates: &[Standing<'_>],
) -> Result<Seq<(u32, u32)>, NoMemory>
    requires meta { task.now.meta < length task.now.metas.now }
    requires sound { AreSound (meta_at task.now.metas.now task.now.meta) (map shown_standing templates.now) }
    requires keys { AreKeyNumbers task.now.program.now task.now.keys.now }
    ensures { IfOk result (λ edges. edges ≡ key_edges task.now.metas.now task.now.program.now task.now.rel.now task.now.meta task.now.keys.now (has existential.now) (map shown_standing templates.now)) }
{
    let mut edges = Seq::new(task.alloc);
    for standing in templates {
        put_template(task, existential, standing, &mut edges)?;
    }
    Ok(edges)
}

/// E8, broken: whether variables in key values depend on each other in a cycle.
pub(crate) fn has_key_cycle(
    task: &Task<'_>,
    existential: &NumberSet,
    templates: &[Standing<'_>],
) -> Result<bool, NoMemory>
    requires meta { task.now.meta < length task.now.metas.now }
    requires target { task.now.meta ≡ target_meta task.now.program.now }
    requires relation { IsRelationOf task.now.metas.now task.now.program.now task.now.rel.now }
    requires one { AllPairs AreOfTwoClasses task.now.program.now.keys }
    requires templates { AreTargetTemplates task.now.program.now task.now.rel.now (map shown_standing templates.now) }
    requires sound { AreSound (meta_at task.now.metas.now task.now.meta) (map shown_standing templates.now) }
    requires variables { HaveVariables task.now.rel.now (map shown_standing templates.now) }
    requires existential { (q : ℕ) → has existential.now q ≡ is_among task.now.rel.now.existential q }
    requires numbers { AreKeyNumbers task.now.program.now task.now.keys.now }
    requires keys { IsKeyTable task.now.metas.now task.now.program.now task.now.keys.now }
    ensures { IfOk result (λ b. IsTrue b ↔ HasKeyCycle task.now.metas.now task.now.program.now task.now.rel.now) }
{
    let edges = key_edges(task, existential, templates)?;
    let rows = rows_of(task.alloc, task.rel.vars.len(), edges.as_slice())?;
    let found = find_cycle(task.alloc, rows.as_slice())?;
    Ok(found.is_some())
}
