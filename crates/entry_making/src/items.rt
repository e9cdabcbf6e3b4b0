//! The items of the target template of a relation, in the order of the text.
ghost use Rattle.std.specs.Prelude.{◌≡◌, ◌++◌, ◌∷◌, map, OnOk, IfOk};
ghost use Rattle.std.specs.List.{flat_map};
ghost use Rattle.std.specs.Option.{option_copied, option_and_then};
ghost use Rattle.qvtr_semantics.specs.Bindings.{is_target_domain};
ghost use Rattle.repair_semantics.specs.TargetItems.{parts, target_domain, target_items};
ghost use Rattle.entry_making.specs.Items.{shown_content, shown_item, item_parts, value_part};

use crate::content::{Content, OwnedItem};
use mof_metamodel::{NoMemory, Seq};
use qv_syntax::{Dom, Item, ItemValue, Program, Rel, Tmpl};
use std::alloc::Global;

/// What an item puts into its slot.
fn content_of(value: &ItemValue) -> Content<'_>
    ensures { shown_content result ≡ (value_part value.now).content }
{
    match value {
        ItemValue::Null => Content::Empty,
        ItemValue::Expr { value } => Content::Expression(value),
        ItemValue::Nested { template } => Content::Template(template.var),
    }
}

/// Puts the items of a template behind others, and those of the templates within.
#[cycle(items)]
fn put_template<'p>(template: &'p Tmpl, out: &mut Seq<OwnedItem<'p>>) -> Result<(), NoMemory>
    ensures { OnOk result (map shown_item out.new ≡ map shown_item out.old ++ (parts template.now).items) }
{
    put_items(template.var, template.items.as_slice(), out)
}

/// The same of the items of the template of a variable.
#[cycle(items)]
fn put_items<'p>(
    owner: u32,
    items: &'p [Item],
    out: &mut Seq<OwnedItem<'p>>,
) -> Result<(), NoMemory>
    ensures { OnOk result (map shown_item out.new ≡ map shown_item out.old ++ flat_map (λ part. part owner) (map item_parts items.now)) }
{
    for item in items {
        put_item(owner, item, out)?;
    }
    Ok(())
}

/// The same of an item.
#[cycle(items)]
fn put_item<'p>(owner: u32, item: &'p Item, out: &mut Seq<OwnedItem<'p>>) -> Result<(), NoMemory>
    ensures { OnOk result (map shown_item out.new ≡ map shown_item out.old ++ item_parts item.now owner) }
{
    out.push(OwnedItem {
        owner,
        prop: item.prop,
        content: content_of(&item.value),
    })?;
    put_within(&item.value, out)
}

/// The same of the template that is the value of an item, if it is one.
#[cycle(items)]
fn put_within<'p>(value: &'p ItemValue, out: &mut Seq<OwnedItem<'p>>) -> Result<(), NoMemory>
    ensures { OnOk result (map shown_item out.new ≡ map shown_item out.old ++ (value_part value.now).within) }
{
    match value {
        ItemValue::Null | ItemValue::Expr { .. } => Ok(()),
        ItemValue::Nested { template } => put_template(template, out),
    }
}

/// Whether the domain is one of the target model.
fn is_target_domain(program: &Program, dom: &Dom) -> bool
    ensures { result ≡ is_target_domain program.now dom.now }
{
    match dom.model {
        Some(model) => model == program.target,
        None => false,
    }
}

/// The domain of the target model, if there is one.
pub(crate) fn target_domain<'p>(program: &Program, rel: &'p Rel) -> Option<&'p Dom>
    ensures { option_copied result ≡ target_domain program.now rel.now }
{
    for dom in rel.domains.as_slice() {
        if is_target_domain(program, dom) {
            return Some(dom);
        }
    }
    None
}

/// The template of a domain, if there is one.
fn template_of(dom: Option<&Dom>) -> Option<&Tmpl>
    ensures { option_copied result ≡ option_and_then (λ d. d.template) (option_copied dom.entry) }
{
    match dom {
        Some(dom) => dom.template.as_ref(),
        None => None,
    }
}

/// The items of the target template of a relation, in the order of the text.
pub(crate) fn target_items<'p>(
    alloc: Global,
    program: &Program,
    rel: &'p Rel,
) -> Result<Seq<OwnedItem<'p>>, NoMemory>
    ensures { IfOk result (λ items. map shown_item items ≡ target_items program.now rel.now) }
{
    let mut items = Seq::new(alloc);
    match template_of(target_domain(program, rel)) {
        Some(template) => put_template(template, &mut items)?,
        None => {}
    }
    Ok(items)
}
