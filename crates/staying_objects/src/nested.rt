//! The variables of the target template of a relation.
ghost use Rattle.std.specs.Prelude.{◌≡◌, ◌++◌, IfOk, OnOk};
ghost use Rattle.std.specs.List.{find, flat_map};
ghost use Rattle.std.specs.Option.{option_copied};
ghost use Rattle.qvtr_semantics.specs.Bindings.{is_target_domain};
ghost use Rattle.repair_semantics.specs.TargetItems.{parts, target_domain, nested_variables};
ghost use Rattle.repair_semantics.specs.Deletions.{root_if_top};
ghost use Rattle.staying_objects.specs.Nested.{variables_in, value_variables, item_variables, root_if, variables_within};

use mof_metamodel::{NoMemory, Seq};
use qv_syntax::{Dom, Item, ItemValue, Program, Rel, Tmpl};
use std::alloc::Global;

/// Puts the variables of the templates within a template behind others, in the order of the text.
#[cycle(nested)]
fn put_template(template: &Tmpl, out: &mut Seq<u32>) -> Result<(), NoMemory>
    ensures { OnOk result (out.new ≡ out.old ++ variables_in (parts template.now).items) }
{
    put_items(template.items.as_slice(), out)
}

/// The same of items.
#[cycle(nested)]
fn put_items(items: &[Item], out: &mut Seq<u32>) -> Result<(), NoMemory>
    ensures { OnOk result (out.new ≡ out.old ++ flat_map item_variables items.now) }
{
    for item in items {
        put_value(&item.value, out)?;
    }
    Ok(())
}

/// The same of the template that is the value of an item, if it is one, its own variable first.
#[cycle(nested)]
fn put_value(value: &ItemValue, out: &mut Seq<u32>) -> Result<(), NoMemory>
    ensures { OnOk result (out.new ≡ out.old ++ value_variables value.now) }
{
    match value {
        ItemValue::Null | ItemValue::Expr { .. } => Ok(()),
        ItemValue::Nested { template } => {
            out.push(template.var)?;
            put_template(template, out)
        }
    }
}

/// Whether the domain is one of the target model.
fn is_target_domain(program: &Program, dom: &Dom) -> bool
    ensures { result ≡ is_target_domain program.now dom.now }
{
    match dom.model {
        Some(model) => model == program.target,
        None => false,
    }
}

/// The domain of the target model, if there is one.
fn target_domain<'p>(program: &Program, rel: &'p Rel) -> Option<&'p Dom>
    ensures { option_copied result ≡ target_domain program.now rel.now }
{
    for dom in rel.domains.as_slice() {
        if is_target_domain(program, dom) {
            return Some(dom);
        }
    }
    None
}

/// Puts the root variable of a domain behind others, where the relation is a top relation.
fn put_root(top: bool, dom: &Dom, out: &mut Seq<u32>) -> Result<(), NoMemory>
    ensures { OnOk result (out.new ≡ out.old ++ root_if top dom.now) }
{
    if top {
        return out.push(dom.root);
    }
    Ok(())
}

/// Puts the variables of the templates within the template of a domain behind others, if it has one.
fn put_within(dom: &Dom, out: &mut Seq<u32>) -> Result<(), NoMemory>
    ensures { OnOk result (out.new ≡ out.old ++ variables_within dom.now) }
{
    match &dom.template {
        Some(template) => put_template(template, out),
        None => Ok(()),
    }
}

/// The variables of the template of a domain: that of the root, where the relation is a top relation, and those of the templates within.
fn domain_variables(alloc: Global, top: bool, dom: &Dom) -> Result<Seq<u32>, NoMemory>
    ensures { IfOk result (λ vs. vs ≡ root_if top dom.now ++ variables_within dom.now) }
{
    let mut variables = Seq::new(alloc);
    put_root(top, dom, &mut variables)?;
    put_within(dom, &mut variables)?;
    Ok(variables)
}

/// The same of the target template of a relation.
pub(crate) fn target_variables(
    alloc: Global,
    program: &Program,
    rel: &Rel,
) -> Result<Seq<u32>, NoMemory>
    ensures { IfOk result (λ vs. vs ≡ root_if_top program.now rel.now ++ nested_variables program.now rel.now) }
{
    match target_domain(program, rel) {
        Some(dom) => domain_variables(alloc, rel.top, dom),
        None => Ok(Seq::new(alloc)),
    }
}
