ghost use Rattle.std.specs.Prelude.{◌≡◌, ◌++◌, [], map, OnOk, IfOk};
ghost use Rattle.std.specs.List.{flat_map};
ghost use Rattle.std.specs.Option.{option_map_or};
ghost use Rattle.template_match.specs.Links.{own_link, links_of, links_of_item, held_in, domain_links, side_links};

use crate::expressions::variable_alone;
use crate::link::Link;
use crate::side::Side;
use crate::sides::is_of_side;
use mof_metamodel::{NoMemory, PropId, Seq};
use qv_syntax::{Dom, Item, ItemValue, Program, Rel, Tmpl};
use std::alloc::Global;

/// The link of a variable that stands alone at an item.
fn add_own_link(
    holder: u32,
    prop: PropId,
    variable: Option<u32>,
    out: &mut Seq<Link>,
) -> Result<(), NoMemory>
    ensures { OnOk result (out.new ≡ out.old ++ own_link holder prop variable) }
{
    match variable {
        Some(variable) => out.push(Link {
            holder,
            prop,
            variable,
        }),
        None => Ok(()),
    }
}

/// The links of a template and of those within it.
#[cycle(linking)]
fn add_links(template: &Tmpl, out: &mut Seq<Link>) -> Result<(), NoMemory>
    ensures { OnOk result (out.new ≡ out.old ++ links_of template.now) }
{
    add_item_links(template.var, template.items.as_slice(), out)
}

/// The links of the items of a template.
#[cycle(linking)]
fn add_item_links(holder: u32, items: &[Item], out: &mut Seq<Link>) -> Result<(), NoMemory>
    ensures { OnOk result (out.new ≡ out.old ++ flat_map (λ f. f holder) (map links_of_item items.now)) }
{
    for item in items {
        add_value_links(holder, item.prop, &item.value, out)?;
    }
    Ok(())
}

/// The links of an item.
#[cycle(linking)]
fn add_value_links(
    holder: u32,
    prop: PropId,
    value: &ItemValue,
    out: &mut Seq<Link>,
) -> Result<(), NoMemory>
    ensures { OnOk result (out.new ≡ out.old ++ (own_link holder prop (held_in value.now).var ++ (held_in value.now).links)) }
{
    match value {
        ItemValue::Null => Ok(()),
        ItemValue::Expr { value } => add_own_link(holder, prop, variable_alone(value), out),
        ItemValue::Nested { template } => {
            add_own_link(holder, prop, Some(template.var), out)?;
            add_links(template, out)
        }
    }
}

/// The links of a domain's template, if it has one.
fn add_template_links(template: &Option<Tmpl>, out: &mut Seq<Link>) -> Result<(), NoMemory>
    ensures { OnOk result (out.new ≡ out.old ++ option_map_or links_of template.now []) }
{
    match template {
        Some(template) => add_links(template, out),
        None => Ok(()),
    }
}

/// The links of a domain, if it is one of the side.
fn add_domain_links(
    side: Side,
    program: &Program,
    dom: &Dom,
    out: &mut Seq<Link>,
) -> Result<(), NoMemory>
    ensures { OnOk result (out.new ≡ out.old ++ domain_links side program.now dom.now) }
{
    if is_of_side(side, program, dom) {
        add_template_links(&dom.template, out)
    } else {
        Ok(())
    }
}

/// The links of the templates of a side's domains.
pub(crate) fn side_links(
    alloc: Global,
    side: Side,
    program: &Program,
    rel: &Rel,
) -> Result<Seq<Link>, NoMemory>
    ensures { IfOk result (λ links. links ≡ side_links side program.now rel.now) }
{
    let mut out = Seq::new(alloc);
    for dom in rel.domains.as_slice() {
        add_domain_links(side, program, dom, &mut out)?;
    }
    Ok(out)
}
