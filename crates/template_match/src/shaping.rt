//! What the templates of a side ask of the objects of their variables alone.
ghost use Rattle.std.specs.Prelude.{◌≡◌, ◌++◌, [], map, OnOk, IfOk};
ghost use Rattle.std.specs.List.{flat_map};
ghost use Rattle.std.specs.Option.{option_map_or};
ghost use Rattle.template_match.specs.Shapes.{shapes_in, shapes_in_item, shapes_in_value, domain_shapes, side_shapes};

use crate::shape::{Feature, Shape};
use crate::side::Side;
use crate::sides::is_of_side;
use mof_metamodel::{NoMemory, PropId, Seq};
use qv_syntax::{Dom, Item, ItemValue, Program, Rel, Tmpl};
use std::alloc::Global;

/// What a template asks, and those within it.
#[cycle(shaping)]
fn add_shapes(template: &Tmpl, out: &mut Seq<Shape>) -> Result<(), NoMemory>
    ensures { OnOk result (out.new ≡ out.old ++ shapes_in template.now) }
{
    out.push(Shape {
        holder: template.var,
        feature: Feature::Class(template.class),
    })?;
    add_item_shapes(template.var, template.items.as_slice(), out)
}

/// What the items of a template ask.
#[cycle(shaping)]
fn add_item_shapes(holder: u32, items: &[Item], out: &mut Seq<Shape>) -> Result<(), NoMemory>
    ensures { OnOk result (out.new ≡ out.old ++ flat_map (λ f. f holder) (map shapes_in_item items.now)) }
{
    for item in items {
        add_value_shapes(holder, item.prop, &item.value, out)?;
    }
    Ok(())
}

/// What an item asks.
#[cycle(shaping)]
fn add_value_shapes(
    holder: u32,
    prop: PropId,
    value: &ItemValue,
    out: &mut Seq<Shape>,
) -> Result<(), NoMemory>
    ensures { OnOk result (out.new ≡ out.old ++ shapes_in_value value.now holder prop) }
{
    match value {
        ItemValue::Null => out.push(Shape {
            holder,
            feature: Feature::Empty(prop),
        }),
        ItemValue::Expr { .. } => Ok(()),
        ItemValue::Nested { template } => add_shapes(template, out),
    }
}

/// What a domain's template asks, if it has one.
fn add_template_shapes(template: &Option<Tmpl>, out: &mut Seq<Shape>) -> Result<(), NoMemory>
    ensures { OnOk result (out.new ≡ out.old ++ option_map_or shapes_in template.now []) }
{
    match template {
        Some(template) => add_shapes(template, out),
        None => Ok(()),
    }
}

/// What a domain asks, if it is one of the side.
fn add_domain_shapes(
    side: Side,
    program: &Program,
    dom: &Dom,
    out: &mut Seq<Shape>,
) -> Result<(), NoMemory>
    ensures { OnOk result (out.new ≡ out.old ++ domain_shapes side program.now dom.now) }
{
    if is_of_side(side, program, dom) {
        add_template_shapes(&dom.template, out)
    } else {
        Ok(())
    }
}

/// What the templates of a side's domains ask.
pub(crate) fn side_shapes(
    alloc: Global,
    side: Side,
    program: &Program,
    rel: &Rel,
) -> Result<Seq<Shape>, NoMemory>
    ensures { IfOk result (λ shapes. shapes ≡ side_shapes side program.now rel.now) }
{
    let mut out = Seq::new(alloc);
    for dom in rel.domains.as_slice() {
        add_domain_shapes(side, program, dom, &mut out)?;
    }
    Ok(out)
}
