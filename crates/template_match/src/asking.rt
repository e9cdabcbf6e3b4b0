//! What a side asks of the slots of objects: by the items of its templates whose expressions aren't a
//! variable alone, and by its clause.
ghost use Rattle.std.specs.Prelude.{◌≡◌, ◌++◌, [], map, OnOk, IfOk};
ghost use Rattle.std.specs.List.{flat_map};
ghost use Rattle.std.specs.Option.{option_map_or};
ghost use Rattle.template_match.specs.Asked.{asked_values, own_asked, asked_in, asked_in_item, asked_in_value, domain_asked, side_asked};

use crate::asked::{Asked, AskedBy};
use crate::comparing::add_clause_asked;
use crate::expressions::variable_alone;
use crate::side::Side;
use crate::sides::is_of_side;
use mof_metamodel::{NoMemory, PropId, Seq};
use qv_syntax::{Dom, Item, ItemValue, Program, Rel, Tmpl, Typed};
use std::alloc::Global;

/// What an item asks by its expression, unless that is a variable alone.
fn add_own<'a>(
    holder: u32,
    prop: PropId,
    value: &'a Typed,
    out: &mut Seq<Asked<'a>>,
) -> Result<(), NoMemory>
    ensures { OnOk result (asked_values out.new ≡ asked_values out.old ++ own_asked holder prop value.now) }
{
    match variable_alone(value) {
        Some(_) => Ok(()),
        None => out.push(Asked {
            holder,
            prop,
            by: AskedBy::Item(value),
        }),
    }
}

/// What a template asks, and those within it.
#[cycle(asking)]
fn add_asked<'a>(template: &'a Tmpl, out: &mut Seq<Asked<'a>>) -> Result<(), NoMemory>
    ensures { OnOk result (asked_values out.new ≡ asked_values out.old ++ asked_in template.now) }
{
    add_items_asked(template.var, template.items.as_slice(), out)
}

/// What the items of a template ask.
#[cycle(asking)]
fn add_items_asked<'a>(
    holder: u32,
    items: &'a [Item],
    out: &mut Seq<Asked<'a>>,
) -> Result<(), NoMemory>
    ensures { OnOk result (asked_values out.new ≡ asked_values out.old ++ flat_map (λ f. f holder) (map asked_in_item items.now)) }
{
    for item in items {
        add_value_asked(holder, item.prop, &item.value, out)?;
    }
    Ok(())
}

/// What an item asks.
#[cycle(asking)]
fn add_value_asked<'a>(
    holder: u32,
    prop: PropId,
    value: &'a ItemValue,
    out: &mut Seq<Asked<'a>>,
) -> Result<(), NoMemory>
    ensures { OnOk result (asked_values out.new ≡ asked_values out.old ++ asked_in_value value.now holder prop) }
{
    match value {
        ItemValue::Null => Ok(()),
        ItemValue::Expr { value } => add_own(holder, prop, value, out),
        ItemValue::Nested { template } => add_asked(template, out),
    }
}

/// What a domain's template asks, if it has one.
fn add_template_asked<'a>(
    template: &'a Option<Tmpl>,
    out: &mut Seq<Asked<'a>>,
) -> Result<(), NoMemory>
    ensures { OnOk result (asked_values out.new ≡ asked_values out.old ++ option_map_or asked_in template.now []) }
{
    match template {
        Some(template) => add_asked(template, out),
        None => Ok(()),
    }
}

/// What a domain asks, if it is one of the side.
fn add_domain_asked<'a>(
    side: Side,
    program: &Program,
    dom: &'a Dom,
    out: &mut Seq<Asked<'a>>,
) -> Result<(), NoMemory>
    ensures { OnOk result (asked_values out.new ≡ asked_values out.old ++ domain_asked side program.now dom.now) }
{
    if is_of_side(side, program, dom) {
        add_template_asked(&dom.template, out)
    } else {
        Ok(())
    }
}

/// What the templates of a side's domains ask.
fn domains_asked<'a>(
    alloc: Global,
    side: Side,
    program: &Program,
    rel: &'a Rel,
) -> Result<Seq<Asked<'a>>, NoMemory>
    ensures { IfOk result (λ asked. asked_values asked ≡ flat_map (domain_asked side program.now) rel.now.domains) }
{
    let mut out = Seq::new(alloc);
    for dom in rel.domains.as_slice() {
        add_domain_asked(side, program, dom, &mut out)?;
    }
    Ok(out)
}

/// What a side's templates and its clause ask.
pub(crate) fn side_asked<'a>(
    alloc: Global,
    side: Side,
    program: &Program,
    rel: &'a Rel,
) -> Result<Seq<Asked<'a>>, NoMemory>
    ensures { IfOk result (λ asked. asked_values asked ≡ side_asked side program.now rel.now) }
{
    let mut out = domains_asked(alloc, side, program, rel)?;
    add_clause_asked(side, rel, &mut out)?;
    Ok(out)
}
