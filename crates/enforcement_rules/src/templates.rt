//! The templates of domains with their places (QVT 1.3, section 7.11.2).
ghost use Rattle.std.specs.Prelude.{◌≡◌, [], map, None, Some, OnOk, IfOk};
ghost use Rattle.qv_syntax.specs.declared.program.Tmpl.{out-Tmpl};
ghost use Rattle.enforcement_rules.specs.Standings.{shown_standing, AreTargetTemplates, Adds, IsOf, IsOfItems, IsOfValue, IsOfDomain, IsOfDomains, IsOfTarget};

use crate::standing::{Place, Standing};
use crate::target::is_of_target;
use mof_metamodel::{NoMemory, PropId, Seq};
use qv_syntax::{Dom, Item, ItemValue, Program, Rel, Tmpl};
use std::alloc::Global;

/// Puts a template and those within it behind others.
#[cycle(standing)]
fn put_template<'a>(
    template: &'a Tmpl,
    at: Option<Place>,
    out: &mut Seq<Standing<'a>>,
) -> Result<(), NoMemory>
    ensures { OnOk result (Adds (IsOf template.now at) (map shown_standing out.old) (map shown_standing out.new)) }
{
    out.push(Standing { template, at })?;
    put_items(template.var, template.items.as_slice(), out)
}

/// The same of those in the items of a template.
#[cycle(standing)]
fn put_items<'a>(
    parent: u32,
    items: &'a [Item],
    out: &mut Seq<Standing<'a>>,
) -> Result<(), NoMemory>
    ensures { OnOk result (Adds (IsOfItems parent items.now) (map shown_standing out.old) (map shown_standing out.new)) }
{
    for item in items {
        put_value(
            Place {
                parent,
                prop: item.prop,
            },
            &item.value,
            out,
        )?;
    }
    Ok(())
}

/// The same of that which an item nests.
#[cycle(standing)]
fn put_value<'a>(
    place: Place,
    value: &'a ItemValue,
    out: &mut Seq<Standing<'a>>,
) -> Result<(), NoMemory>
    ensures { OnOk result (Adds (IsOfValue place value.now) (map shown_standing out.old) (map shown_standing out.new)) }
{
    match value {
        ItemValue::Null | ItemValue::Expr { .. } => Ok(()),
        ItemValue::Nested { template } => put_template(template, Some(place), out),
    }
}

/// The same of those of a domain.
fn put_domain<'a>(dom: &'a Dom, out: &mut Seq<Standing<'a>>) -> Result<(), NoMemory>
    ensures { OnOk result (Adds (IsOfDomain dom.now) (map shown_standing out.old) (map shown_standing out.new)) }
{
    match &dom.template {
        Some(template) => put_template(template, None, out),
        None => Ok(()),
    }
}

/// The same of those of a domain, if it is one of the target.
fn put_target<'a>(
    program: &Program,
    dom: &'a Dom,
    out: &mut Seq<Standing<'a>>,
) -> Result<(), NoMemory>
    ensures { OnOk result (Adds (IsOfTarget program.now dom.now) (map shown_standing out.old) (map shown_standing out.new)) }
{
    if is_of_target(program, dom.model) {
        return put_domain(dom, out);
    }
    Ok(())
}

/// The same of those of domains.
fn put_domains<'a>(doms: &'a [Dom], out: &mut Seq<Standing<'a>>) -> Result<(), NoMemory>
    ensures { OnOk result (Adds (IsOfDomains IsOfDomain doms.now) (map shown_standing out.old) (map shown_standing out.new)) }
{
    for dom in doms {
        put_domain(dom, out)?;
    }
    Ok(())
}

/// The same of those of domains of the target.
fn put_targets<'a>(
    program: &Program,
    doms: &'a [Dom],
    out: &mut Seq<Standing<'a>>,
) -> Result<(), NoMemory>
    ensures { OnOk result (Adds (IsOfDomains (IsOfTarget program.now) doms.now) (map shown_standing out.old) (map shown_standing out.new)) }
{
    for dom in doms {
        put_target(program, dom, out)?;
    }
    Ok(())
}

/// The templates of all domains of a relation.
pub(crate) fn all_templates<'a>(alloc: Global, rel: &'a Rel) -> Result<Seq<Standing<'a>>, NoMemory>
    ensures { IfOk result (λ out. Adds (IsOfDomains IsOfDomain rel.now.domains) [] (map shown_standing out)) }
{
    let mut out = Seq::new(alloc);
    put_domains(rel.domains.as_slice(), &mut out)?;
    Ok(out)
}

/// The templates of its domain of the target.
pub(crate) fn target_templates<'a>(
    alloc: Global,
    program: &Program,
    rel: &'a Rel,
) -> Result<Seq<Standing<'a>>, NoMemory>
    ensures { IfOk result (λ out. AreTargetTemplates program.now rel.now (map shown_standing out)) }
{
    let mut out = Seq::new(alloc);
    put_targets(program, rel.domains.as_slice(), &mut out)?;
    Ok(out)
}
