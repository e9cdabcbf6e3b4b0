//! The variables for which a relation makes terms, each behind those that stand in its key values.
ghost use Rattle.std.specs.Prelude.{◌≡◌, ◌++◌, length, map, All, IfOk, OnOk};
ghost use Rattle.std.specs.List.{flat_map, range_with_len};
ghost use Rattle.std.specs.Option.{option_map, option_to_list};
ghost use Rattle.qvtr_semantics.specs.Objects.{is_number_among};
ghost use Rattle.repair_semantics.specs.TargetItems.{target_items, target_root};
ghost use Rattle.repair_semantics.specs.Making.{is_option_of};
ghost use Rattle.entry_making.specs.Orders.{HasNoCycle};
ghost use Rattle.entry_making.specs.Orderable.{WaitsForKey};
ghost use Rattle.entry_making.specs.Items.{shown_item, IsItemOf};
ghost use Rattle.entry_making.specs.Givers.{shown_origin, is_handed_on, is_made, key_givers, givers_of_class};
ghost use Rattle.entry_making.specs.KeyedVariables.{shown_keyed, keyed_at, variables_in, key_row, keyed_among, AreVariablesOf, AreMadeInOrder};

use crate::content::OwnedItem;
use crate::items::target_domain;
use crate::keys::{class_of_variable, key_of, key_origins};
use crate::order::order_of;
use crate::origin::{Keyed, Origin};
use mof_metamodel::{ClassId, MetaModel, NoMemory, Seq};
use qv_syntax::{Program, Rel};
use std::alloc::Global;

/// A relation of a program, with the metamodel of the target and the items of the target template.
#[derive(Clone, Copy)]
pub(crate) struct Making<'a, 'p> {
    pub(crate) alloc: Global,
    pub(crate) program: &'p Program,
    pub(crate) meta: &'a MetaModel,
    pub(crate) rel: &'p Rel,
    pub(crate) items: &'a [OwnedItem<'p>],
}

/// Whether the number is one of the list.
fn is_among(number: usize, numbers: &[u32]) -> bool
    ensures { result ≡ is_number_among number numbers.now }
{
    for n in numbers {
        if *n as usize == number {
            return true;
        }
    }
    false
}

/// Whether the variable is the root of the target domain.
fn is_target_root(program: &Program, rel: &Rel, variable: usize) -> bool
    ensures { result ≡ is_option_of (target_root program.now rel.now) variable }
{
    match target_domain(program, rel) {
        Some(dom) => dom.root as usize == variable,
        None => false,
    }
}

/// Whether the relation makes the values of the variable.
fn is_made(program: &Program, rel: &Rel, variable: usize) -> bool
    ensures { result ≡ is_made program.now rel.now variable }
{
    is_among(variable, rel.existential.as_slice())
        && (rel.top || !is_target_root(program, rel, variable))
}

/// The variable with its class and what gives the values of its key properties, if the class has a key.
fn keyed_by_class<'p>(
    task: &Making<'_, 'p>,
    variable: usize,
    class: ClassId,
) -> Result<Option<Keyed<'p>>, NoMemory>
    requires { All (IsItemOf task.now.meta.now) task.now.items.now }
    ensures { IfOk result (λ k. option_map shown_keyed k ≡ option_map (λ g. (variable, g)) (givers_of_class task.now.program.now task.now.meta.now (map shown_item task.now.items.now) variable class.0)) }
{
    match key_of(task.program, class) {
        Some(props) => {
            let keys = key_origins(task.alloc, task.meta, task.items, variable, props)?;
            Ok(Some(Keyed {
                variable,
                class,
                keys,
            }))
        }
        None => Ok(None),
    }
}

/// The variable with its key, if the relation makes it and its class has one.
fn keyed_at<'p>(task: &Making<'_, 'p>, variable: usize) -> Result<Option<Keyed<'p>>, NoMemory>
    requires { All (IsItemOf task.now.meta.now) task.now.items.now }
    ensures { IfOk result (λ k. option_map shown_keyed k ≡ keyed_at task.now.program.now task.now.meta.now task.now.rel.now (map shown_item task.now.items.now) variable) }
{
    if !is_made(task.program, task.rel, variable) {
        return Ok(None);
    }
    match class_of_variable(task.rel, variable) {
        Some(class) => keyed_by_class(task, variable, class),
        None => Ok(None),
    }
}

/// Puts the variable that gives a value behind others, if one does.
fn push_variable(origin: Origin<'_>, out: &mut Seq<u32>) -> Result<(), NoMemory>
    ensures { OnOk result (out.new ≡ out.old ++ variables_in (shown_origin origin.entry)) }
{
    match origin {
        Origin::Variable(v) => out.push(v),
        Origin::Nothing | Origin::Expression(_) => Ok(()),
    }
}

/// The variables that give values.
fn variables_of(alloc: Global, origins: &[Origin<'_>]) -> Result<Seq<u32>, NoMemory>
    ensures { IfOk result (λ vs. vs ≡ flat_map variables_in (map shown_origin origins.now)) }
{
    let mut out = Seq::new(alloc);
    for origin in origins {
        push_variable(*origin, &mut out)?;
    }
    Ok(out)
}

/// The variables that stand in the key values of a variable.
fn key_row(alloc: Global, keyed: Option<Keyed<'_>>) -> Result<Seq<u32>, NoMemory>
    ensures { IfOk result (λ row. row ≡ key_row (option_map shown_keyed keyed.entry)) }
{
    match keyed {
        Some(keyed) => variables_of(alloc, keyed.keys.as_slice()),
        None => Ok(Seq::new(alloc)),
    }
}

/// For each variable those that stand in its key values.
fn key_rows(task: &Making<'_, '_>) -> Result<Seq<Seq<u32>>, NoMemory>
    requires { All (IsItemOf task.now.meta.now) task.now.items.now }
    ensures { IfOk result (λ rows. rows ≡ map (λ v. key_row (keyed_at task.now.program.now task.now.meta.now task.now.rel.now (map shown_item task.now.items.now) v)) (range_with_len 0 (length task.now.rel.now.vars))) }
{
    let mut rows = Seq::new(task.alloc);
    for v in 0..task.rel.vars.len() {
        rows.push(key_row(task.alloc, keyed_at(task, v)?)?)?;
    }
    Ok(rows)
}

/// Puts a variable with its key behind others, if there is one.
fn push_keyed<'p>(keyed: Option<Keyed<'p>>, out: &mut Seq<Keyed<'p>>) -> Result<(), NoMemory>
    ensures { OnOk result (map shown_keyed out.new ≡ map shown_keyed out.old ++ option_to_list (option_map shown_keyed keyed.entry)) }
{
    match keyed {
        Some(keyed) => out.push(keyed),
        None => Ok(()),
    }
}

/// Those of these variables that have keys.
fn keyed_among<'p>(task: &Making<'_, 'p>, order: &[usize]) -> Result<Seq<Keyed<'p>>, NoMemory>
    requires { All (IsItemOf task.now.meta.now) task.now.items.now }
    ensures { IfOk result (λ ks. map shown_keyed ks ≡ keyed_among task.now.program.now task.now.meta.now task.now.rel.now (map shown_item task.now.items.now) order.now) }
{
    let mut out = Seq::new(task.alloc);
    for v in order {
        push_keyed(keyed_at(task, *v)?, &mut out)?;
    }
    Ok(out)
}

/// The variables for which a relation makes terms, each behind those that stand in its key values.
pub(crate) fn keyed_of<'p>(task: &Making<'_, 'p>) -> Result<Seq<Keyed<'p>>, NoMemory>
    requires items { map shown_item task.now.items.now ≡ target_items task.now.program.now task.now.rel.now }
    requires within { All (IsItemOf task.now.meta.now) task.now.items.now }
    requires acyclic { HasNoCycle (WaitsForKey task.now.program.now task.now.meta.now task.now.rel.now) }
    ensures within { IfOk result (λ ks. AreVariablesOf task.now.rel.now (map shown_keyed ks)) }
    ensures order { IfOk result (λ ks. AreMadeInOrder task.now.program.now task.now.meta.now task.now.rel.now (map shown_keyed ks)) }
{
    let rows = key_rows(task)?;
    let order = order_of(task.alloc, rows.as_slice())?;
    keyed_among(task, order.as_slice())
}
