ghost use Rattle.std.specs.Prelude.{◌≡◌, map, slice_get, IfOk};
ghost use Rattle.std.specs.List.{list_all};
ghost use Rattle.std.specs.Option.{option_copied};
ghost use Rattle.qvtr_semantics.specs.Expressions.{setting, value_for};
ghost use Rattle.qvtr_semantics.specs.Outs.{datum_of};
ghost use Rattle.qvtr_semantics.specs.Objects.{held_at};
ghost use Rattle.qvtr_semantics.specs.Templates.{value_at, is_empty_slot, has, meets};
ghost use Rattle.qvtr_semantics.specs.Bindings.{is_value_of_type, meta_of_type, is_object_for, is_datum_for, is_value_for, have_values, template_meets, are_one, conjunct_holds};
ghost use Rattle.template_match.specs.Meeting.{item_of, slot_of};
ghost use Rattle.template_match.specs.Sides.{domain_meets, meets_side};

use crate::side::Side;
use crate::sides::{clause_of, is_model, is_target_domain};
use crate::standing::stands_at;
use crate::task::Task;
use crate::values::value_at;
use mof_metamodel::{NoMemory, PropId, Seq};
use object_tables::Value;
use ocl_eval::collections::is_among;
use ocl_eval::{datum_of, eval, held_at, holds, is_of_class, same_datum};
use qv_syntax::{Conj, Dom, Item, ItemValue, Tmpl, Ty, Typed, Var};
use qvtr_semantics::{Binding, Datum};

/// Whether the value is one of the data type.
fn is_value_of_type(ty: &Ty, value: &Value) -> bool
    ensures { result ≡ is_value_of_type ty.now value.now }
{
    match (ty, value) {
        (Ty::Str, Value::Str(_)) => true,
        (Ty::Int, Value::Int(_)) => true,
        (Ty::Bool, Value::Bool(_)) => true,
        (Ty::Enum(_, e), Value::Lit(f, _)) => e.0 == f.0,
        _ => false,
    }
}

/// The metamodel with whose number a value of the type goes.
fn meta_of_type(ty: &Ty) -> u32
    ensures { result ≡ meta_of_type ty.now }
{
    match ty {
        Ty::Enum(meta, _) => *meta,
        _ => 0,
    }
}

/// Whether the datum is a live object of the variable's model and class.
fn is_object_for(task: &Task<'_, '_>, var: &Var, model: u32, datum: &Datum) -> bool
    ensures { result ≡ is_object_for (setting task.now.program.now task.now.models.now) var.now var.now.ty model datum.now }
{
    match &var.ty {
        Ty::Class(_, class) => {
            is_model(var.model, model) && is_of_class(task.models, *class, datum)
        }
        _ => false,
    }
}

/// Whether the variable may have the value.
fn is_datum_for(task: &Task<'_, '_>, var: &Var, datum: &Datum) -> bool
    ensures { result ≡ is_datum_for (setting task.now.program.now task.now.models.now) var.now datum.now }
{
    match datum {
        Datum::Val(meta, value) => {
            *meta == meta_of_type(&var.ty) && is_value_of_type(&var.ty, value)
        }
        Datum::Obj(model, _) => is_object_for(task, var, *model, datum),
    }
}

/// Whether the variable of the number has a value that it may have.
fn has_value(task: &Task<'_, '_>, variable: u32, binding: &Binding) -> bool
    ensures { result ≡ is_value_for (setting task.now.program.now task.now.models.now) (slice_get task.now.rel.now.vars variable) (value_at binding.now.values variable) }
{
    match task.rel.vars.as_slice().get(variable as usize) {
        Some(var) => match value_at(binding, variable) {
            Some(datum) => is_datum_for(task, var, datum),
            None => false,
        },
        None => false,
    }
}

/// Whether each of the variables has a value that it may have.
fn have_values(task: &Task<'_, '_>, variables: &[u32], binding: &Binding) -> bool
    ensures { result ≡ have_values task.now.program.now task.now.models.now task.now.rel.now variables.now binding.now.values }
{
    for variable in variables {
        if !has_value(task, *variable, binding) {
            return false;
        }
    }
    true
}

/// Whether the slot is there and empty.
fn is_empty_slot(slot: &Option<Seq<Datum>>) -> bool
    ensures { result ≡ is_empty_slot slot.now }
{
    match slot {
        Some(data) => data.len() == 0,
        None => false,
    }
}

/// Whether the datum stands in the slot.
pub(crate) fn has(slot: &Option<Seq<Datum>>, datum: Option<&Datum>) -> bool
    ensures { result ≡ has slot.now (option_copied datum.entry) }
{
    match slot {
        Some(data) => match datum {
            Some(datum) => is_among(datum, data.as_slice()),
            None => false,
        },
        None => false,
    }
}

/// Whether the value of an expression stands at a property of an object.
pub(crate) fn expression_stands(
    task: &Task<'_, '_>,
    e: &Typed,
    binding: &Binding,
    datum: &Datum,
    prop: PropId,
) -> Result<bool, NoMemory>
    ensures { IfOk result (λ b. b ≡ has (held_at (setting task.now.program.now task.now.models.now) datum.now prop.0) (datum_of (value_for task.now.program.now task.now.models.now e.now binding.now.values))) }
{
    let out = eval(task.alloc, task.program, e, task.models, binding)?;
    stands_at(task, datum, prop, datum_of(&out))
}

/// Whether nothing stands at a property of an object.
pub(crate) fn is_empty_at(
    task: &Task<'_, '_>,
    datum: &Datum,
    prop: PropId,
) -> Result<bool, NoMemory>
    ensures { IfOk result (λ b. b ≡ is_empty_slot (held_at (setting task.now.program.now task.now.models.now) datum.now prop.0)) }
{
    let slot = held_at(task.alloc, task.program, task.models, datum, prop)?;
    Ok(is_empty_slot(&slot))
}

/// Whether the template matches (QVT 1.3, section 7.11.2.2).
#[cycle(meeting)]
fn template_matches(
    task: &Task<'_, '_>,
    template: &Tmpl,
    binding: &Binding,
) -> Result<bool, NoMemory>
    ensures { IfOk result (λ b. b ≡ meets task.now.program.now task.now.models.now template.now binding.now.values) }
{
    match value_at(binding, template.var) {
        Some(datum) => {
            if is_of_class(task.models, template.class, datum) {
                items_hold(task, template.items.as_slice(), binding, datum)
            } else {
                Ok(false)
            }
        }
        None => Ok(false),
    }
}

/// Whether each item holds of an object.
#[cycle(meeting)]
fn items_hold(
    task: &Task<'_, '_>,
    items: &[Item],
    binding: &Binding,
    datum: &Datum,
) -> Result<bool, NoMemory>
    ensures { IfOk result (λ b. b ≡ list_all (λ item. item binding.now.values datum.now) (map (item_of task.now.program.now task.now.models.now) items.now)) }
{
    for item in items {
        if !item_holds(task, item, binding, datum)? {
            return Ok(false);
        }
    }
    Ok(true)
}

/// Whether an item holds of an object.
#[cycle(meeting)]
fn item_holds(
    task: &Task<'_, '_>,
    item: &Item,
    binding: &Binding,
    datum: &Datum,
) -> Result<bool, NoMemory>
    ensures { IfOk result (λ b. b ≡ item_of task.now.program.now task.now.models.now item.now binding.now.values datum.now) }
{
    value_stands(task, &item.value, binding, datum, item.prop)
}

/// Whether what an item asks holds of a property of an object.
#[cycle(meeting)]
fn value_stands(
    task: &Task<'_, '_>,
    value: &ItemValue,
    binding: &Binding,
    datum: &Datum,
    prop: PropId,
) -> Result<bool, NoMemory>
    ensures { IfOk result (λ b. b ≡ slot_of task.now.program.now task.now.models.now value.now binding.now.values (held_at (setting task.now.program.now task.now.models.now) datum.now prop.0)) }
{
    match value {
        ItemValue::Null => is_empty_at(task, datum, prop),
        ItemValue::Expr { value } => expression_stands(task, value, binding, datum, prop),
        ItemValue::Nested { template } => {
            if stands_at(task, datum, prop, value_at(binding, template.var))? {
                template_matches(task, template, binding)
            } else {
                Ok(false)
            }
        }
    }
}

/// Whether the template matches, if there is one.
fn template_meets(
    task: &Task<'_, '_>,
    template: &Option<Tmpl>,
    binding: &Binding,
) -> Result<bool, NoMemory>
    ensures { IfOk result (λ b. b ≡ template_meets task.now.program.now task.now.models.now template.now binding.now.values) }
{
    match template {
        Some(template) => template_matches(task, template, binding),
        None => Ok(true),
    }
}

/// Whether the domain's template matches, if it is asked.
fn domain_meets(task: &Task<'_, '_>, dom: &Dom, binding: &Binding) -> Result<bool, NoMemory>
    ensures { IfOk result (λ b. b ≡ domain_meets task.now.side task.now.program.now task.now.models.now binding.now.values dom.now) }
{
    let is_target = is_target_domain(task.program, dom);
    match task.side {
        Side::Source => {
            if is_target {
                Ok(true)
            } else {
                template_meets(task, &dom.template, binding)
            }
        }
        Side::Target => {
            if is_target {
                template_meets(task, &dom.template, binding)
            } else {
                Ok(true)
            }
        }
    }
}

/// Whether the templates of all domains match that are asked.
fn domains_meet(task: &Task<'_, '_>, domains: &[Dom], binding: &Binding) -> Result<bool, NoMemory>
    ensures { IfOk result (λ b. b ≡ list_all (domain_meets task.now.side task.now.program.now task.now.models.now binding.now.values) domains.now) }
{
    for dom in domains {
        if !domain_meets(task, dom, binding)? {
            return Ok(false);
        }
    }
    Ok(true)
}

/// Whether there are two data and they are one.
pub(crate) fn are_one(one: Option<&Datum>, other: Option<&Datum>) -> bool
    ensures { result ≡ are_one (option_copied one.entry) (option_copied other.entry) }
{
    match one {
        Some(d) => match other {
            Some(e) => same_datum(d, e),
            None => false,
        },
        None => false,
    }
}

/// Whether the value of the expression is that of the variable.
fn equation_holds(
    task: &Task<'_, '_>,
    variable: u32,
    e: &Typed,
    binding: &Binding,
) -> Result<bool, NoMemory>
    ensures { IfOk result (λ b. b ≡ are_one (value_at binding.now.values variable) (datum_of (value_for task.now.program.now task.now.models.now e.now binding.now.values))) }
{
    let out = eval(task.alloc, task.program, e, task.models, binding)?;
    Ok(are_one(value_at(binding, variable), datum_of(&out)))
}

/// Whether the conjunct holds; what a call asks is told apart.
fn conjunct_holds(task: &Task<'_, '_>, conjunct: &Conj, binding: &Binding) -> Result<bool, NoMemory>
    ensures { IfOk result (λ b. b ≡ conjunct_holds task.now.program.now task.now.models.now binding.now.values conjunct.now) }
{
    match conjunct {
        Conj::Cond(e) => holds(task.alloc, task.program, e, task.models, binding),
        Conj::Equation(variable, e) => equation_holds(task, *variable, e, binding),
        Conj::Call(..) => Ok(true),
    }
}

/// Whether all conjuncts hold.
fn conjuncts_hold(
    task: &Task<'_, '_>,
    conjuncts: &[Conj],
    binding: &Binding,
) -> Result<bool, NoMemory>
    ensures { IfOk result (λ b. b ≡ list_all (conjunct_holds task.now.program.now task.now.models.now binding.now.values) conjuncts.now) }
{
    for conjunct in conjuncts {
        if !conjunct_holds(task, conjunct, binding)? {
            return Ok(false);
        }
    }
    Ok(true)
}

/// Whether the binding meets the side of the relation.
pub(crate) fn meets(task: &Task<'_, '_>, binding: &Binding) -> Result<bool, NoMemory>
    ensures { IfOk result (λ b. b ≡ meets_side task.now.side task.now.variables.now task.now.program.now task.now.models.now task.now.rel.now binding.now.values) }
{
    if !have_values(task, task.variables, binding) {
        return Ok(false);
    }
    if !domains_meet(task, task.rel.domains.as_slice(), binding)? {
        return Ok(false);
    }
    conjuncts_hold(task, clause_of(task.side, task.rel), binding)
}
