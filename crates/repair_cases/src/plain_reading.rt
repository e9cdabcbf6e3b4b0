//! What the two sides of a relation ask (QVT 1.3, sections 7.2, 7.10.1 and 7.11), read plainly: part by part,
//! in the order of the text.
ghost use Rattle.std.specs.Prelude.{◌≡◌};
ghost use Rattle.std.specs.Option.{option_copied};
ghost use Rattle.qvtr_semantics.specs.Templates.{value_at};

use mof_metamodel::NoMemory;
use object_tables::Value;
use ocl_eval::{Models, datum_of, eval, held_at, holds, is_of_class, same_datum};
use qv_syntax::{Conj, Dom, Item, ItemValue, Program, Rel, Tmpl, Ty, Typed, Var};
use qvtr_semantics::{Binding, Datum};
use std::alloc::Global;
use template_match::Side;

/// A relation of a program, and the models over which it is read.
#[derive(Clone, Copy)]
pub struct Reading<'a, 'm> {
    pub alloc: Global,
    pub program: &'a Program,
    pub models: &'a Models<'m>,
    pub rel: &'a Rel,
}

/// The value of a variable, if it has one.
pub fn value_of(binding: &Binding, variable: u32) -> Option<&Datum>
    ensures { option_copied result ≡ value_at binding.now.values variable }
{
    match binding.values.as_slice().get(variable as usize) {
        Some(value) => value.as_ref(),
        None => None,
    }
}

/// Whether both are there and one.
fn are_same(one: Option<&Datum>, other: Option<&Datum>) -> bool {
    match (one, other) {
        (Some(one), Some(other)) => same_datum(one, other),
        _ => false,
    }
}

/// Whether a value is of the data type, and goes with the metamodel of the type where it is a literal.
fn is_value_of(ty: &Ty, meta: u32, value: &Value) -> bool {
    match (ty, value) {
        (Ty::Str, Value::Str(_)) => meta == 0,
        (Ty::Int, Value::Int(_)) => meta == 0,
        (Ty::Bool, Value::Bool(_)) => meta == 0,
        (Ty::Enum(own, of), Value::Lit(other, _)) => meta == *own && of.0 == other.0,
        _ => false,
    }
}

/// Whether an object is a live one of the variable's model and class.
fn is_object_of(models: &Models<'_>, var: &Var, model: u32, datum: &Datum) -> bool {
    match &var.ty {
        Ty::Class(_, class) => var.model == Some(model) && is_of_class(models, *class, datum),
        _ => false,
    }
}

/// Whether a variable may have the value.
pub fn may_be(models: &Models<'_>, var: &Var, datum: &Datum) -> bool {
    match datum {
        Datum::Obj(model, _) => is_object_of(models, var, *model, datum),
        Datum::Val(meta, value) => is_value_of(&var.ty, *meta, value),
    }
}

/// Whether the value of an expression, if it is a single one, is among the data.
fn is_held(
    reading: &Reading<'_, '_>,
    held: &[Datum],
    value: &Typed,
    binding: &Binding,
) -> Result<bool, NoMemory> {
    let out = eval(
        reading.alloc,
        reading.program,
        value,
        reading.models,
        binding,
    )?;
    let is_held = stands_among(datum_of(&out), held);
    drop(out);
    Ok(is_held)
}

/// Whether a datum, if there is one, is among the data.
fn stands_among(datum: Option<&Datum>, held: &[Datum]) -> bool {
    for other in held {
        if are_same(datum, Some(other)) {
            return true;
        }
    }
    false
}

impl Reading<'_, '_> {
    /// The variables that a side looks for.
    pub fn sought(&self, side: Side) -> &[u32] {
        match side {
            Side::Source => self.rel.universal.as_slice(),
            Side::Target => self.rel.existential.as_slice(),
        }
    }

    /// Whether a variable has a value that it may have.
    fn has_value(&self, variable: u32, binding: &Binding) -> bool {
        match (
            self.rel.vars.as_slice().get(variable as usize),
            value_of(binding, variable),
        ) {
            (Some(var), Some(datum)) => may_be(self.models, var, datum),
            _ => false,
        }
    }

    /// Whether each of the variables has.
    fn have_values(&self, variables: &[u32], binding: &Binding) -> bool {
        for variable in variables {
            if !self.has_value(*variable, binding) {
                return false;
            }
        }
        true
    }

    /// Whether a domain is asked by a side: one of the target by the target, all others by the source.
    fn asks(&self, side: Side, dom: &Dom) -> bool {
        let is_target = dom.model == Some(self.program.target);
        match side {
            Side::Source => !is_target,
            Side::Target => is_target,
        }
    }

    /// Whether a domain's template matches, if the side asks for it.
    fn domain_meets(&self, side: Side, dom: &Dom, binding: &Binding) -> Result<bool, NoMemory> {
        match &dom.template {
            Some(template) if self.asks(side, dom) => matches(self, template, binding),
            _ => Ok(true),
        }
    }

    fn domains_meet(&self, side: Side, binding: &Binding) -> Result<bool, NoMemory> {
        for dom in self.rel.domains.as_slice() {
            if !self.domain_meets(side, dom, binding)? {
                return Ok(false);
            }
        }
        Ok(true)
    }

    /// The clause of a side.
    pub fn clause(&self, side: Side) -> &[Conj] {
        match side {
            Side::Source => self.rel.whens.as_slice(),
            Side::Target => self.rel.wheres.as_slice(),
        }
    }

    /// Whether an expression gives a variable's value.
    fn is_given(&self, variable: u32, value: &Typed, binding: &Binding) -> Result<bool, NoMemory> {
        let out = eval(self.alloc, self.program, value, self.models, binding)?;
        let is_given = are_same(value_of(binding, variable), datum_of(&out));
        drop(out);
        Ok(is_given)
    }

    /// Whether a condition is true, and an equation gives its variable's value; nothing is asked of a call.
    fn conjunct_holds(&self, conjunct: &Conj, binding: &Binding) -> Result<bool, NoMemory> {
        match conjunct {
            Conj::Cond(e) => holds(self.alloc, self.program, e, self.models, binding),
            Conj::Equation(variable, e) => self.is_given(*variable, e, binding),
            Conj::Call(..) => Ok(true),
        }
    }

    fn conjuncts_hold(&self, side: Side, binding: &Binding) -> Result<bool, NoMemory> {
        for conjunct in self.clause(side) {
            if !self.conjunct_holds(conjunct, binding)? {
                return Ok(false);
            }
        }
        Ok(true)
    }

    /// Whether a binding meets a side, but for the calls in its clause.
    pub fn meets(&self, side: Side, binding: &Binding) -> Result<bool, NoMemory> {
        if !self.have_values(self.sought(side), binding) {
            return Ok(false);
        }
        if !self.domains_meet(side, binding)? {
            return Ok(false);
        }
        self.conjuncts_hold(side, binding)
    }
}

/// Whether a template matches: its variable has a live object of its class, of which each item holds.
#[cycle(templates)]
fn matches(
    reading: &Reading<'_, '_>,
    template: &Tmpl,
    binding: &Binding,
) -> Result<bool, NoMemory> {
    match value_of(binding, template.var) {
        Some(datum) if is_of_class(reading.models, template.class, datum) => {
            items_hold(reading, template.items.as_slice(), datum, binding)
        }
        _ => Ok(false),
    }
}

#[cycle(templates)]
fn items_hold(
    reading: &Reading<'_, '_>,
    items: &[Item],
    datum: &Datum,
    binding: &Binding,
) -> Result<bool, NoMemory> {
    for item in items {
        if !item_holds(reading, item, datum, binding)? {
            return Ok(false);
        }
    }
    Ok(true)
}

/// Whether an item holds of an object: its slot is there, and has what is asked.
#[cycle(templates)]
fn item_holds(
    reading: &Reading<'_, '_>,
    item: &Item,
    datum: &Datum,
    binding: &Binding,
) -> Result<bool, NoMemory> {
    match held_at(
        reading.alloc,
        reading.program,
        reading.models,
        datum,
        item.prop,
    )? {
        Some(held) => {
            let is_had = has(reading, held.as_slice(), &item.value, binding);
            drop(held);
            is_had
        }
        None => Ok(false),
    }
}

/// Whether a slot has what an item asks: nothing; the value of an expression; an object that matches a
/// template.
#[cycle(templates)]
fn has(
    reading: &Reading<'_, '_>,
    held: &[Datum],
    value: &ItemValue,
    binding: &Binding,
) -> Result<bool, NoMemory> {
    match value {
        ItemValue::Null => Ok(held.is_empty()),
        ItemValue::Expr { value } => is_held(reading, held, value, binding),
        ItemValue::Nested { template } => {
            if stands_among(value_of(binding, template.var), held) {
                matches(reading, template, binding)
            } else {
                Ok(false)
            }
        }
    }
}
