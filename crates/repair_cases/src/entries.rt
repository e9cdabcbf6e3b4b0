//! Entries, calls and demands as they are printed.
use crate::terms::{put_term, put_value};
use case_texts::Pen;
use mof_metamodel::PropId;
use repair_account::Told;
use repair_semantics::{Demand, Entry, EntryName, Place, TermValue};

/// The name of a relation behind a word on a line.
fn put_relation(pen: &mut Pen, told: &Told<'_, '_>, word: &str, rel: u32) {
    pen.put("\n");
    pen.put(word);
    pen.put(" ");
    if let Some(rel) = told.relation(rel) {
        pen.put(rel.name.as_str());
    }
}

fn put_variable(pen: &mut Pen, told: &Told<'_, '_>, rel: u32, variable: usize, value: &TermValue) {
    pen.put(told.variable_name(rel, variable));
    pen.put(" = ");
    put_value(pen, told, value);
}

/// A line for each variable that has a value.
fn put_values(
    pen: &mut Pen,
    told: &Told<'_, '_>,
    begin: &str,
    rel: u32,
    values: &[Option<TermValue>],
) {
    for i in 0..values.len() {
        if let Some(value) = &values[i] {
            pen.put(begin);
            put_variable(pen, told, rel, i, value);
        }
    }
}

/// An entry as refusals name it: its relation and the values of its variables.
pub fn put_named(pen: &mut Pen, told: &Told<'_, '_>, entry: &Entry) {
    put_relation(pen, told, "relation", entry.rel);
    put_values(pen, told, "\n  ", entry.rel, entry.values.as_slice());
}

/// An entry whole: whether it is called, the values of its variables, and what it makes.
pub fn put_entry(pen: &mut Pen, told: &Told<'_, '_>, entry: &Entry) {
    let word = if entry.called { "called" } else { "entry" };
    put_relation(pen, told, word, entry.rel);
    put_values(pen, told, "\n  ", entry.rel, entry.values.as_slice());
    put_values(pen, told, "\n  makes ", entry.rel, entry.made.as_slice());
}

/// A call of a chain.
pub fn put_call(pen: &mut Pen, told: &Told<'_, '_>, call: &EntryName) {
    pen.put("\n");
    if let Some(rel) = told.relation(call.rel) {
        pen.put(rel.name.as_str());
    }
    put_roots(pen, told, call.roots.as_slice());
}

fn put_roots(pen: &mut Pen, told: &Told<'_, '_>, roots: &[TermValue]) {
    let mut before = "(";
    for root in roots {
        pen.put(before);
        put_value(pen, told, root);
        before = ", ";
    }
    pen.put(")");
}

/// A demand, with the number of its entry.
pub fn put_demand(pen: &mut Pen, told: &Told<'_, '_>, demand: &Demand) {
    let entry = demand.entry;
    pen.put_string(format!(in told.alloc; "\n{entry}: "));
    put_term(pen, told, &demand.owner);
    pen.put(" ");
    pen.put(told.prop_name(demand.owner.class, demand.prop));
    pen.put(" = ");
    put_value(pen, told, &demand.value);
}

/// The name of a property of the target, wherever it stands.
pub fn put_prop(pen: &mut Pen, told: &Told<'_, '_>, prop: PropId) {
    pen.put(told.any_prop_name(prop));
}

/// Where an entry is unmet.
pub fn put_place(pen: &mut Pen, told: &Told<'_, '_>, place: &Place) {
    match place {
        Place::Where(number) => {
            let number = *number;
            pen.put_string(format!(in told.alloc; "\n  where {number}"));
        }
        Place::Item(prop) => {
            pen.put("\n  item ");
            put_prop(pen, told, *prop);
        }
    }
}

/// An item of a conflict with its value.
pub fn put_item(pen: &mut Pen, told: &Told<'_, '_>, item: PropId, value: &TermValue) {
    pen.put("\n  item ");
    put_prop(pen, told, item);
    pen.put(" = ");
    put_value(pen, told, value);
}
