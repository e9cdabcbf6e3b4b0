//! Terms as they are printed, `Class[property = value, ..]`.
use case_texts::Pen;
use mof_metamodel::{ClassId, PropId};
use repair_account::{Told, put_datum};
use repair_semantics::{Term, TermValue};

/// A datum, a source object or a term.
#[cycle(terms)]
pub fn put_value(pen: &mut Pen, told: &Told<'_, '_>, value: &TermValue) {
    match value {
        TermValue::Val(datum) => put_datum(pen, told, datum),
        TermValue::Term(term) => put_term(pen, told, term),
    }
}

/// A term.
#[cycle(terms)]
pub fn put_term(pen: &mut Pen, told: &Told<'_, '_>, term: &Term) {
    pen.put(told.class_name(term.class));
    pen.put("[");
    put_keys(pen, told, term.class, term.keys.as_slice());
    pen.put("]");
}

#[cycle(terms)]
fn put_keys(pen: &mut Pen, told: &Told<'_, '_>, class: ClassId, values: &[TermValue]) {
    let props = told.key(class);
    for i in 0..values.len() {
        put_prop(pen, told, class, props, i);
        put_value(pen, told, &values[i]);
    }
}

fn put_prop(pen: &mut Pen, told: &Told<'_, '_>, class: ClassId, props: &[PropId], i: usize) {
    if i > 0 {
        pen.put(", ");
    }
    if let Some(prop) = props.get(i) {
        pen.put(told.prop_name(class, *prop));
    }
    pen.put(" = ");
}
