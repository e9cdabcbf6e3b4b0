//! Answers on expressions: their trees, where they end, and their types.
use crate::types::expressions::put_tree;
use crate::types::reading::{Reading, read};
use case_texts::Pen;
use expression_settings::{put_type_fault, put_typed_tree};
use ocl_environments::{Env, Metas, type_text};
use ocl_types::type_expr;
use qv_syntax::Expr;
use std::alloc::Global;

/// The number of the token behind an expression, where there is one.
fn put_rest(alloc: Global, pen: &mut Pen, reading: &Reading) {
    let end = reading.end;
    if end != reading.count {
        pen.put_string(format!(in alloc; " rest {end}"));
    }
}

/// The expression with which a text begins.
pub(crate) fn put_expr(alloc: Global, pen: &mut Pen, bytes: &[u8]) {
    if let Some(reading) = read(alloc, pen, bytes) {
        put_tree(alloc, pen, &reading.expr);
        put_rest(alloc, pen, &reading);
        drop(reading);
    }
}

/// The number of the token behind the expression with which a text begins.
pub(crate) fn put_end(alloc: Global, pen: &mut Pen, bytes: &[u8]) {
    if let Some(reading) = read(alloc, pen, bytes) {
        let end = reading.end;
        drop(reading);
        pen.put_string(format!(in alloc; "{end}"));
    }
}

/// The type of an expression.
fn put_type_of(alloc: Global, pen: &mut Pen, metas: &Metas, env: &Env<'_>, expr: &Expr) {
    match type_expr(alloc, env, expr) {
        Ok(typed) => {
            let text = type_text(alloc, metas, &typed.ty);
            drop(typed);
            pen.put_text(text);
        }
        Err(error) => {
            put_type_fault(pen, &error);
            drop(error);
        }
    }
}

/// The type of the expression with which a text begins.
pub(crate) fn put_type(alloc: Global, pen: &mut Pen, metas: &Metas, env: &Env<'_>, bytes: &[u8]) {
    if let Some(reading) = read(alloc, pen, bytes) {
        put_type_of(alloc, pen, metas, env, &reading.expr);
        put_rest(alloc, pen, &reading);
        drop(reading);
    }
}

/// An expression with its types.
fn put_tree_of(alloc: Global, pen: &mut Pen, metas: &Metas, env: &Env<'_>, expr: &Expr) {
    match type_expr(alloc, env, expr) {
        Ok(typed) => {
            put_typed_tree(alloc, pen, metas, &typed);
            drop(typed);
        }
        Err(error) => {
            put_type_fault(pen, &error);
            drop(error);
        }
    }
}

/// The same expression with its types.
pub(crate) fn put_typed(alloc: Global, pen: &mut Pen, metas: &Metas, env: &Env<'_>, bytes: &[u8]) {
    if let Some(reading) = read(alloc, pen, bytes) {
        put_tree_of(alloc, pen, metas, env, &reading.expr);
        put_rest(alloc, pen, &reading);
        drop(reading);
    }
}
