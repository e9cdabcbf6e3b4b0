//! Expressions with their types, printed.
use crate::words::{bool_word, kind_word, operator_word};
use case_texts::Pen;
use mof_metamodel::{ClassId, EnumId};
use ocl_environments::{Metas, type_text};
use qv_syntax::{Call, Literal, Node, Ty, Typed, TypedInfix, TypedPostfix};
use std::alloc::Global;

fn put_type(alloc: Global, pen: &mut Pen, metas: &Metas, ty: &Ty) {
    pen.put(" : ");
    pen.put_text(type_text(alloc, metas, ty));
}

/// A typed tree: each part in parentheses with its type behind it. Names are numbers, as in the tree.
#[cycle(typed_printing)]
pub fn put_typed_tree(alloc: Global, pen: &mut Pen, metas: &Metas, typed: &Typed) {
    pen.put("(");
    put_node(alloc, pen, metas, &typed.node);
    put_type(alloc, pen, metas, &typed.ty);
    pen.put(")");
}

#[cycle(typed_printing)]
fn put_node(alloc: Global, pen: &mut Pen, metas: &Metas, node: &Node) {
    match node {
        Node::Let {
            variable,
            value,
            body,
        } => {
            pen.put_string(format!(in alloc; "let {variable} = "));
            put_typed_tree(alloc, pen, metas, value.get());
            put_behind(alloc, pen, metas, " in ", body.get());
        }
        Node::Chain { first, rest } => {
            put_typed_tree(alloc, pen, metas, first.get());
            put_infixes(alloc, pen, metas, rest.as_slice());
        }
        Node::Not { operand } => put_behind(alloc, pen, metas, "not ", operand.get()),
        Node::Negated { operand } => put_behind(alloc, pen, metas, "- ", operand.get()),
        Node::Calls { of, calls } => {
            put_typed_tree(alloc, pen, metas, of.get());
            put_postfixes(alloc, pen, metas, calls.as_slice());
        }
        Node::If {
            condition,
            one,
            other,
        } => {
            put_behind(alloc, pen, metas, "if ", condition.get());
            put_behind(alloc, pen, metas, " then ", one.get());
            put_behind(alloc, pen, metas, " else ", other.get());
        }
        Node::Coll { kind, elements } => {
            pen.put(kind_word(*kind));
            put_list(alloc, pen, metas, elements.as_slice());
        }
        Node::Query { query, args } => {
            pen.put_string(format!(in alloc; "query {query}"));
            put_list(alloc, pen, metas, args.as_slice());
        }
        _ => put_leaf(alloc, pen, node),
    }
}

/// The text of a string between its signs.
pub fn put_string(pen: &mut Pen, value: &Literal) {
    pen.put("'");
    pen.put(value.text().as_str());
    pen.put("'");
}

/// A node that has no parts.
fn put_leaf(alloc: Global, pen: &mut Pen, node: &Node) {
    match node {
        Node::Number { value } => pen.put_string(format!(in alloc; "{value}")),
        Node::Str { value } => put_string(pen, value),
        Node::Bool { value } => pen.put(bool_word(*value)),
        Node::Null => pen.put("null"),
        Node::Invalid => pen.put("invalid"),
        Node::EnumLiteral {
            meta,
            enumeration: EnumId(e),
            literal,
        } => pen.put_string(format!(in alloc; "literal {meta} {e} {literal}")),
        Node::Variable { number } => pen.put_string(format!(in alloc; "variable {number}")),
        Node::Extent {
            model,
            class: ClassId(c),
        } => pen.put_string(format!(in alloc; "extent {model} {c}")),
        _ => (),
    }
}

/// A part behind a word.
#[cycle(typed_printing)]
fn put_behind(alloc: Global, pen: &mut Pen, metas: &Metas, word: &str, part: &Typed) {
    pen.put(word);
    put_typed_tree(alloc, pen, metas, part);
}

/// Parts, each behind a blank.
#[cycle(typed_printing)]
fn put_list(alloc: Global, pen: &mut Pen, metas: &Metas, parts: &[Typed]) {
    for part in parts {
        pen.put(" ");
        put_typed_tree(alloc, pen, metas, part);
    }
}

/// Operators with the parts behind them, and the type up to there.
#[cycle(typed_printing)]
fn put_infixes(alloc: Global, pen: &mut Pen, metas: &Metas, infixes: &[TypedInfix]) {
    for infix in infixes {
        pen.put(" ");
        pen.put(operator_word(infix.operator));
        pen.put(" ");
        put_typed_tree(alloc, pen, metas, &infix.right);
        put_type(alloc, pen, metas, &infix.ty);
    }
}

/// Calls with the types that they give.
#[cycle(typed_printing)]
fn put_postfixes(alloc: Global, pen: &mut Pen, metas: &Metas, postfixes: &[TypedPostfix]) {
    for postfix in postfixes {
        pen.put(" . ");
        put_call(alloc, pen, metas, &postfix.call);
        put_type(alloc, pen, metas, &postfix.ty);
    }
}

#[cycle(typed_printing)]
fn put_call(alloc: Global, pen: &mut Pen, metas: &Metas, call: &Call) {
    match call {
        Call::Property { prop, values } => {
            let p = prop.0;
            pen.put_string(format!(in alloc; "property {p} {values:?}"));
        }
        Call::CollectProperty { prop, values } => {
            let p = prop.0;
            pen.put_string(format!(in alloc; "collected {p} {values:?}"));
        }
        Call::Operation { operation, args } => {
            pen.put_string(format!(in alloc; "{operation:?}"));
            put_list(alloc, pen, metas, args.as_slice());
        }
        Call::Class { operation, class } => {
            let c = class.0;
            pen.put_string(format!(in alloc; "{operation:?} {c}"));
        }
        Call::Collection { operation, args } => {
            pen.put_string(format!(in alloc; "{operation:?}"));
            put_list(alloc, pen, metas, args.as_slice());
        }
        Call::Iterator {
            iterator,
            variable,
            body,
        } => {
            pen.put_string(format!(in alloc; "{iterator:?} {variable} "));
            put_typed_tree(alloc, pen, metas, body.get());
        }
    }
}
