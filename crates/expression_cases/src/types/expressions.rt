use case_texts::Pen;
use expression_settings::{bool_word, kind_word, operator_word, put_string};
use ocl_environments::path_text;
use qv_syntax::{Args, Expr, Infix, Kind, Name, Path, Postfix, TypeTree};
use std::alloc::Global;

fn put_path(alloc: Global, pen: &mut Pen, path: &Path) {
    pen.put_text(path_text(alloc, path));
}

/// A type as it is written.
fn put_type(alloc: Global, pen: &mut Pen, ty: &TypeTree) {
    match ty {
        TypeTree::Str { .. } => pen.put("String"),
        TypeTree::Int { .. } => pen.put("Integer"),
        TypeTree::Bool { .. } => pen.put("Boolean"),
        TypeTree::Named { path } => put_path(alloc, pen, path),
        TypeTree::Coll { kind, of, .. } => {
            pen.put(kind_word(*kind));
            pen.put("(");
            put_type(alloc, pen, of.get());
            pen.put(")");
        }
    }
}

/// An expression with each operator and its parts in parentheses. Written parentheses are printed as
/// brackets.
#[cycle(printing)]
pub(crate) fn put_tree(alloc: Global, pen: &mut Pen, expr: &Expr) {
    match expr {
        Expr::Let {
            name,
            ty,
            value,
            body,
            ..
        } => {
            put_variable(alloc, pen, name, ty);
            put_between(alloc, pen, " = ", value.get(), " in ");
            put_between(alloc, pen, "", body.get(), ")");
        }
        Expr::Chain { first, rest, .. } => {
            put_times(pen, "(", rest.len());
            put_tree(alloc, pen, first.get());
            put_infixes(alloc, pen, rest.as_slice());
        }
        Expr::Not { operand, .. } => put_between(alloc, pen, "(not ", operand.get(), ")"),
        Expr::Negated { operand, .. } => put_between(alloc, pen, "(-", operand.get(), ")"),
        Expr::Calls { of, calls, .. } => {
            put_tree(alloc, pen, of.get());
            put_postfixes(alloc, pen, calls.as_slice());
        }
        Expr::Parens { inner, .. } => put_between(alloc, pen, "[", inner.get(), "]"),
        Expr::If {
            condition,
            one,
            other,
            ..
        } => {
            put_between(alloc, pen, "if ", condition.get(), " then ");
            put_between(alloc, pen, "", one.get(), " else ");
            put_between(alloc, pen, "", other.get(), " endif");
        }
        Expr::Coll { kind, elements, .. } => put_coll(alloc, pen, *kind, elements.as_slice()),
        Expr::Call { name, args, .. } => put_named_call(alloc, pen, "", name, args),
        _ => put_leaf(alloc, pen, expr),
    }
}

/// An expression that has no parts.
fn put_leaf(alloc: Global, pen: &mut Pen, expr: &Expr) {
    match expr {
        Expr::Number { value, .. } => pen.put_string(format!(in alloc; "{value}")),
        Expr::Str { value, .. } => put_string(pen, value),
        Expr::Bool { value, .. } => pen.put(bool_word(*value)),
        Expr::Null { .. } => pen.put("null"),
        Expr::Invalid { .. } => pen.put("invalid"),
        Expr::Named { path } => put_path(alloc, pen, path),
        _ => (),
    }
}

/// The head of a let.
fn put_variable(alloc: Global, pen: &mut Pen, name: &Name, ty: &TypeTree) {
    pen.put("(let ");
    pen.put(name.text.as_str());
    pen.put(" : ");
    put_type(alloc, pen, ty);
}

#[cycle(printing)]
fn put_coll(alloc: Global, pen: &mut Pen, kind: Kind, elements: &[Expr]) {
    pen.put(kind_word(kind));
    pen.put("{");
    put_list(alloc, pen, elements);
    pen.put("}");
}

/// A call behind its sign.
#[cycle(printing)]
fn put_named_call(alloc: Global, pen: &mut Pen, sign: &str, name: &Name, args: &Args) {
    pen.put(sign);
    pen.put(name.text.as_str());
    put_args(alloc, pen, args);
}

fn put_times(pen: &mut Pen, text: &str, times: usize) {
    for _ in 0..times {
        pen.put(text);
    }
}

/// An expression between two texts.
#[cycle(printing)]
fn put_between(alloc: Global, pen: &mut Pen, before: &str, expr: &Expr, behind: &str) {
    pen.put(before);
    put_tree(alloc, pen, expr);
    pen.put(behind);
}

/// Operators with the parts behind them, each closing a parenthesis.
#[cycle(printing)]
fn put_infixes(alloc: Global, pen: &mut Pen, infixes: &[Infix]) {
    for infix in infixes {
        pen.put(" ");
        pen.put(operator_word(infix.operator));
        pen.put(" ");
        put_tree(alloc, pen, &infix.right);
        pen.put(")");
    }
}

/// Expressions with commas between them.
#[cycle(printing)]
fn put_list(alloc: Global, pen: &mut Pen, exprs: &[Expr]) {
    let mut is_first = true;
    for expr in exprs {
        if !is_first {
            pen.put(", ");
        }
        put_tree(alloc, pen, expr);
        is_first = false;
    }
}

#[cycle(printing)]
fn put_args(alloc: Global, pen: &mut Pen, args: &Args) {
    pen.put("(");
    match args {
        Args::Values { values } => put_list(alloc, pen, values.as_slice()),
        Args::Class { path } => {
            pen.put("class ");
            put_path(alloc, pen, path);
        }
    }
    pen.put(")");
}

#[cycle(printing)]
fn put_postfixes(alloc: Global, pen: &mut Pen, postfixes: &[Postfix]) {
    for postfix in postfixes {
        put_postfix(alloc, pen, postfix);
    }
}

#[cycle(printing)]
fn put_postfix(alloc: Global, pen: &mut Pen, postfix: &Postfix) {
    match postfix {
        Postfix::Property { name } => {
            pen.put(".");
            pen.put(name.text.as_str());
        }
        Postfix::Dot { name, args, .. } => put_named_call(alloc, pen, ".", name, args),
        Postfix::Arrow { name, args, .. } => put_named_call(alloc, pen, "->", name, args),
        Postfix::Iterator {
            name,
            variable,
            ty,
            body,
            ..
        } => {
            pen.put("->");
            pen.put(name.text.as_str());
            pen.put("(");
            pen.put(variable.text.as_str());
            put_written(alloc, pen, ty);
            put_between(alloc, pen, " | ", body.get(), ")");
        }
    }
}

/// The type of a variable, if one is written.
fn put_written(alloc: Global, pen: &mut Pen, ty: &Option<TypeTree>) {
    match ty {
        Some(ty) => {
            pen.put(" : ");
            put_type(alloc, pen, ty);
        }
        None => (),
    }
}
