use crate::trees::relations::put_relation;
use crate::trees::templates::put_path;
use case_texts::Pen;
use qv_syntax::{Declaration, KeyTree, ModelTree, Name, ParamTree, QueryTree, Script};

/// A script in short.
pub(crate) fn put_script(pen: &mut Pen, script: &Script) {
    pen.put(script.name.text.as_str());
    put_models(pen, script.models.as_slice());
    put_declarations(pen, script.declarations.as_slice());
}

fn put_models(pen: &mut Pen, models: &[ModelTree]) {
    for model in models {
        pen.put(" ");
        pen.put(model.name.text.as_str());
        pen.put(":");
        pen.put(model.meta.text.as_str());
    }
}

fn put_declarations(pen: &mut Pen, declarations: &[Declaration]) {
    for declaration in declarations {
        pen.put("; ");
        put_declaration(pen, declaration);
    }
}

fn put_declaration(pen: &mut Pen, declaration: &Declaration) {
    match declaration {
        Declaration::Key { key } => put_key(pen, key),
        Declaration::Query { query } => put_query(pen, query),
        Declaration::Relation { relation } => put_relation(pen, relation),
    }
}

fn put_key(pen: &mut Pen, key: &KeyTree) {
    pen.put("key ");
    put_path(pen, &key.class);
    put_names(pen, key.props.as_slice());
}

/// Names, each behind a blank.
pub(crate) fn put_names(pen: &mut Pen, names: &[Name]) {
    for name in names {
        pen.put(" ");
        pen.put(name.text.as_str());
    }
}

fn put_query(pen: &mut Pen, query: &QueryTree) {
    pen.put("query ");
    pen.put(query.name.text.as_str());
    put_params(pen, query.params.as_slice());
}

fn put_params(pen: &mut Pen, params: &[ParamTree]) {
    for param in params {
        pen.put(" ");
        pen.put(param.name.text.as_str());
    }
}
