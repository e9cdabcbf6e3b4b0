//! Programs, printed.
use crate::lines::put_number;
use crate::resolution::asked::Asked;
use crate::resolution::relations::put_relation;
use case_texts::Pen;
use expression_settings::put_typed_tree;
use ocl_environments::{Metas, type_text};
use qv_syntax::{Key, ModelSlot, Program, Query, Rel, Ty};
use std::alloc::Global;

/// Of a program what is asked, each line behind a line feed and two blanks.
pub(crate) fn put_program(
    alloc: Global,
    pen: &mut Pen,
    metas: &Metas,
    asked: Asked,
    program: &Program,
) {
    if asked == Asked::Program {
        put_head(alloc, pen, program);
        put_models(alloc, pen, program.models.as_slice());
        put_keys(alloc, pen, program.keys.as_slice());
        put_queries(alloc, pen, metas, program.queries.as_slice());
    }
    put_relations(alloc, pen, metas, asked, program.rels.as_slice());
}

fn put_head(alloc: Global, pen: &mut Pen, program: &Program) {
    let target = program.target;
    pen.put("\n  ");
    pen.put(program.name.as_str());
    pen.put_string(format!(in alloc; " towards {target}"));
}

fn put_models(alloc: Global, pen: &mut Pen, models: &[ModelSlot]) {
    for model in models {
        let meta = model.meta;
        pen.put("\n  model ");
        pen.put(model.name.as_str());
        pen.put_string(format!(in alloc; " of {meta}"));
    }
}

fn put_keys(alloc: Global, pen: &mut Pen, keys: &[Key]) {
    for key in keys {
        put_key(alloc, pen, key);
    }
}

fn put_key(alloc: Global, pen: &mut Pen, key: &Key) {
    let meta = key.meta;
    let class = key.class.0;
    pen.put_string(format!(in alloc; "\n  key {meta} {class}:"));
    for prop in key.props.as_slice() {
        put_number(alloc, pen, prop.0);
    }
}

fn put_queries(alloc: Global, pen: &mut Pen, metas: &Metas, queries: &[Query]) {
    for query in queries {
        put_query(alloc, pen, metas, query);
    }
}

fn put_query(alloc: Global, pen: &mut Pen, metas: &Metas, query: &Query) {
    pen.put("\n  query ");
    pen.put(query.name.as_str());
    pen.put("(");
    put_types(alloc, pen, metas, query.params.as_slice());
    pen.put(") : ");
    pen.put_text(type_text(alloc, metas, &query.result));
    pen.put(" is ");
    put_typed_tree(alloc, pen, metas, &query.body);
}

fn put_types(alloc: Global, pen: &mut Pen, metas: &Metas, types: &[Ty]) {
    let mut is_later = false;
    for ty in types {
        if is_later {
            pen.put(", ");
        }
        pen.put_text(type_text(alloc, metas, ty));
        is_later = true;
    }
}

fn put_relations(alloc: Global, pen: &mut Pen, metas: &Metas, asked: Asked, relations: &[Rel]) {
    for relation in relations {
        put_relation(alloc, pen, metas, asked, relation);
    }
}
