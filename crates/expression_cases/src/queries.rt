//! Cases of queries.
use case_texts::Pen;
use expression_settings::put_type_fault;
use mof_metamodel::{NoMemory, Seq, Text};
use ocl_environments::{Env, Metas, type_text};
use ocl_types::type_queries;
use ql_lex::{Tokens, lex};
use qv_syntax::{Declaration, Query, QueryTree, Script};
use qvtr_parser::parse_script;
use std::alloc::Global;

/// The lines that are cases, each with its answer.
pub(crate) fn answers(alloc: Global, cases: &str) -> Result<Text, NoMemory> {
    let mut pen = Pen::new(alloc)?;
    for line in cases.lines() {
        if !line.is_empty() && !line.starts_with('#') {
            answer_line(alloc, &mut pen, line);
        }
    }
    pen.written()
}

fn answer_line(alloc: Global, pen: &mut Pen, line: &str) {
    pen.put(line);
    pen.put(" =>");
    if put_answer(alloc, pen, line).is_err() {
        pen.put(" no memory");
    }
    pen.put("\n");
}

fn put_answer(alloc: Global, pen: &mut Pen, line: &str) -> Result<(), NoMemory> {
    let text = format!(in alloc; "transformation T (m : M) {{ {line} }}")?;
    match lex(alloc, text.as_bytes()) {
        Ok(tokens) => put_parsed(alloc, pen, &tokens),
        Err(_) => {
            pen.put(" no tokens");
            Ok(())
        }
    }
}

fn put_parsed(alloc: Global, pen: &mut Pen, tokens: &Tokens<'_>) -> Result<(), NoMemory> {
    match parse_script(alloc, tokens) {
        Ok(script) => {
            let put = put_typed(alloc, pen, &script);
            drop(script);
            put
        }
        Err(_) => {
            pen.put(" no script");
            Ok(())
        }
    }
}

/// The queries of a script.
fn queries_of(alloc: Global, script: &Script) -> Result<Seq<&QueryTree>, NoMemory> {
    let mut queries = Seq::new(alloc);
    for declaration in script.declarations.as_slice() {
        match declaration {
            Declaration::Query { query } => queries.push(query)?,
            _ => {}
        }
    }
    Ok(queries)
}

fn put_typed(alloc: Global, pen: &mut Pen, script: &Script) -> Result<(), NoMemory> {
    let queries = queries_of(alloc, script)?;
    put_types(alloc, pen, queries.as_slice());
    Ok(())
}

fn put_types(alloc: Global, pen: &mut Pen, queries: &[&QueryTree]) {
    let mut env = Env::new(alloc);
    let typed = type_queries(alloc, &mut env, queries);
    drop(env);
    match typed {
        Ok(typed) => {
            put_queries(alloc, pen, typed.as_slice());
            drop(typed);
        }
        Err(error) => {
            pen.put(" ");
            put_type_fault(pen, &error);
            drop(error);
        }
    }
}

fn put_queries(alloc: Global, pen: &mut Pen, queries: &[Query]) {
    let metas = Metas::new(alloc);
    for query in queries {
        let count = query.params.len();
        pen.put(" ");
        pen.put(query.name.as_str());
        pen.put_string(format!(in alloc; "/{count}:"));
        pen.put_text(type_text(alloc, &metas, &query.body.ty));
    }
}
