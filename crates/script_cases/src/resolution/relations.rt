//! Relations of programs, printed.
use crate::lines::put_numbers;
use crate::resolution::asked::Asked;
use crate::resolution::templates::put_template;
use case_texts::Pen;
use expression_settings::put_typed_tree;
use ocl_environments::{Metas, type_text};
use qv_syntax::{Conj, Dom, Marker, Rel, Typed, Var};
use std::alloc::Global;

/// Of a relation what is asked.
pub(crate) fn put_relation(
    alloc: Global,
    pen: &mut Pen,
    metas: &Metas,
    asked: Asked,
    relation: &Rel,
) {
    put_head(alloc, pen, relation);
    if asked.has_variables() {
        put_variables(alloc, pen, metas, relation.vars.as_slice());
        pen.put("\n    universal");
        put_numbers(alloc, pen, relation.universal.as_slice());
        pen.put("\n    existential");
        put_numbers(alloc, pen, relation.existential.as_slice());
    }
    if asked.has_domains() {
        put_domains(alloc, pen, metas, relation.domains.as_slice());
    }
    if asked.has_clauses() {
        put_clause(alloc, pen, metas, "when", relation.whens.as_slice());
        put_clause(alloc, pen, metas, "where", relation.wheres.as_slice());
    }
}

fn put_head(alloc: Global, pen: &mut Pen, relation: &Rel) {
    let stratum = relation.stratum;
    pen.put("\n  relation ");
    pen.put(relation.name.as_str());
    if relation.top {
        pen.put(", top");
    }
    if relation.in_direction {
        pen.put(", in the direction");
    }
    pen.put_string(format!(in alloc; ", stratum {stratum}"));
}

fn put_variables(alloc: Global, pen: &mut Pen, metas: &Metas, vars: &[Var]) {
    for (number, var) in vars.iter().enumerate() {
        pen.put_string(format!(in alloc; "\n    variable {number} "));
        put_variable(alloc, pen, metas, var);
    }
}

fn put_variable(alloc: Global, pen: &mut Pen, metas: &Metas, var: &Var) {
    pen.put(var.name.as_str());
    pen.put(" : ");
    pen.put_text(type_text(alloc, metas, &var.ty));
    if let Some(model) = var.model {
        pen.put_string(format!(in alloc; " of {model}"));
    }
}

fn put_domains(alloc: Global, pen: &mut Pen, metas: &Metas, domains: &[Dom]) {
    for domain in domains {
        put_domain(alloc, pen, metas, domain);
    }
}

fn marker_word(marker: Marker) -> &'static str {
    match marker {
        Marker::Checkonly => "checkonly",
        Marker::Enforce => "enforce",
        Marker::Primitive => "primitive",
    }
}

fn put_domain(alloc: Global, pen: &mut Pen, metas: &Metas, domain: &Dom) {
    let root = domain.root;
    pen.put("\n    domain ");
    pen.put(marker_word(domain.marker));
    if let Some(model) = domain.model {
        pen.put_string(format!(in alloc; " of {model}"));
    }
    pen.put_string(format!(in alloc; ", root {root}"));
    if let Some(template) = &domain.template {
        pen.put(", ");
        put_template(alloc, pen, metas, template);
    }
}

fn put_clause(alloc: Global, pen: &mut Pen, metas: &Metas, word: &str, conjuncts: &[Conj]) {
    for conjunct in conjuncts {
        pen.put("\n    ");
        pen.put(word);
        put_conjunct(alloc, pen, metas, conjunct);
    }
}

fn put_conjunct(alloc: Global, pen: &mut Pen, metas: &Metas, conjunct: &Conj) {
    match conjunct {
        Conj::Cond(tree) => {
            pen.put(" condition ");
            put_typed_tree(alloc, pen, metas, tree);
        }
        Conj::Equation(number, tree) => {
            pen.put_string(format!(in alloc; " equation {number} = "));
            put_typed_tree(alloc, pen, metas, tree);
        }
        Conj::Call(number, args) => {
            pen.put_string(format!(in alloc; " call {number}"));
            put_arguments(alloc, pen, metas, args.as_slice());
        }
    }
}

fn put_arguments(alloc: Global, pen: &mut Pen, metas: &Metas, args: &[Typed]) {
    for arg in args {
        pen.put(" ");
        put_typed_tree(alloc, pen, metas, arg);
    }
}
