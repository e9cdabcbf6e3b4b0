use crate::trees::scripts::put_names;
use crate::trees::templates::put_template;
use case_texts::Pen;
use qv_syntax::{BlockTree, DomainMark, DomainTree, RelationTree, VarsTree};

/// A relation in short.
pub(crate) fn put_relation(pen: &mut Pen, relation: &RelationTree) {
    if relation.top {
        pen.put("top ");
    }
    pen.put("relation ");
    pen.put(relation.name.text.as_str());
    put_vars(pen, relation.vars.as_slice());
    put_domains(pen, relation.domains.as_slice());
    put_clause(pen, " when", &relation.when);
    put_clause(pen, " where", &relation.wheres);
}

fn put_vars(pen: &mut Pen, all: &[VarsTree]) {
    for vars in all {
        put_names(pen, vars.names.as_slice());
        pen.put(";");
    }
}

fn put_domains(pen: &mut Pen, domains: &[DomainTree]) {
    for domain in domains {
        pen.put(" ");
        put_domain(pen, domain);
    }
}

fn put_domain(pen: &mut Pen, domain: &DomainTree) {
    match domain {
        DomainTree::Pattern {
            mark,
            model,
            root,
            template,
            ..
        } => {
            pen.put(mark_word(*mark));
            pen.put(model.text.as_str());
            pen.put(" ");
            pen.put(root.text.as_str());
            put_template(pen, template);
        }
        DomainTree::Primitive { root, .. } => {
            pen.put("primitive ");
            pen.put(root.text.as_str());
        }
    }
}

fn mark_word(mark: Option<DomainMark>) -> &'static str {
    match mark {
        Some(DomainMark::Checkonly) => "checkonly ",
        Some(DomainMark::Enforce) => "enforce ",
        None => "domain ",
    }
}

fn put_clause(pen: &mut Pen, word: &str, clause: &Option<BlockTree>) {
    if let Some(block) = clause {
        pen.put(word);
        for _expr in block.exprs.as_slice() {
            pen.put(" _");
        }
    }
}
