ghost use Rattle.std.specs.Prelude.{◌≡◌, true, map};
ghost use Rattle.evaluation_laws.specs.Literals.{HasStorableTexts};
ghost use Rattle.program_texts.specs.Stored.{all_true, is_stored, is_template_stored, is_item_stored, is_value_stored, is_conjunct_stored, is_root_stored, is_domain_stored, is_relation_stored, is_query_stored};

use crate::expressions::{stored_expression, stored_expressions};
use qv_syntax::{Conj, Dom, Item, ItemValue, Program, Query, Rel, Tmpl};

#[cycle(templates)]
fn stored_value(value: &ItemValue)
    ensures { is_value_stored value.now ≡ true }
{
    match value {
        ItemValue::Null => {}
        ItemValue::Expr { value } => stored_expression(value),
        ItemValue::Nested { template } => stored_template(template),
    }
}

#[cycle(templates)]
fn stored_items(items: &[Item])
    ensures { all_true (map is_item_stored items.now) ≡ true }
{
    for item in items {
        stored_value(&item.value);
    }
}

#[cycle(templates)]
fn stored_template(t: &Tmpl)
    ensures { is_template_stored t.now ≡ true }
{
    stored_items(t.items.as_slice())
}

fn stored_conjunct(c: &Conj)
    ensures { is_conjunct_stored c.now ≡ true }
{
    match c {
        Conj::Cond(e) => stored_expression(e),
        Conj::Equation(_, e) => stored_expression(e),
        Conj::Call(_, args) => stored_expressions(args.as_slice()),
    }
}

fn stored_clause(clause: &[Conj])
    ensures { all_true (map is_conjunct_stored clause.now) ≡ true }
{
    for c in clause {
        stored_conjunct(c);
    }
}

fn stored_domain(dom: &Dom)
    ensures { is_domain_stored dom.now ≡ true }
{
    match &dom.template {
        None => {}
        Some(t) => stored_template(t),
    }
}

fn stored_domains(domains: &[Dom])
    ensures { all_true (map is_domain_stored domains.now) ≡ true }
{
    for dom in domains {
        stored_domain(dom);
    }
}

fn stored_relation(rel: &Rel)
    ensures { is_relation_stored rel.now ≡ true }
{
    stored_clause(rel.whens.as_slice());
    stored_clause(rel.wheres.as_slice());
    stored_domains(rel.domains.as_slice());
}

fn stored_relations(rels: &[Rel])
    ensures { all_true (map is_relation_stored rels.now) ≡ true }
{
    for rel in rels {
        stored_relation(rel);
    }
}

fn stored_queries(queries: &[Query])
    ensures { all_true (map is_query_stored queries.now) ≡ true }
{
    for query in queries {
        stored_expression(&query.body);
    }
}

/// The string literals of a program hold storable characters, in time linear in the program: each literal is asked once.
pub fn texts_are_storable(program: &Program)
    ensures { HasStorableTexts program.now }
{
    stored_queries(program.queries.as_slice());
    stored_relations(program.rels.as_slice());
}
