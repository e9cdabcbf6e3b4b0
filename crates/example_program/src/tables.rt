//! The top relations: schemas of packages, and tables of classes.
ghost use Rattle.std.specs.Prelude.{◌≡◌, [], ◌∷◌, ◌++◌, IsTrue, IfOk, OnOk};
ghost use Rattle.mof_metamodel.specs.Characters.{is_storable_text};
ghost use Rattle.example_models.specs.Descriptions.{is_ascii};
ghost use Rattle.example_program.specs.Words.{text, the_text, value_item, template};
ghost use Rattle.example_program.specs.MainProgram.{package_to_schema, class_pattern, table_pattern, class_to_table};

use crate::expressions::{text, the_object, the_text};
use crate::models::{SOURCE, TARGET};
use crate::patterns::{bare, push_template, push_value, template, two_domains};
use crate::relation::{Head, push_call, relation, two};
use crate::variables::{push_object, push_text};
use mof_metamodel::{NoMemory, Seq, or_drop};
use qv_syntax::{Conj, Dom, Item, Rel, Tmpl, Var};
use std::alloc::Global;

fn package_variables(alloc: Global) -> Result<Seq<Var>, NoMemory>
    ensures { IfOk result (λ vars. vars ≡ package_to_schema.vars) }
{
    let mut vars = Seq::new(alloc);
    or_drop!(push_text(alloc, &mut vars, "pn"); vars);
    or_drop!(push_object(alloc, &mut vars, "p", SOURCE, 1); vars);
    or_drop!(push_object(alloc, &mut vars, "s", TARGET, 1); vars);
    Ok(vars)
}

/// `variable : class {name = text}`
fn named(alloc: Global, variable: u32, class: u32, name: u32) -> Result<Tmpl, NoMemory>
    ensures { IfOk result (λ t. t ≡ template variable class (value_item 0 (the_text name) ∷ [])) }
{
    let mut items = Seq::new(alloc);
    or_drop!(push_value(&mut items, 0, the_text(name)); items);
    Ok(template(variable, class, items))
}

fn package_domains(alloc: Global) -> Result<Seq<Dom>, NoMemory>
    ensures { IfOk result (λ domains. domains ≡ package_to_schema.domains) }
{
    let package = named(alloc, 1, 1, 0)?;
    let schema = or_drop!(named(alloc, 2, 1, 0); package);
    two_domains(alloc, (1, package), (2, schema))
}

/// Schemas of packages.
pub(crate) fn package_to_schema(alloc: Global) -> Result<Rel, NoMemory>
    ensures { IfOk result (λ r. r ≡ package_to_schema) }
{
    let head = Head {
        name: "PackageToSchema",
        top: true,
        stratum: 0,
        universal: &[0, 1],
        existential: &[2],
    };
    let vars = package_variables(alloc)?;
    let domains = or_drop!(package_domains(alloc); vars);
    relation(
        alloc,
        &head,
        vars,
        domains,
        Seq::new(alloc),
        Seq::new(alloc),
    )
}

fn class_variables(alloc: Global) -> Result<Seq<Var>, NoMemory>
    ensures { IfOk result (λ vars. vars ≡ class_to_table.vars) }
{
    let mut vars = Seq::new(alloc);
    or_drop!(push_text(alloc, &mut vars, "cn"); vars);
    or_drop!(push_object(alloc, &mut vars, "c", SOURCE, 2); vars);
    or_drop!(push_object(alloc, &mut vars, "p", SOURCE, 1); vars);
    or_drop!(push_object(alloc, &mut vars, "t", TARGET, 2); vars);
    or_drop!(push_object(alloc, &mut vars, "s", TARGET, 1); vars);
    Ok(vars)
}

/// Puts `property = 'word'` behind other items.
fn push_word(alloc: Global, items: &mut Seq<Item>, prop: u32, word: &str) -> Result<(), NoMemory>
    requires ascii { IsTrue (is_ascii word.now) }
    requires storable { IsTrue (is_storable_text word.now) }
    ensures { OnOk result (items.new ≡ items.old ++ value_item prop (text word.now) ∷ []) }
{
    let value = text(alloc, word)?;
    push_value(items, prop, value)
}

/// Puts `kind = 'kind', name = cn` behind other items.
fn push_kind_and_name(alloc: Global, items: &mut Seq<Item>, kind: &str) -> Result<(), NoMemory>
    requires ascii { IsTrue (is_ascii kind.now) }
    requires storable { IsTrue (is_storable_text kind.now) }
    ensures { OnOk result (items.new ≡ items.old ++ value_item 3 (text kind.now) ∷ value_item 0 (the_text 0) ∷ []) }
{
    push_word(alloc, items, 3, kind)?;
    push_value(items, 0, the_text(0))
}

/// `c : Class {owner = p : Package {}, kind = 'persistent', name = cn}`
fn class_pattern(alloc: Global) -> Result<Tmpl, NoMemory>
    ensures { IfOk result (λ t. t ≡ class_pattern) }
{
    let mut items = Seq::new(alloc);
    or_drop!(push_template(&mut items, 2, bare(alloc, 2, 1)); items);
    or_drop!(push_kind_and_name(alloc, &mut items, "persistent"); items);
    Ok(template(1, 2, items))
}

/// `t : Table {schema = s : Schema {}, name = cn}`
fn table_pattern(alloc: Global) -> Result<Tmpl, NoMemory>
    ensures { IfOk result (λ t. t ≡ table_pattern) }
{
    let mut items = Seq::new(alloc);
    or_drop!(push_template(&mut items, 2, bare(alloc, 4, 1)); items);
    or_drop!(push_value(&mut items, 0, the_text(0)); items);
    Ok(template(3, 2, items))
}

fn class_domains(alloc: Global) -> Result<Seq<Dom>, NoMemory>
    ensures { IfOk result (λ domains. domains ≡ class_to_table.domains) }
{
    let class = class_pattern(alloc)?;
    let table = or_drop!(table_pattern(alloc); class);
    two_domains(alloc, (1, class), (3, table))
}

fn class_when(alloc: Global) -> Result<Seq<Conj>, NoMemory>
    ensures { IfOk result (λ whens. whens ≡ class_to_table.whens) }
{
    let args = two(alloc, the_object(2, SOURCE, 1), the_object(4, TARGET, 1))?;
    let mut whens = Seq::new(alloc);
    or_drop!(whens.push(Conj::Call(0, args)); whens);
    Ok(whens)
}

fn class_where(alloc: Global) -> Result<Seq<Conj>, NoMemory>
    ensures { IfOk result (λ wheres. wheres ≡ class_to_table.wheres) }
{
    let empty = text(alloc, "")?;
    let objects = or_drop!(two(alloc, the_object(1, SOURCE, 2), the_object(3, TARGET, 2)); empty);
    let mut wheres = Seq::new(alloc);
    or_drop!(push_call(&mut wheres, 2, objects, empty); wheres);
    Ok(wheres)
}

/// Tables of classes.
pub(crate) fn class_to_table(alloc: Global) -> Result<Rel, NoMemory>
    ensures { IfOk result (λ r. r ≡ class_to_table) }
{
    let head = Head {
        name: "ClassToTable",
        top: true,
        stratum: 1,
        universal: &[0, 1, 2, 4],
        existential: &[3],
    };
    let vars = class_variables(alloc)?;
    let domains = or_drop!(class_domains(alloc); vars);
    let whens = or_drop!(class_when(alloc); vars, domains);
    let wheres = or_drop!(class_where(alloc); vars, domains, whens);
    relation(alloc, &head, vars, domains, whens, wheres)
}
