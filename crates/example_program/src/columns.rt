//! The relations of attributes and columns.
ghost use Rattle.std.specs.Prelude.{◌≡◌, [], ◌∷◌, ◌++◌, IfOk, OnOk};
ghost use Rattle.example_program.specs.Words.{the_text, value_item, template, source_domain, target_domain, primitive_domain};
ghost use Rattle.example_program.specs.MainProgram.{column_call, attr_to_column, with_part, prim_to_column, nested_attr, nested_to_column, super_to_column};

use crate::expressions::{prefixed, the_object, the_text};
use crate::models::{SOURCE, TARGET};
use crate::patterns::{bare, push_primitive, push_template, push_value, template, two_domains};
use crate::relation::{Head, push_call, relation, two};
use crate::variables::{push_object, push_text};
use mof_metamodel::{NoMemory, Seq, or_drop};
use qv_syntax::{Conj, Dom, Rel, Tmpl, Var};
use std::alloc::Global;

/// Domains of the source, of the target, and a primitive one.
fn three_domains(
    alloc: Global,
    from: (u32, Tmpl),
    to: (u32, Tmpl),
    prefix: u32,
) -> Result<Seq<Dom>, NoMemory>
    ensures { IfOk result (λ domains. domains ≡ source_domain from.0 from.1 ∷ target_domain to.0 to.1 ∷ primitive_domain prefix ∷ []) }
{
    let mut domains = two_domains(alloc, from, to)?;
    or_drop!(push_primitive(&mut domains, prefix); domains);
    Ok(domains)
}

/// Puts a call with a class, a table and a prefix behind other conjuncts.
fn push_column_call(
    alloc: Global,
    clause: &mut Seq<Conj>,
    relation: u32,
    class: u32,
    table: u32,
    prefix: u32,
) -> Result<(), NoMemory>
    ensures { OnOk result (clause.new ≡ clause.old ++ column_call relation class table prefix ∷ []) }
{
    let objects = two(
        alloc,
        the_object(class, SOURCE, 2),
        the_object(table, TARGET, 2),
    )?;
    push_call(clause, relation, objects, the_text(prefix))
}

fn attr_variables(alloc: Global) -> Result<Seq<Var>, NoMemory>
    ensures { IfOk result (λ vars. vars ≡ attr_to_column.vars) }
{
    let mut vars = Seq::new(alloc);
    or_drop!(push_object(alloc, &mut vars, "c", SOURCE, 2); vars);
    or_drop!(push_object(alloc, &mut vars, "t", TARGET, 2); vars);
    or_drop!(push_text(alloc, &mut vars, "prefix"); vars);
    Ok(vars)
}

fn attr_where(alloc: Global) -> Result<Seq<Conj>, NoMemory>
    ensures { IfOk result (λ wheres. wheres ≡ attr_to_column.wheres) }
{
    let mut wheres = Seq::new(alloc);
    or_drop!(push_column_call(alloc, &mut wheres, 3, 0, 1, 2); wheres);
    or_drop!(push_column_call(alloc, &mut wheres, 4, 0, 1, 2); wheres);
    or_drop!(push_column_call(alloc, &mut wheres, 5, 0, 1, 2); wheres);
    Ok(wheres)
}

/// Columns of attributes, of each kind.
pub(crate) fn attr_to_column(alloc: Global) -> Result<Rel, NoMemory>
    ensures { IfOk result (λ r. r ≡ attr_to_column) }
{
    let head = Head {
        name: "AttrToColumn",
        top: false,
        stratum: 0,
        universal: &[0, 2],
        existential: &[1],
    };
    let vars = attr_variables(alloc)?;
    let (class, table) = (bare(alloc, 0, 2), bare(alloc, 1, 2));
    let domains = or_drop!(three_domains(alloc, (0, class), (1, table), 2); vars);
    let wheres = or_drop!(attr_where(alloc); vars, domains);
    relation(alloc, &head, vars, domains, Seq::new(alloc), wheres)
}

fn prim_variables(alloc: Global) -> Result<Seq<Var>, NoMemory>
    ensures { IfOk result (λ vars. vars ≡ prim_to_column.vars) }
{
    let mut vars = Seq::new(alloc);
    or_drop!(push_text(alloc, &mut vars, "an"); vars);
    or_drop!(push_text(alloc, &mut vars, "pt"); vars);
    or_drop!(push_text(alloc, &mut vars, "coln"); vars);
    or_drop!(push_object(alloc, &mut vars, "c", SOURCE, 2); vars);
    or_drop!(push_object(alloc, &mut vars, "a", SOURCE, 3); vars);
    or_drop!(push_object(alloc, &mut vars, "t", TARGET, 2); vars);
    or_drop!(push_object(alloc, &mut vars, "k", TARGET, 3); vars);
    or_drop!(push_text(alloc, &mut vars, "prefix"); vars);
    Ok(vars)
}

/// `variable : class {property = part}`
fn with_part(
    alloc: Global,
    variable: u32,
    class: u32,
    prop: u32,
    part: Tmpl,
) -> Result<Tmpl, NoMemory>
    ensures { IfOk result (λ t. t ≡ with_part variable class prop part) }
{
    let mut items = Seq::new(alloc);
    or_drop!(push_template(&mut items, prop, part); items);
    Ok(template(variable, class, items))
}

/// `variable : class {name = name, property = value}`
fn with_name(
    alloc: Global,
    variable: (u32, u32),
    name: u32,
    prop: u32,
    value: u32,
) -> Result<Tmpl, NoMemory>
    ensures { IfOk result (λ t. t ≡ template variable.0 variable.1 (value_item 0 (the_text name) ∷ value_item prop (the_text value) ∷ [])) }
{
    let (variable, class) = variable;
    let mut items = Seq::new(alloc);
    or_drop!(push_value(&mut items, 0, the_text(name)); items);
    or_drop!(push_value(&mut items, prop, the_text(value)); items);
    Ok(template(variable, class, items))
}

fn prim_domains(alloc: Global) -> Result<Seq<Dom>, NoMemory>
    ensures { IfOk result (λ domains. domains ≡ prim_to_column.domains) }
{
    let attr = with_name(alloc, (4, 3), 0, 9, 1)?;
    let class = with_part(alloc, 3, 2, 7, attr)?;
    let column = or_drop!(with_name(alloc, (6, 3), 2, 7, 1); class);
    let table = or_drop!(with_part(alloc, 5, 2, 5, column); class);
    three_domains(alloc, (3, class), (5, table), 7)
}

fn prim_where(alloc: Global) -> Result<Seq<Conj>, NoMemory>
    ensures { IfOk result (λ wheres. wheres ≡ prim_to_column.wheres) }
{
    let name = prefixed(alloc, 7, 0)?;
    let mut wheres = Seq::new(alloc);
    or_drop!(wheres.push(Conj::Equation(2, name)); wheres);
    Ok(wheres)
}

/// Columns of attributes of primitive types.
pub(crate) fn prim_to_column(alloc: Global) -> Result<Rel, NoMemory>
    ensures { IfOk result (λ r. r ≡ prim_to_column) }
{
    let head = Head {
        name: "PrimToColumn",
        top: false,
        stratum: 0,
        universal: &[0, 1, 3, 4, 7],
        existential: &[2, 5, 6],
    };
    let vars = prim_variables(alloc)?;
    let domains = or_drop!(prim_domains(alloc); vars);
    let wheres = or_drop!(prim_where(alloc); vars, domains);
    relation(alloc, &head, vars, domains, Seq::new(alloc), wheres)
}

fn nested_variables(alloc: Global) -> Result<Seq<Var>, NoMemory>
    ensures { IfOk result (λ vars. vars ≡ nested_to_column.vars) }
{
    let mut vars = Seq::new(alloc);
    or_drop!(push_text(alloc, &mut vars, "an"); vars);
    or_drop!(push_object(alloc, &mut vars, "c", SOURCE, 2); vars);
    or_drop!(push_object(alloc, &mut vars, "a", SOURCE, 3); vars);
    or_drop!(push_object(alloc, &mut vars, "d", SOURCE, 2); vars);
    or_drop!(push_object(alloc, &mut vars, "t", TARGET, 2); vars);
    or_drop!(push_text(alloc, &mut vars, "prefix"); vars);
    Ok(vars)
}

/// `a : Attr {name = an, ref = d : Class {}}`
fn nested_attr(alloc: Global) -> Result<Tmpl, NoMemory>
    ensures { IfOk result (λ t. t ≡ nested_attr) }
{
    let mut items = Seq::new(alloc);
    or_drop!(push_value(&mut items, 0, the_text(0)); items);
    or_drop!(push_template(&mut items, 10, bare(alloc, 3, 2)); items);
    Ok(template(2, 3, items))
}

fn nested_domains(alloc: Global) -> Result<Seq<Dom>, NoMemory>
    ensures { IfOk result (λ domains. domains ≡ nested_to_column.domains) }
{
    let attr = nested_attr(alloc)?;
    let class = with_part(alloc, 1, 2, 7, attr)?;
    three_domains(alloc, (1, class), (4, bare(alloc, 4, 2)), 5)
}

fn nested_where(alloc: Global) -> Result<Seq<Conj>, NoMemory>
    ensures { IfOk result (λ wheres. wheres ≡ nested_to_column.wheres) }
{
    let name = prefixed(alloc, 5, 0)?;
    let objects = or_drop!(two(alloc, the_object(3, SOURCE, 2), the_object(4, TARGET, 2)); name);
    let mut wheres = Seq::new(alloc);
    or_drop!(push_call(&mut wheres, 2, objects, name); wheres);
    Ok(wheres)
}

/// Columns of attributes of the class that another attribute refers to.
pub(crate) fn nested_to_column(alloc: Global) -> Result<Rel, NoMemory>
    ensures { IfOk result (λ r. r ≡ nested_to_column) }
{
    let head = Head {
        name: "NestedToColumn",
        top: false,
        stratum: 0,
        universal: &[0, 1, 2, 3, 5],
        existential: &[4],
    };
    let vars = nested_variables(alloc)?;
    let domains = or_drop!(nested_domains(alloc); vars);
    let wheres = or_drop!(nested_where(alloc); vars, domains);
    relation(alloc, &head, vars, domains, Seq::new(alloc), wheres)
}

fn super_variables(alloc: Global) -> Result<Seq<Var>, NoMemory>
    ensures { IfOk result (λ vars. vars ≡ super_to_column.vars) }
{
    let mut vars = Seq::new(alloc);
    or_drop!(push_object(alloc, &mut vars, "c", SOURCE, 2); vars);
    or_drop!(push_object(alloc, &mut vars, "d", SOURCE, 2); vars);
    or_drop!(push_object(alloc, &mut vars, "t", TARGET, 2); vars);
    or_drop!(push_text(alloc, &mut vars, "prefix"); vars);
    Ok(vars)
}

fn super_domains(alloc: Global) -> Result<Seq<Dom>, NoMemory>
    ensures { IfOk result (λ domains. domains ≡ super_to_column.domains) }
{
    let class = with_part(alloc, 0, 2, 4, bare(alloc, 1, 2))?;
    three_domains(alloc, (0, class), (2, bare(alloc, 2, 2)), 3)
}

fn super_where(alloc: Global) -> Result<Seq<Conj>, NoMemory>
    ensures { IfOk result (λ wheres. wheres ≡ super_to_column.wheres) }
{
    let mut wheres = Seq::new(alloc);
    or_drop!(push_column_call(alloc, &mut wheres, 2, 1, 2, 3); wheres);
    Ok(wheres)
}

/// Columns of attributes of a class above.
pub(crate) fn super_to_column(alloc: Global) -> Result<Rel, NoMemory>
    ensures { IfOk result (λ r. r ≡ super_to_column) }
{
    let head = Head {
        name: "SuperToColumn",
        top: false,
        stratum: 0,
        universal: &[0, 1, 3],
        existential: &[2],
    };
    let vars = super_variables(alloc)?;
    let domains = or_drop!(super_domains(alloc); vars);
    let wheres = or_drop!(super_where(alloc); vars, domains);
    relation(alloc, &head, vars, domains, Seq::new(alloc), wheres)
}
