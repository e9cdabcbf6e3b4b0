//! The equations of a relation, each behind those whose variables it names.
ghost use Rattle.std.specs.Prelude.{◌≡◌, ◌++◌, map, length, replicate, None, IfOk, OnOk};
ghost use Rattle.std.specs.Option.{option_map, option_to_list};
ghost use Rattle.qv_syntax.specs.declared.program.Program.{Program};
ghost use Rattle.repair_semantics.specs.Making.{variables};
ghost use Rattle.entry_making.specs.Orders.{HasNoCycle};
ghost use Rattle.entry_making.specs.Orderable.{WaitsForEquation};
ghost use Rattle.entry_making.specs.Equations.{shown_equation, equated, row_of, AreOfRelation, AreInOrder, with_conjunct, at_node, picked};

use crate::order::order_of;
use crate::origin::Equation;
use enforcement_rules::variables_of;
use mof_metamodel::{NoMemory, Seq};
use qv_syntax::{Conj, Rel};
use std::alloc::Global;

/// No equation for each of so many variables.
fn no_equations<'p>(alloc: Global, count: usize) -> Result<Vec<Option<Equation<'p>>>, NoMemory>
    ensures { IfOk result (λ table. table.items ≡ replicate count None) }
{
    let mut table = Vec::new(alloc);
    for i in 0..count {
        table.push(None)?;
    }
    Ok(table)
}

/// Puts the equation of a conjunct into its place, if it is one and the place is empty.
fn put_equation<'p>(table: &mut [Option<Equation<'p>>], conjunct: &'p Conj)
    ensures { map (option_map shown_equation) table.new ≡ with_conjunct (map (option_map shown_equation) table.old) conjunct.now }
{
    match conjunct {
        Conj::Equation(variable, expression) => {
            let place = *variable as usize;
            if place < table.len() && table[place].is_none() {
                table[place] = Some(Equation {
                    variable: *variable,
                    expression,
                });
            }
        }
        Conj::Cond(_) | Conj::Call(_, _) => {}
    }
}

/// The equation of each variable of a relation.
fn equation_table<'p>(alloc: Global, rel: &'p Rel) -> Result<Vec<Option<Equation<'p>>>, NoMemory>
    ensures { IfOk result (λ table. map (option_map shown_equation) table.items ≡ map (equated rel.now.wheres) (variables rel.now)) }
{
    let mut table = no_equations(alloc, rel.vars.len())?;
    for conjunct in rel.wheres.as_slice() {
        put_equation(table.as_mut_slice(), conjunct);
    }
    Ok(table)
}

/// The variables that an equation names.
fn row_of(
    alloc: Global,
    count: usize,
    equation: &Option<Equation<'_>>,
) -> Result<Seq<u32>, NoMemory>
    ensures { IfOk result (λ row. row ≡ row_of count (option_map shown_equation equation.now)) }
{
    match equation {
        Some(equation) => variables_of(alloc, count, equation.expression),
        None => Ok(Seq::new(alloc)),
    }
}

/// For each variable those that its equation names.
fn rows_of(alloc: Global, table: &[Option<Equation<'_>>]) -> Result<Seq<Seq<u32>>, NoMemory>
    ensures { IfOk result (λ rows. rows ≡ map (row_of (length table.now)) (map (option_map shown_equation) table.now)) }
{
    let mut rows = Seq::new(alloc);
    for equation in table {
        rows.push(row_of(alloc, table.len(), equation)?)?;
    }
    Ok(rows)
}

/// The equation of a variable, if a table has one.
#[tactic(auto, using(crate::proofs::TableLaws::shown_at, crate::proofs::TableLaws::shown_past))]
fn equation_at<'p>(table: &[Option<Equation<'p>>], variable: usize) -> Option<Equation<'p>>
    ensures { option_map shown_equation result ≡ at_node (map (option_map shown_equation) table.now) variable }
{
    if variable < table.len() {
        table[variable]
    } else {
        None
    }
}

/// Puts an equation behind others, if there is one.
fn push_equation<'p>(
    equation: Option<Equation<'p>>,
    out: &mut Seq<Equation<'p>>,
) -> Result<(), NoMemory>
    ensures { OnOk result (map shown_equation out.new ≡ map shown_equation out.old ++ option_to_list (option_map shown_equation equation.entry)) }
{
    match equation {
        Some(equation) => out.push(equation),
        None => Ok(()),
    }
}

/// The equations of a table for these variables, in their order.
fn picked<'p>(
    alloc: Global,
    table: &[Option<Equation<'p>>],
    order: &[usize],
) -> Result<Seq<Equation<'p>>, NoMemory>
    ensures { IfOk result (λ qs. map shown_equation qs ≡ picked (map (option_map shown_equation) table.now) order.now) }
{
    let mut equations = Seq::new(alloc);
    for v in order {
        push_equation(equation_at(table, *v), &mut equations)?;
    }
    Ok(equations)
}

/// The equations of a relation, each behind those whose variables it names.
pub(crate) fn equations_of<'p>(alloc: Global, rel: &'p Rel) -> Result<Seq<Equation<'p>>, NoMemory>
    requires { HasNoCycle (WaitsForEquation rel.now) }
    ensures within { IfOk result (λ qs. AreOfRelation rel.now (map shown_equation qs)) }
    ensures order { IfOk result (λ qs. (program : Program) → AreInOrder program rel.now (map shown_equation qs)) }
{
    let table = equation_table(alloc, rel)?;
    let rows = rows_of(alloc, table.as_slice())?;
    let order = order_of(alloc, rows.as_slice())?;
    picked(alloc, table.as_slice(), order.as_slice())
}
