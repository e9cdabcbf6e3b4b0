//! The data of an entry: those that it begins with, and those that its equations give.
ghost use Rattle.std.specs.Prelude.{◌≡◌, ◌<◌, length, map, slice_set, All, IfOk, OnOk};
ghost use Rattle.qvtr_semantics.specs.Expressions.{value};
ghost use Rattle.entry_making.specs.Numbered.{bound_out};
ghost use Rattle.entry_making.specs.Equations.{shown_equation, computed};

use crate::origin::Equation;
use crate::world::World;
use mof_metamodel::{NoMemory, Seq};
use ocl_eval::{Scope, duplicate_datum, eval_in};
use qvtr_semantics::Out;
use std::alloc::Global;
use term_table::NumberedValue;

/// The value of a variable as that of an expression; a term is none.
fn bound_out(alloc: Global, value: &Option<NumberedValue>) -> Result<Out, NoMemory>
    ensures { IfOk result (λ out. out ≡ bound_out value.now) }
{
    match value {
        Some(value) => match value {
            NumberedValue::Val(datum) => Ok(Out::One(duplicate_datum(alloc, datum)?)),
            NumberedValue::Term(_) => Ok(Out::Invalid),
        },
        None => Ok(Out::Invalid),
    }
}

/// The values of variables as those of expressions.
pub(crate) fn begun_scope(alloc: Global, b: &[Option<NumberedValue>]) -> Result<Scope, NoMemory>
    ensures { IfOk result (λ scope. scope ≡ map bound_out b.now) }
{
    let mut outs = Seq::new(alloc);
    for value in b {
        outs.push(bound_out(alloc, value)?)?;
    }
    Ok(Scope::new(outs))
}

/// Gives the variable of an equation the value of its expression.
fn compute(
    world: &World<'_, '_>,
    equation: &Equation<'_>,
    scope: &mut Scope,
) -> Result<(), NoMemory>
    requires { equation.now.variable < length scope.old }
    ensures value { OnOk result (scope.new ≡ slice_set scope.old equation.now.variable (value world.now.program.now world.now.models.now equation.now.expression.now scope.old)) }
    ensures places { OnOk result (length scope.new ≡ length scope.old) }
{
    let out = eval_in(
        world.alloc,
        world.program,
        equation.expression,
        world.models,
        scope,
    )?;
    scope.put(equation.variable, out);
    Ok(())
}

/// The same of equations, one after another.
pub(crate) fn compute_all(
    world: &World<'_, '_>,
    equations: &[Equation<'_>],
    scope: &mut Scope,
) -> Result<(), NoMemory>
    requires { All (λ q. q.variable < length scope.old) equations.now }
    ensures { OnOk result (scope.new ≡ computed world.now.program.now world.now.models.now scope.old (map shown_equation equations.now)) }
{
    for equation in equations {
        compute(world, equation, scope)?;
    }
    Ok(())
}
