ghost use Rattle.std.specs.Prelude.{◌≡◌, IfOk, OnOk};
ghost use Rattle.qvtr_semantics.specs.Outs.{boolean_of};
ghost use Rattle.qvtr_semantics.specs.Expressions.{value, value_for, is_true};
ghost use Rattle.qvtr_semantics.specs.Equality.{is_known_true as known_true};

use crate::machine::Machine;
use crate::models::Models;
use crate::outs::boolean_of;
use crate::reach::Reach;
use crate::scope::Scope;
use crate::world::World;
use mof_metamodel::{NoMemory, Seq};
use qv_syntax::{Program, Typed};
use qvtr_semantics::{Binding, Out};
use std::alloc::Global;
use std::mem;

/// The value of an expression (OCL 2.4, chapter 11) among the models of a program, with these values of the variables in reach, which
/// may be null or invalid. The variables keep their values, but for want of memory.
pub fn eval_in(
    alloc: Global,
    program: &Program,
    typed: &Typed,
    models: &Models<'_>,
    scope: &mut Scope,
) -> Result<Out, NoMemory>
    ensures value { IfOk result (λ out. out ≡ value program.now models.now typed.now scope.old) }
    ensures scope { OnOk result (scope.new ≡ scope.old) }
{
    let world = World {
        alloc,
        program,
        models,
        calls: program.queries.len(),
    };
    let reach = Reach::of(mem::replace(scope, Scope::new(Seq::new(alloc))));
    let mut machine = Machine::new(world, reach);
    let out = machine.run(typed)?;
    *scope = machine.into_scope()?;
    Ok(out)
}

/// The value of an expression (OCL 2.4, chapter 11) among the models of a program, where its first variables have the values of a
/// binding. A variable without a value is invalid.
pub fn eval(
    alloc: Global,
    program: &Program,
    typed: &Typed,
    models: &Models<'_>,
    binding: &Binding,
) -> Result<Out, NoMemory>
    ensures { IfOk result (λ out. out ≡ value_for program.now models.now typed.now binding.now.values) }
{
    let world = World {
        alloc,
        program,
        models,
        calls: program.queries.len(),
    };
    let reach = Reach::over(alloc, binding.values.as_slice());
    Machine::new(world, reach).run(typed)
}

/// Whether the value of an expression is true.
pub fn holds(
    alloc: Global,
    program: &Program,
    typed: &Typed,
    models: &Models<'_>,
    binding: &Binding,
) -> Result<bool, NoMemory>
    ensures { IfOk result (λ b. b ≡ is_true program.now models.now typed.now binding.now.values) }
{
    let out = eval(alloc, program, typed, models, binding)?;
    Ok(is_known_true(&out))
}

/// Whether the value is true.
fn is_known_true(out: &Out) -> bool
    ensures { result ≡ known_true (boolean_of out.now) }
{
    match boolean_of(out) {
        Some(b) => b,
        None => false,
    }
}
