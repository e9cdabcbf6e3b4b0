//! What scripts resolve to.
ghost use Rattle.std.specs.Prelude.{◌<◌, ◌^◌, length};
ghost use Rattle.qv_syntax.specs.WellFormed.{IsWellFormed};

use crate::lines::put_line;
use crate::resolution::asked::{Asked, Case};
use crate::resolution::programs::put_program;
use case_texts::Pen;
use example_program::main_program;
use expression_settings::metamodels_named;
use mof_metamodel::NoMemory;
use ocl_environments::{Metas, TypeError};
use qv_syntax::{Program, Script};
use qvtr_types::{NotEnforceable, RuleError, enforceable, resolve};
use script_files::type_fault_text;
use script_scopes::metamodel_names;
use std::alloc::Global;

/// What a script resolves to, over the metamodels of the setting.
pub(crate) fn put_resolved(
    alloc: Global,
    pen: &mut Pen,
    setting: &str,
    case: &Case<'_>,
    script: &Script,
) -> Result<(), NoMemory> {
    let names = metamodel_names(alloc, script)?;
    match metamodels_named(alloc, setting, names.as_slice()) {
        Ok(metas) => put_over(alloc, pen, &metas, case, script),
        Err(_) => {
            pen.put(" no metamodel");
            Ok(())
        }
    }
}

fn put_over(
    alloc: Global,
    pen: &mut Pen,
    metas: &Metas,
    case: &Case<'_>,
    script: &Script,
) -> Result<(), NoMemory> {
    let names = metamodel_names(alloc, script)?;
    let count = names.len();
    drop(names);
    if metas.len() as usize != count {
        pen.put(" no metamodel");
        return Ok(());
    }
    if case.asked == Asked::Example {
        put_example(alloc, pen, metas);
        return Ok(());
    }
    match resolve(alloc, script, metas, case.target) {
        Ok(program) => {
            put_asked(alloc, pen, metas, case.asked, &program);
            drop(program);
        }
        Err(error) => {
            put_fault(alloc, pen, &error);
            drop(error);
        }
    }
    Ok(())
}

/// The program of the example, as code makes it, over the metamodels of a script.
fn put_example(alloc: Global, pen: &mut Pen, metas: &Metas) {
    match main_program(alloc) {
        Ok(program) => {
            put_program(alloc, pen, metas, Asked::Program, &program);
            drop(program);
        }
        Err(_) => pen.put(" no memory"),
    }
}

fn put_asked(alloc: Global, pen: &mut Pen, metas: &Metas, asked: Asked, program: &Program)
    requires formed { IsWellFormed metas.now program.now }
    requires relations { length program.now.rels < 2 ^ 32 }
    requires queries { length program.now.queries < 2 ^ 32 }
{
    match asked {
        Asked::Verdict => pen.put(" resolved"),
        Asked::Rules => put_rules(alloc, pen, metas, program),
        _ => put_program(alloc, pen, metas, asked, program),
    }
}

fn put_fault(alloc: Global, pen: &mut Pen, error: &TypeError) {
    match error {
        TypeError::Fault(fault) => put_line(pen, &type_fault_text(alloc, "s.qvtr", fault)),
        TypeError::NoMemory => pen.put(" no memory"),
    }
}

/// Whether the program can be enforced, and else the rule that is broken and the relation that breaks it.
fn put_rules(alloc: Global, pen: &mut Pen, metas: &Metas, program: &Program)
    requires formed { IsWellFormed metas.now program.now }
    requires relations { length program.now.rels < 2 ^ 32 }
    requires queries { length program.now.queries < 2 ^ 32 }
{
    match enforceable(alloc, program, metas) {
        Ok(()) => pen.put(" ok"),
        Err(RuleError::Broken(broken)) => put_broken(alloc, pen, program, broken),
        Err(RuleError::NoMemory) => pen.put(" no memory"),
    }
}

fn put_broken(alloc: Global, pen: &mut Pen, program: &Program, broken: NotEnforceable) {
    let rule = broken.rule;
    pen.put_string(format!(in alloc; " E{rule} "));
    if let Some(rel) = program.rels.as_slice().get(broken.relation as usize) {
        pen.put(rel.name.as_str());
    }
}
