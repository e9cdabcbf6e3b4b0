use crate::values::models::models;
use crate::values::printing::put_out;
use crate::values::queries::{queries, reach};
use crate::values::reading::{Fault, typed};
use crate::values::variables::{Stage, bound};
use case_texts::Pen;
use expression_settings::{bool_word, metamodels, slots};
use mof_metamodel::{NoMemory, Seq, Text, or_drop};
use ocl_environments::{Env, Metas};
use ocl_eval::{eval, holds};
use qv_syntax::{ModelSlot, Program, Query};
use qvtr_semantics::Binding;
use std::alloc::Global;

/// The answers to the cases of a setting, whose name is its first line.
pub(crate) fn answers(alloc: Global, setting: &str) -> Result<Text, NoMemory> {
    let mut pen = Pen::new(alloc)?;
    let metas = or_drop!(metamodels(alloc, &mut pen, setting); pen);
    let put = put_answers(alloc, &mut pen, &metas, setting);
    drop(metas);
    or_drop!(put; pen);
    pen.written()
}

fn put_answers(alloc: Global, pen: &mut Pen, metas: &Metas, setting: &str) -> Result<(), NoMemory> {
    let models = models(alloc, pen, metas, setting)?;
    let program = or_drop!(program(alloc, metas, setting); models);
    let stage = Stage {
        alloc,
        metas,
        program: &program,
        models: &models,
    };
    let put = put_cases(pen, &stage, setting);
    drop(program);
    drop(models);
    put
}

fn put_cases(pen: &mut Pen, stage: &Stage<'_, '_>, setting: &str) -> Result<(), NoMemory> {
    let mut env = reach(stage.alloc, pen, stage.metas, setting)?;
    let put = put_bound(pen, stage, &mut env, setting);
    drop(env);
    put
}

/// Puts the cases of a setting with its queries in reach.
fn put_bound(
    pen: &mut Pen,
    stage: &Stage<'_, '_>,
    env: &mut Env<'_>,
    setting: &str,
) -> Result<(), NoMemory> {
    let binding = bound(pen, stage, env, setting)?;
    put_lines(pen, stage, env, &binding, setting);
    drop(binding);
    Ok(())
}

fn put_lines(
    pen: &mut Pen,
    stage: &Stage<'_, '_>,
    env: &Env<'_>,
    binding: &Binding,
    setting: &str,
) {
    for line in setting.lines() {
        answer_line(pen, stage, env, binding, line);
    }
}

/// The program of a setting: its models and queries alone.
fn program(alloc: Global, metas: &Metas, setting: &str) -> Result<Program, NoMemory> {
    let mut silent = Pen::new(alloc)?;
    let queries = or_drop!(queries(alloc, &mut silent, metas, setting); silent);
    let models = or_drop!(slots(alloc, &mut silent, metas, setting); queries, silent);
    drop(silent);
    with_queries(alloc, models, queries)
}

fn with_queries(
    alloc: Global,
    models: Seq<ModelSlot>,
    queries: Seq<Query>,
) -> Result<Program, NoMemory> {
    let name = or_drop!(Text::new(alloc, "Cases"); models, queries);
    Ok(Program {
        name,
        models,
        target: 0,
        keys: Seq::new(alloc),
        rels: Seq::new(alloc),
        queries,
    })
}

/// Prints a line that is a case, and its answer.
fn answer_line(pen: &mut Pen, stage: &Stage<'_, '_>, env: &Env<'_>, binding: &Binding, line: &str) {
    let (word, text) = line.split_once(' ').unwrap_or((line, ""));
    if word != "value" && word != "holds" {
        return;
    }
    pen.put(line);
    pen.put(" => ");
    let answered = if word == "value" {
        put_value(pen, stage, env, binding, text)
    } else {
        put_holds(pen, stage, env, binding, text)
    };
    if let Err(fault) = answered {
        pen.put(fault.0);
    }
    pen.put("\n");
}

/// The value of an expression.
fn put_value(
    pen: &mut Pen,
    stage: &Stage<'_, '_>,
    env: &Env<'_>,
    binding: &Binding,
    text: &str,
) -> Result<(), Fault> {
    let typed = typed(stage.alloc, env, text)?;
    let out = eval(stage.alloc, stage.program, &typed, stage.models, binding);
    drop(typed);
    let out = out?;
    put_out(pen, stage, &out);
    drop(out);
    Ok(())
}

/// Whether the value of an expression is true.
fn put_holds(
    pen: &mut Pen,
    stage: &Stage<'_, '_>,
    env: &Env<'_>,
    binding: &Binding,
    text: &str,
) -> Result<(), Fault> {
    let typed = typed(stage.alloc, env, text)?;
    let holds = holds(stage.alloc, stage.program, &typed, stage.models, binding);
    drop(typed);
    pen.put(bool_word(holds?));
    Ok(())
}
