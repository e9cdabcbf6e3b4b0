//! From the words of a case to what is demanded.
ghost use Rattle.std.specs.Prelude.{◌≡◌, ◌<◌, ◌^◌, length};
ghost use Rattle.qv_syntax.specs.WellFormed.{IsWellFormed};
ghost use Rattle.script_scopes.specs.Environments.{metamodel_names as metamodels};
ghost use Rattle.enforcement_rules.specs.Rules.{IsEnforceable};
ghost use Rattle.evaluation_laws.specs.Evaluable.{IsEvaluable};
ghost use Rattle.entry_finding.specs.Premises.{CanBeEnforced};

use crate::enforcing::Transformation;
use crate::files::CaseFiles;
use crate::inputs::{Origin, metas_of, models_of};
use crate::outcomes::{Question, Shown, put_demanded, put_made};
use crate::small::is_enforced_over;
use crate::trials::put_trials;
use case_texts::Pen;
use mof_metamodel::{NoMemory, Text, or_drop};
use ocl_environments::{Metas, TypeError};
use ocl_eval::Models;
use program_texts::texts_are_storable;
use qv_syntax::{Program, Script};
use qvtr_types::{RuleError, enforceable, resolve};
use script_files::{ScriptError, read_script};
use script_scopes::metamodel_names;

/// What a case asks: of a script, a target and the files of names, a question.
#[derive(Clone, Copy)]
struct Asked<'a> {
    files: &'a CaseFiles,
    target: &'a str,
    pairs: &'a str,
    question: Question,
}

/// The answer to a case.
pub fn answer(files: &CaseFiles, words: &str, question: Question) -> Result<Text, NoMemory> {
    let (script, rest) = words.split_once(' ').unwrap_or((words, ""));
    let (target, pairs) = rest.split_once(' ').unwrap_or((rest, ""));
    let asked = Asked {
        files,
        target,
        pairs,
        question,
    };
    let mut pen = Pen::new(files.alloc)?;
    or_drop!(put_script(&mut pen, &asked, script); pen);
    pen.written()
}

fn put_script(pen: &mut Pen, asked: &Asked<'_>, script: &str) -> Result<(), NoMemory> {
    match read_script(asked.files.alloc, asked.files.bytes(script)) {
        Ok(script) => {
            let put = put_of_script(pen, asked, &script);
            drop(script);
            put
        }
        Err(ScriptError::NoMemory) => Err(NoMemory),
        Err(_) => {
            pen.put(" no script");
            Ok(())
        }
    }
}

fn put_of_script(pen: &mut Pen, asked: &Asked<'_>, script: &Script) -> Result<(), NoMemory> {
    let names = metamodel_names(asked.files.alloc, script)?;
    let put = put_named(pen, asked, script, names.as_slice());
    drop(names);
    put
}

fn put_named(
    pen: &mut Pen,
    asked: &Asked<'_>,
    script: &Script,
    names: &[Text],
) -> Result<(), NoMemory>
    requires { names.now ≡ metamodels script.now }
{
    match metas_of(asked.files, asked.pairs, names)? {
        Some(metas) if metas.len() as usize == names.len() => {
            put_over(pen, asked, script, &metas)
        }
        _ => {
            pen.put(" no metamodels");
            Ok(())
        }
    }
}

fn put_over(
    pen: &mut Pen,
    asked: &Asked<'_>,
    script: &Script,
    metas: &Metas,
) -> Result<(), NoMemory>
    requires { length (metamodels script.now) ≡ length metas.now }
{
    match resolve(asked.files.alloc, script, metas, asked.target) {
        Ok(program) => {
            let put = put_program(pen, asked, metas, &program);
            drop(program);
            put
        }
        Err(TypeError::NoMemory) => Err(NoMemory),
        Err(_) => {
            pen.put(" no program");
            Ok(())
        }
    }
}

fn put_program(
    pen: &mut Pen,
    asked: &Asked<'_>,
    metas: &Metas,
    program: &Program,
) -> Result<(), NoMemory>
    requires formed { IsWellFormed metas.now program.now }
    requires relations { length program.now.rels < 2 ^ 32 }
    requires queries { length program.now.queries < 2 ^ 32 }
{
    match enforceable(asked.files.alloc, program, metas) {
        Ok(()) => {
            let of = Transformation {
                alloc: asked.files.alloc,
                metas,
                program,
            };
            put_enforceable(pen, asked, &of)
        }
        Err(RuleError::NoMemory) => Err(NoMemory),
        Err(RuleError::Broken(broken)) => {
            let rule = broken.rule;
            pen.put_string(format!(in asked.files.alloc; " not enforceable E{rule}"));
            Ok(())
        }
    }
}

/// What is asked of a program that can be enforced: of random models, or of those of files.
fn put_enforceable(
    pen: &mut Pen,
    asked: &Asked<'_>,
    of: &Transformation<'_>,
) -> Result<(), NoMemory>
    requires formed { IsWellFormed of.now.metas.now of.now.program.now }
    requires relations { length of.now.program.now.rels < 2 ^ 32 }
    requires enforceable { IsEnforceable of.now.metas.now of.now.program.now }
{
    match asked.question {
        Question::Files(shown) => put_of_files(pen, asked, of, shown),
        Question::Trials { count, seed } => put_trials(pen, of, count, seed),
    }
}

fn put_of_files(
    pen: &mut Pen,
    asked: &Asked<'_>,
    of: &Transformation<'_>,
    shown: Shown,
) -> Result<(), NoMemory>
    requires formed { IsWellFormed of.now.metas.now of.now.program.now }
    requires relations { length of.now.program.now.rels < 2 ^ 32 }
    requires enforceable { IsEnforceable of.now.metas.now of.now.program.now }
{
    let mut origin = Origin::Files(asked.files, asked.pairs);
    match models_of(
        of.alloc,
        &mut origin,
        of.metas,
        of.program.models.as_slice(),
    )? {
        Some(mut models) => {
            texts_are_storable(of.program);
            let put = put_over_models(pen, of, &mut models, shown);
            drop(models);
            put
        }
        None => {
            pen.put(" no models");
            Ok(())
        }
    }
}

fn put_over_models(
    pen: &mut Pen,
    of: &Transformation<'_>,
    models: &mut Models<'_>,
    shown: Shown,
) -> Result<(), NoMemory>
    requires evaluable { IsEvaluable of.now.metas.now of.now.program.now models.old }
    requires relations { length of.now.program.now.rels < 2 ^ 32 }
    requires enforceable { IsEnforceable of.now.metas.now of.now.program.now }
{
    if !is_enforced_over(of.program, models) {
        pen.put(" no models");
        return Ok(());
    }
    match shown {
        Shown::Made(made) => put_made(pen, of, models, made),
        Shown::Demanded(demanded) => put_demanded(pen, of, models, demanded),
    }
}
