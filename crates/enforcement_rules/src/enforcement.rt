ghost use Rattle.std.specs.Prelude.{◌≡◌, ◌<◌, ◌^◌, ℕ, length, IfOk, OnOk, MatchOption};
ghost use Rattle.qv_syntax.specs.WellFormed.{IsWellFormed};
ghost use Rattle.enforcement_rules.specs.LeastRules.{IsBrokenBy};
ghost use Rattle.enforcement_rules.specs.Rules.{Broken, IsEnforceable};
ghost use Rattle.enforcement_rules.specs.RuleAnswers.{IfBroken};
ghost use Rattle.enforcement_rules.specs.Tasks.{IsRelationOf, AreTables};

use crate::class_key::ClassKey;
use crate::fault::{NotEnforceable, RuleError};
use crate::key_table::key_table;
use crate::readers::readers;
use crate::rules::least_broken;
use crate::target::target_meta;
use crate::task::Task;
use crate::two_keys::has_two_keys;
use mof_metamodel::NoMemory;
use ocl_environments::Metas;
use qv_syntax::{Program, Rel};
use std::alloc::Global;

/// What is found once for all relations of a program.
#[derive(Clone, Copy)]
pub(crate) struct Tables<'a> {
    /// The number of the target's metamodel.
    pub(crate) meta: u32,
    /// For each query whether it reads objects of the target.
    pub(crate) readers: &'a [bool],
    /// The key of each class of the target's metamodel.
    pub(crate) keys: &'a [Option<ClassKey>],
    /// Whether a class of it conforms to two that have keys.
    pub(crate) has_two_keys: bool,
}

/// The least rule that a relation breaks, if it is part of the direction.
fn broken_by(
    alloc: Global,
    program: &Program,
    metas: &Metas,
    tables: &Tables<'_>,
    rel: &Rel,
) -> Result<Option<u8>, NoMemory>
    requires formed { IsWellFormed metas.now program.now }
    requires tables { AreTables metas.now program.now tables.now }
    requires relation { IsRelationOf metas.now program.now rel.now }
    ensures { IfOk result (IsBrokenBy metas.now program.now rel.now) }
{
    if !rel.in_direction {
        return Ok(None);
    }
    let task = Task {
        alloc,
        program,
        metas,
        rel,
        meta: tables.meta,
        readers: tables.readers,
        keys: tables.keys,
    };
    least_broken(&task, tables.has_two_keys)
}

/// The first relation of the direction that breaks a rule, with the least.
fn first_broken(
    alloc: Global,
    program: &Program,
    metas: &Metas,
    tables: &Tables<'_>,
) -> Result<Option<NotEnforceable>, NoMemory>
    requires formed { IsWellFormed metas.now program.now }
    requires relations { length program.now.rels < 2 ^ 32 }
    requires tables { AreTables metas.now program.now tables.now }
    ensures { IfOk result (λ o. MatchOption o (IsEnforceable metas.now program.now) (λ b. Broken metas.now program.now b.relation b.rule)) }
{
    let rels = program.rels.as_slice();
    let mut relation: u32 = 0;
    for rel in rels {
        let broken = broken_by(alloc, program, metas, tables, rel)?;
        match broken {
            Some(rule) => return Ok(Some(NotEnforceable { relation, rule })),
            None => {}
        }
        relation += 1;
    }
    Ok(None)
}

/// The same, with what is found once.
fn find_broken(
    alloc: Global,
    program: &Program,
    metas: &Metas,
) -> Result<Option<NotEnforceable>, NoMemory>
    requires formed { IsWellFormed metas.now program.now }
    requires relations { length program.now.rels < 2 ^ 32 }
    requires queries { length program.now.queries < 2 ^ 32 }
    ensures { IfOk result (λ o. MatchOption o (IsEnforceable metas.now program.now) (λ b. Broken metas.now program.now b.relation b.rule)) }
{
    let meta = target_meta(program);
    let readers = readers(alloc, program, meta)?;
    let keys = key_table(alloc, program, metas, meta)?;
    let has_two_keys = has_two_keys(alloc, program, metas, meta)?;
    first_broken(
        alloc,
        program,
        metas,
        &Tables {
            meta,
            readers: readers.as_slice(),
            keys: keys.as_slice(),
            has_two_keys,
        },
    )
}

/// Refuses a program that can't be enforced towards its target: one with a relation of the direction that breaks one of the rules E1 to E11.
///
/// It takes time in proportion to the program, and to the metamodel of its target once; variables, properties and classes are found by
/// search.
///
/// # Errors
///
/// `Broken` with the first such relation in the order of the text and the least rule that it breaks, and `NoMemory` where memory runs out.
pub fn enforceable(alloc: Global, program: &Program, metas: &Metas) -> Result<(), RuleError>
    requires formed { IsWellFormed metas.now program.now }
    requires relations { length program.now.rels < 2 ^ 32 }
    requires queries { length program.now.queries < 2 ^ 32 }
    ensures ok { OnOk result (IsEnforceable metas.now program.now) }
    ensures broken { IfBroken result (Broken metas.now program.now) }
{
    match find_broken(alloc, program, metas)? {
        Some(broken) => Err(RuleError::Broken(broken)),
        None => Ok(()),
    }
}
